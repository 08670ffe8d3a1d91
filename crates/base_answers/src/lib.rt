// What the library answers: the faults of a sheet, how a search ends, and the whole answer with its numbers.
#![tactic(auto)]

ghost use Rattle.std.specs.Prelude.{◌≡◌, MatchResult};
ghost use Rattle.paper.specs.Sheet.{fault_number};
ghost use Rattle.base_answers.specs.Faults.{fault_of};
ghost use Rattle.base_answers.specs.AnswerNumbers.{how_number, number_in_pair, how_written, written_numbers, number_alone, refusal_numbers, as_numbers};

// "The first fault met decides."
#[derive(Clone, Copy)]
pub enum Fault {
    CutShort,
    WrongMark,
    WrongField,
    WrongLength,
    NotOnePattern,
    TooManyLeaves,
    WrongToken,
    WrongEdition,
    StrayPattern,
}

impl Fault {
    // The fault's number.
    pub fn number(self) -> u8
        ensures { result ≡ fault_number (fault_of self) }
    {
        match self {
            Fault::CutShort => 11,
            Fault::WrongMark => 12,
            Fault::WrongField => 13,
            Fault::WrongLength => 14,
            Fault::NotOnePattern => 15,
            Fault::TooManyLeaves => 16,
            Fault::WrongToken => 17,
            Fault::WrongEdition => 44,
            Fault::StrayPattern => 22,
        }
    }
}

// What a sheet or a rule is refused for: the first fault met, and the offset of its byte.
#[derive(Clone, Copy)]
pub struct Refusal {
    pub fault: Fault,
    pub place: usize,
}

// How a search ends.
#[derive(Clone, Copy)]
pub enum How {
    // 0: the answer buffer holds a text for each field standing in the sides
    Clash { written: usize },
    // 1: no label can be read by both rules
    NoClash,
    // 18: no room for a situation
    NoRoom,
    // 19: a side above 48 tokens
    SideTooLong,
    // 20: a clash, but the answer buffer is too short for the texts
    AnswerTooShort,
}

// How it ended, and the situations entered.
#[derive(Clone, Copy)]
pub struct Ended {
    pub how: How,
    pub count: usize,
}

// The answer to a sheet: how its search ended, or what it is refused for. specs/AnswerNumbers.antt gives each its number, count, place and written
// length.
pub type Answer = Result<Ended, Refusal>;

// "a side above 48 tokens gives 19"
pub const SIDE_TOO_LONG: usize = 19;

// From this number on a clash was found, and not all that tells of it is written.
pub const ANSWER_TOO_SHORT: usize = 20;

impl How {
    // The number of a search's end.
    pub fn number(self) -> usize
        ensures { result ≡ how_number self }
    {
        match self {
            How::Clash { written: _ } => 0,
            How::NoClash => 1,
            How::NoRoom => 18,
            How::SideTooLong => SIDE_TOO_LONG,
            How::AnswerTooShort => ANSWER_TOO_SHORT,
        }
    }

    // Its number in a pair: "a pair's texts are not written, so it can't give 20".
    pub fn pair_number(self) -> usize
        ensures { result ≡ number_in_pair self }
    {
        let number = self.number();
        if number < ANSWER_TOO_SHORT { number } else { 0 }
    }

    // The answer bytes written.
    fn written(self) -> usize
        ensures { result ≡ how_written self }
    {
        match self {
            How::Clash { written } => written,
            How::NoClash | How::NoRoom | How::SideTooLong | How::AnswerTooShort => 0,
        }
    }
}

// The numbers of what the requests refuse.
// K1: "30 for a pair not answered 1"
pub const NOT_APART: usize = 30;
// "31 for a field above 3"
pub const FOREIGN_FIELD: usize = 31;
// "32 if 32 rules stand or the record's bytes don't fit"
pub const CATALOGUE_FULL: usize = 32;
// "33 if no rule has that number"
pub const NO_RULE: usize = 33;
// "34 for a buffer not of this form"
pub const NO_CATALOGUE: usize = 34;
// the list of pairs checked again does not fit
pub const LIST_TOO_SHORT: usize = 35;
// K4: "40 if the output buffer is too short"
pub const SCRIPT_TOO_SHORT: usize = 40;
// K8: "41 if the buffer is too short"
pub const SHEET_TOO_SHORT: usize = 41;
// K9: "42 if a field stands more than once in the two sides together"
pub const STANDS_TWICE: usize = 42;
// "43 if the bits don't fit"
pub const BITS_TOO_FEW: usize = 43;
// K10: "45 for a byte above 127 to be spelt, or a spelt text the table doesn't give"
pub const NOT_IN_TABLE: usize = 45;
// "46, after it, for a short buffer"
pub const SPELT_TOO_SHORT: usize = 46;
// K14: "47 for one cut short, with another mark, a kind above 2 or a value that is no character"
pub const NO_STEP: usize = 47;
// "48 for a step not allowed"
pub const STEP_NOT_ALLOWED: usize = 48;
// "49 where the records end before the finish"
pub const NOT_FINISHED: usize = 49;
// "50 if it is past the 65,534th"
pub const TOO_MANY_STEPS: usize = 50;
// "51, after 20," if the steps don't fit
pub const STEPS_TOO_SHORT: usize = 51;

// An answer in document 01's numbers.
#[derive(Clone, Copy)]
pub struct Numbers {
    pub number: usize,
    pub count: usize,
    pub place: usize,
    pub written: usize,
}

impl Numbers {
    // So many bytes were written, and nothing else is told.
    pub fn of_written(written: usize) -> Self
        ensures { result ≡ written_numbers written }
    {
        Numbers {
            written,
            ..Numbers::of_number(0)
        }
    }

    // A number of which nothing else is told.
    pub fn of_number(number: usize) -> Self
        ensures { result ≡ number_alone number }
    {
        Numbers {
            number,
            count: 0,
            place: 0,
            written: 0,
        }
    }
}

impl From<Refusal> for Numbers {
    ghost from_gives = { λ r n. n ≡ refusal_numbers r };

    fn from(refusal: Refusal) -> Self
        ensures { result ≡ refusal_numbers refusal }
    {
        Numbers {
            place: refusal.place,
            ..Numbers::of_number(refusal.fault.number() as usize)
        }
    }
}

impl From<Answer> for Numbers {
    ghost from_gives = { λ a n. n ≡ as_numbers a };

    fn from(a: Answer) -> Self
        ensures { result ≡ as_numbers a }
    {
        match a {
            Ok(ended) => Numbers {
                count: ended.count,
                written: ended.how.written(),
                ..Numbers::of_number(ended.how.number())
            },
            Err(refusal) => Numbers::from(refusal),
        }
    }
}

// Of so many bytes written, or of an error that has its own numbers.
impl<E: Into<Numbers>> From<Result<usize, E>> for Numbers {
    ghost from_gives = { λ a n. MatchResult a (λ w. n ≡ written_numbers w) (λ e. E.converts e n) };

    fn from(a: Result<usize, E>) -> Self {
        match a {
            Ok(written) => Numbers::of_written(written),
            Err(error) => error.into(),
        }
    }
}
