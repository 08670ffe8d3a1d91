// What the small engine answers of a question (request K9), by how many bytes of bits are lent; and how many bytes it needs.
#![tactic(auto)]

ghost use Rattle.std.specs.Prelude.{◌≡◌};
ghost use Rattle.plain_answer.specs.Answered.{Answered, plain_error, answer_by, needed_by};
ghost use Rattle.plain_answer.specs.EngineNumbers.{error_numbers, plain_numbers};

use base_answers::{BITS_TOO_FEW, Numbers, Refusal, STANDS_TWICE};
use base_question::Question;
use plain_count::{bits_of, stands_twice};
use plain_question::clashes;

// "It says only clash or no clash": 0 and 1.
#[derive(Clone, Copy, PartialEq, Eq)]
pub enum Verdict {
    Clash,
    NoClash,
}

// Why it says neither. specs/EngineNumbers.antt gives each its numbers.
#[derive(Clone, Copy)]
pub enum PlainError {
    // 42: a field stands more than once
    StandsTwice,
    // 43: the bits don't fit
    BitsTooFew,
    // 11 to 17, 22 and 44: the sheet's own
    Refused(Refusal),
}

pub type PlainAnswer = Result<Verdict, PlainError>;

// Why it is not told how many bytes of bits a sheet needs.
#[derive(Clone, Copy)]
pub enum NeededError {
    // 42: a field stands more than once
    StandsTwice,
    // 11 to 17, 22 and 44: the sheet's own
    Refused(Refusal),
}

pub type Needed = Result<usize, NeededError>;

// What is told of a question in which no field stands more than once: its verdict, if the bits fit; and how many bytes they need.
#[derive(Clone, Copy)]
pub struct Answering {
    pub verdict: Option<Verdict>,
    pub needed: usize,
}

impl From<Refusal> for NeededError {
    ghost use Rattle.plain_answer.specs.declared.NeededError.{NeededError};

    ghost from_gives = { λ r e. e ≡ NeededError.Refused r };

    fn from(refusal: Refusal) -> Self
        ensures { result ≡ NeededError.Refused refusal }
    {
        NeededError::Refused(refusal)
    }
}

impl From<Refusal> for PlainError {
    ghost use Rattle.plain_answer.specs.declared.PlainError.{PlainError};

    ghost from_gives = { λ r e. e ≡ PlainError.Refused r };

    fn from(refusal: Refusal) -> Self
        ensures { result ≡ PlainError.Refused refusal }
    {
        PlainError::Refused(refusal)
    }
}

impl From<NeededError> for PlainError {
    ghost from_gives = { λ n e. e ≡ plain_error n };

    fn from(error: NeededError) -> Self
        ensures { result ≡ plain_error error }
    {
        match error {
            NeededError::StandsTwice => PlainError::StandsTwice,
            NeededError::Refused(refusal) => PlainError::Refused(refusal),
        }
    }
}

// "42 if a field stands more than once in the two sides together, then 43 if the bits don't fit": a byte has eight of them.
pub fn answered(question: Question, bytes: usize) -> Result<Answering, NeededError>
    ensures { Answered question bytes result }
{
    let left = question.left;
    let right = question.right;
    if stands_twice(left, right) {
        return Err(NeededError::StandsTwice);
    }
    let needed = (bits_of(question) + 7) / 8;
    if bytes < needed {
        return Ok(Answering {
            verdict: None,
            needed,
        });
    }
    let verdict = if clashes(question) {
        Verdict::Clash
    } else {
        Verdict::NoClash
    };
    Ok(Answering {
        verdict: Some(verdict),
        needed,
    })
}

// The answer, by what is told.
pub fn answer_of(told: Result<Answering, NeededError>) -> PlainAnswer
    ensures { result ≡ answer_by told }
{
    told?.verdict.ok_or(PlainError::BitsTooFew)
}

// How many bytes are needed, by what is told.
pub fn needs(told: Result<Answering, NeededError>) -> Needed
    ensures { result ≡ needed_by told }
{
    Ok(told?.needed)
}

impl From<PlainError> for Numbers {
    ghost from_gives = { λ e n. n ≡ error_numbers e };

    fn from(error: PlainError) -> Self
        ensures { result ≡ error_numbers error }
    {
        match error {
            PlainError::StandsTwice => Numbers::of_number(STANDS_TWICE),
            PlainError::BitsTooFew => Numbers::of_number(BITS_TOO_FEW),
            PlainError::Refused(refusal) => Numbers::from(refusal),
        }
    }
}

impl From<NeededError> for Numbers {
    ghost from_gives = { λ e n. n ≡ error_numbers (plain_error e) };

    fn from(error: NeededError) -> Self
        ensures { result ≡ error_numbers (plain_error error) }
    {
        Numbers::from(PlainError::from(error))
    }
}

// An answer in numbers.
// Kept: (d) `From` is for a type of the crate, and a `Result` is none.
pub fn in_numbers(answer: PlainAnswer) -> Numbers
    ensures { result ≡ plain_numbers answer }
{
    match answer {
        Ok(Verdict::Clash) => Numbers::of_number(0),
        Ok(Verdict::NoClash) => Numbers::of_number(1),
        Err(error) => Numbers::from(error),
    }
}
