// A question decided: attempts one after the other in the same working buffer. A sheet asks one, and so does a pair of rules.
#![tactic(auto)]

ghost use Rattle.std.specs.Prelude.{Bool, ◌≡◌, ◌≤◌, length, replicate, OnErr};
ghost use Rattle.paper.specs.Numbers.{most_room};
ghost use Rattle.base_editions.specs.Editions.{paper_edition};
ghost use Rattle.plain_question.specs.Reached.{Meets, Says};
ghost use Rattle.search_question.specs.Over.{ended_all, buffer_all};
ghost use Rattle.decide_texts.specs.TextsCoded.{texts_coded};
ghost use Rattle.decide_question.specs.Attempt.{decides_coded, with_count, tested_coded, searched_coded, as_result, entered_in, edition_by, letters_asked, apart_asked, attempt_coded, GivesAs};
ghost use Rattle.decide_question.specs.Settling.{later, settled_from, settled_coded};

use base_answers::{Ended, How};
use base_editions::{Alphabet, Edition};
use base_question::Question;

// The attempts behind 01's search.
#[derive(Clone, Copy)]
enum Attempt {
    Letters,
    Apart,
    Shortest,
    Longer,
    Alike,
    Few,
}

// They are made in this order.
const LATER: [Attempt; 6] = [
    Attempt::Letters,
    Attempt::Apart,
    Attempt::Shortest,
    Attempt::Longer,
    Attempt::Alike,
    Attempt::Few,
];

// The texts of the longer ones have so many characters or more, where they can.
const LONGER_TEXT: usize = 3;

// How many characters Code 39 has.
const CODE_39: usize = 43;

// The bits of a situation's bytes.
const SITUATION_BITS: usize = 8 * 184;

// How the attempt that decided ended, with the situations of all the attempts made, and which it was: 1 is 01's search, 2 to 7 are those behind it.
// Where none decided it is 0, and the end is the first search's.
// Kept: (a) `search` is the number that `Decision` and the C interface tell, 0 where none decided.
#[derive(Clone, Copy)]
pub struct Settled {
    pub ended: Ended,
    pub search: u8,
}

// What an attempt gives: how it ended, where that decides; else how many situations it entered.
type Tried = Result<Ended, usize>;

// Has the question a solution? "1. 01's search. Where it gives 0 or 1, that is the answer". The patterns of the fields 0 to 3 stand in `first`, those
// of the fields 4 to 7 in `second`, where the question's bodies say.
pub fn decide(
    question: Question,
    first: &[u8],
    second: &[u8],
    work: &mut [u8],
    answer: &mut [u8],
) -> Settled
    ensures settled { (m : Bool) → Says m (Meets question) → record { settled = result; buffer = answer.new } ≡ settled_coded question m first.now second.now (length work.old) answer.old }
    ensures work { work.new ≡ replicate (length work.old) 0 }
{
    let mut none = [0; 1];
    let ended: Ended = search_question::search_told(question, work, answer, &mut none[0..0]);
    let count = ended.count;
    if decides(ended, true) {
        return told(ended, count, 1);
    }
    further(question, first, second, ended, count, work, answer)
}

// The attempts behind the first, until one decides. Otherwise "not decided: 18 or 19 as the first search said it".
fn further(
    question: Question,
    first: &[u8],
    second: &[u8],
    own: Ended,
    entered: usize,
    work: &mut [u8],
    answer: &mut [u8],
) -> Settled
    requires work_value { work.old ≡ replicate (length work.old) 0 }
    requires entered_le_most_room { entered ≤ most_room }
    ensures settled { (m : Bool) → Says m (Meets question) → record { settled = result; buffer = answer.new } ≡ settled_from (attempt_coded question (length work.old) answer.old m first.now second.now) own answer.old entered later }
    ensures work { work.new ≡ work.old }
{
    let mut count = entered;
    for &attempt in &LATER {
        match attempt.made(question, first, second, work, answer) {
            Ok(ended) => return told(ended, count + ended.count, attempt.number()),
            Err(its) => count += its,
        }
    }
    told(own, count, 0)
}

impl Attempt {
    ghost use Rattle.decide_question.specs.Order.{number_of};

    // Its number, as 01's search has 1.
    fn number(self) -> u8
        ensures { result ≡ number_of self }
    {
        match self {
            Attempt::Letters => 2,
            Attempt::Apart => 3,
            Attempt::Shortest => 4,
            Attempt::Longer => 5,
            Attempt::Alike => 6,
            Attempt::Few => 7,
        }
    }

    // It is made. A test leaves both buffers as they are; a search writes texts only where it finds a clash, and that decides.
    fn made(
        self,
        question: Question,
        first: &[u8],
        second: &[u8],
        work: &mut [u8],
        answer: &mut [u8],
    ) -> Tried
        requires { work.old ≡ replicate (length work.old) 0 }
        ensures tried { (m : Bool) → Says m (Meets question) → GivesAs (attempt_coded question (length work.old) answer.old m first.now second.now (number_of self)) result answer.new }
        ensures entered { entered_in result ≤ most_room }
        ensures unchanged { OnErr result (answer.new ≡ answer.old) }
        ensures work { work.new ≡ work.old }
    {
        match self {
            // "Letters": where they differ there is no clash.
            Attempt::Letters => tested(letters(&question, first, second)),
            // "Each standing apart": its no clash is a no clash.
            Attempt::Apart => tested(apart(question, work.len())),
            // "A text for each field that stands twice: the shortest, then the next ones". Its clash is a clash of the question.
            Attempt::Shortest => searched(text(question, 0, work, answer), false),
            Attempt::Longer => searched(text(question, LONGER_TEXT, work, answer), false),
            // "Characters alike. .. Its 0 carries texts that solve the question; its 1 is a no clash."
            Attempt::Alike => {
                let least = decide_alike::characters(question, false);
                searched(search_question::search(question, least, work, answer), true)
            }
            // "Few characters. .. Its 0 carries texts that solve the question; its 1 says nothing."
            Attempt::Few => {
                let few = decide_alike::characters(question, true);
                searched(search_question::search(question, few, work, answer), false)
            }
        }
    }
}

// The tests and the search of texts are not put into their caller: what each works with would be on the stack of every attempt.

// Do the letters of both sides differ, whatever the fields hold? The question is lent, as a copy of it would stay there too.
#[inline(never)]
fn letters(question: &Question, first: &[u8], second: &[u8]) -> bool
    ensures { result ≡ letters_asked question.now first.now second.now }
{
    let alphabet = question.alphabet;
    let edition = edition_of(alphabet);
    decide_letters::letters_differ(
        question.left,
        question.right,
        alphabet.space,
        edition,
        question.bodies,
        first,
        second,
    )
}

// The edition whose alphabet it is.
fn edition_of(alphabet: Alphabet) -> Edition
    ensures { paper_edition result ≡ edition_by alphabet.characters }
{
    if alphabet.characters == CODE_39 {
        Edition::First
    } else {
        Edition::Second
    }
}

// Is no label read by both sides, each standing apart? Told only where the bits fit: "those of 8 × 184 × room".
#[inline(never)]
fn apart(question: Question, bytes: usize) -> bool
    ensures { (m : Bool) → Says m (Meets question) → result ≡ apart_asked question m bytes }
{
    let bits = plain_count::bits_of(question);
    let room = search_run::room_for(bytes);
    if SITUATION_BITS * room < bits {
        return false;
    }
    !plain_question::clashes(question)
}

// The search of the question in which each field that stands twice holds one text, of n characters or more where it can.
#[inline(never)]
fn text(question: Question, n: usize, work: &mut [u8], answer: &mut [u8]) -> Ended
    ensures ended { result ≡ ended_all (texts_coded question n) (length work.old) answer.old }
    ensures answer { answer.new ≡ buffer_all (texts_coded question n) (length work.old) answer.old }
    ensures work { work.new ≡ replicate (length work.old) 0 }
{
    let with = decide_texts::with_texts(question, n);
    search_question::search_all(with, work, answer)
}

// What a test gives: no clash, or nothing.
fn tested(no_clash: bool) -> Tried
    ensures { result ≡ as_result (tested_coded no_clash) }
{
    if no_clash {
        Ok(Ended {
            how: How::NoClash,
            count: 0,
        })
    } else {
        Err(0)
    }
}

// What a search gives, whose no clash does or does not decide.
fn searched(ended: Ended, no_clash: bool) -> Tried
    ensures { result ≡ as_result (searched_coded no_clash ended) }
{
    if decides(ended, no_clash) {
        Ok(ended)
    } else {
        Err(ended.count)
    }
}

// Does the end decide? A clash does, and no clash does or does not.
fn decides(ended: Ended, no_clash: bool) -> bool
    ensures { result ≡ decides_coded no_clash ended }
{
    match ended.how {
        How::Clash { written: _ } | How::AnswerTooShort => true,
        How::NoClash => no_clash,
        How::NoRoom | How::SideTooLong => false,
    }
}

// The end of an attempt, with the situations of all the attempts made.
fn told(ended: Ended, count: usize, search: u8) -> Settled
    ensures { result ≡ record { ended = with_count count ended; search = search } }
{
    let how = ended.how;
    Settled {
        ended: Ended { how, count },
        search,
    }
}
