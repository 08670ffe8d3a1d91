// The steps of a way, made one after the other: where playing them ends, and what they put before a field.
#![tactic(auto)]

ghost use Rattle.std.specs.Prelude.{◌≡◌, ◌+◌, eqb};
ghost use Rattle.base_codes.specs.Inner.{field_code};
ghost use Rattle.base_codes.specs.Coded.{denoted, finished_coded};
ghost use Rattle.base_put.specs.Counted.{Counted};
ghost use Rattle.search_children.specs.Children.{given_coded};
ghost use Rattle.search_children.specs.Laid.{tables_lent};
ghost use Rattle.play_walk.specs.WalkCoded.{stop_number, made_of, ended_coded, walked, text_walked};

use base_answers::{NO_STEP, NOT_FINISHED, SIDE_TOO_LONG, STEP_NOT_ALLOWED, TOO_MANY_STEPS};
use base_codes::{FIELD_CODE, NO_TOKEN, Situation};
use base_places::CHARACTERS;
use search_children::{Child, Tables};

// "50 if it is past the 65,534th"
const MOST_STEPS: usize = 65534;

// Why playing stops before the finish.
#[derive(Clone, Copy)]
pub enum Stop {
    // 50: a record past the 65,534th
    PastMost,
    // 47: no record of a step
    NoRecord,
    // 48: a step that is not allowed
    NotAllowed,
    // 19: a side above 48 tokens
    SideTooLong,
    // 49: the records end before the finish
    Unfinished,
}

impl Stop {
    // The number of a refusal of the records.
    pub fn number(self) -> usize
        ensures { result ≡ stop_number self }
    {
        match self {
            Stop::PastMost => TOO_MANY_STEPS,
            Stop::NoRecord => NO_STEP,
            Stop::NotAllowed => STEP_NOT_ALLOWED,
            Stop::SideTooLong => SIDE_TOO_LONG,
            Stop::Unfinished => NOT_FINISHED,
        }
    }
}

// "finished": both sides are empty
pub fn is_finished(s: Situation) -> bool
    ensures { result ≡ finished_coded (denoted s) }
{
    s.left[0] == NO_TOKEN && s.right[0] == NO_TOKEN
}

// "49 where the records end before the finish"
#[tactic(auto, unfolding(crate::specs::WalkCoded::ended_coded))]
fn ended(s: Situation) -> Result<(), Stop>
    ensures { result ≡ ended_coded (denoted s) }
{
    if is_finished(s) {
        Ok(())
    } else {
        Err(Stop::Unfinished)
    }
}

// The situation that a step makes: "48 for a step not allowed, 19 for a long side".
pub fn made(child: Child) -> Result<Situation, Stop>
    ensures { result ≡ made_of child }
{
    match child {
        Child::Dropped => Err(Stop::NotAllowed),
        Child::Above => Err(Stop::SideTooLong),
        Child::Made(s) => Ok(s),
    }
}

// Plays the records of steps from this situation on.
pub fn walk(first: Situation, steps: &[u8], tables: &Tables) -> Result<(), Stop>
    ensures { result ≡ walked (tables_lent tables.now) (denoted first) steps.now }
{
    let mut s = first;
    let mut at = 0;
    for _ in 0..MOST_STEPS {
        if at == steps.len() {
            return ended(s);
        }
        let record = play_record::front(steps, at, tables.characters).ok_or(Stop::NoRecord)?;
        let child = play_step::step(s, record.step, tables);
        s = made(child)?;
        at += record.bytes;
    }
    if at < steps.len() {
        return Err(Stop::PastMost);
    }
    ended(s)
}

// Is the field f in front of a side with this byte first?
fn is_front(b: u8, f: u8) -> bool
    ensures { result ≡ eqb b (field_code + f) }
{
    usize::from(b) == usize::from(FIELD_CODE) + usize::from(f)
}

// The character, if the step from this situation puts one before the field f.
#[tactic(auto, using(base_codes::proofs::Tokens::tokens_front), unfolding(search_children::specs::Children::given_coded))]
fn put_given(out: &mut [u8], at: usize, s: Situation, step: u8, f: u8) -> usize
    ensures { Counted out.old out.new at result (given_coded f (denoted s) step) }
{
    if usize::from(step) < CHARACTERS && (is_front(s.left[0], f) || is_front(s.right[0], f)) {
        base_put::put(out, at, step)
    } else {
        at
    }
}

// "A field's text is the characters put before it on the way": those that the records put before the field f, as far as they can be made.
pub fn put_text(
    out: &mut [u8],
    at: usize,
    first: Situation,
    steps: &[u8],
    f: u8,
    tables: &Tables,
) -> usize
    ensures { Counted out.old out.new at result (text_walked (tables_lent tables.now) f (denoted first) steps.now) }
{
    let mut end = at;
    let mut s = first;
    let mut i = 0;
    for _ in 0..MOST_STEPS {
        let Some(record) = play_record::front(steps, i, tables.characters) else {
            return end;
        };
        let child = play_step::step(s, record.step, tables);
        let Child::Made(next) = child else {
            return end;
        };
        end = put_given(out, end, s, record.step, f);
        s = next;
        i += record.bytes;
    }
    end
}
