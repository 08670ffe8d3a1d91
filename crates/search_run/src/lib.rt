// The search: from the two sides and the fields' tables to how it ends, in a lent working buffer, and to the records of a clash.
#![tactic(auto)]

mod search;
mod told;

ghost use Rattle.std.specs.Prelude.{◌≡◌, ◌-◌, ◌<◌, length, replicate};
ghost use Rattle.base_codes.specs.Inner.{tokens};
ghost use Rattle.search_trim.specs.Trimming.{question_coded};
ghost use Rattle.search_run.specs.Ended.{room_for, ClashTold, SearchOver, SearchedSo, Concluded};
ghost use Rattle.search_steps.specs.WaySteps.{steps_told};
ghost use Rattle.search_run.specs.Lent.{tables_within};
ghost use Rattle.search_run.specs.StepsEnded.{steps_concluded};
ghost use Rattle.search_run.specs.Way.{WayTo};

use base_answers::How;
use base_codes::{CodedSide, FIELDS};
use base_places::PlaceSet;
use base_steps::StepsHow;
pub use search::{Run, Status};
use search_children::Tables;
pub use told::Told;

// "at most 65,535"
const MOST_ROOM: usize = 65535;

// A search that is over, and the first situation's sets: they say which fields stand. Only `run` makes one, so no other crate can call `Told::of`.
#[derive(Clone, Copy)]
pub struct Over {
    run: Run,
    sets: [PlaceSet; FIELDS],
}

// The search from the trimmed question on. Its slots are in the working buffer afterwards.
fn searched(left: CodedSide, right: CodedSide, tables: &Tables, work: &mut [u8]) -> Over
    ensures { SearchedSo (tables_within tables.now) (room_for (length work.old)) (question_coded (tokens left) (tokens right)) work.new result.run result.sets }
{
    let first = search_trim::question(left, right);
    let room = room_for(work.len());
    let run = search::search(work, room, first, tables);
    let sets = first.sets;
    Over { run, sets }
}

// Searches the question of these sides, whose fields have these tables, and tells of it: how it ended, or that and its way, which is then written into
// the third buffer. The working buffer is all zero afterwards.
pub fn run<T: Told>(
    left: CodedSide,
    right: CodedSide,
    tables: &Tables,
    work: &mut [u8],
    answer: &mut [u8],
    steps: &mut [u8],
) -> T
    ensures told { T.told_by (tables_within tables.now) (room_for (length work.old)) (question_coded (tokens left) (tokens right)) answer.old steps.old answer.new steps.new result }
    ensures work { work.new ≡ replicate (length work.old) 0 }
{
    let over = searched(left, right, tables, work);
    let told = T::of(over, work, answer, steps);
    search_slots::clear(work);
    told
}

// "Room is one situation for each whole 184 bytes of working buffer, and at most 65,535."
pub fn room_for(bytes: usize) -> usize
    ensures { result ≡ room_for bytes }
{
    let whole = search_slots::slots_in(bytes);
    if whole < MOST_ROOM { whole } else { MOST_ROOM }
}

// How it ends once the search is over.
fn conclude(answer: &mut [u8], work: &[u8], over: Over) -> How
    requires { SearchOver work.now over.run }
    ensures { (o : SearchOver work.now over.run) → Concluded o.search over.sets answer.old answer.new result }
{
    match over.run.status {
        Status::Found => found(answer, work, over.run.entered, over.sets),
        Status::UsedUp => How::NoClash,
        Status::NoRoom => How::NoRoom,
        Status::TooLong => How::SideTooLong,
        Status::Going => How::NoRoom,
    }
}

// The same with the way. Where a finish was found it is in the last slot.
// Kept: (d) beside `conclude`, as a trait for the ends that `How` and `StepsHow` share would be longer than these arms.
fn conclude_steps(answer: &mut [u8], steps: &mut [u8], work: &[u8], over: Over) -> StepsHow
    requires { SearchOver work.now over.run }
    ensures { (o : SearchOver work.now over.run) → steps_told result answer.new steps.new ≡ steps_concluded o.search over.sets answer.old steps.old }
{
    match over.run.status {
        Status::Found => search_steps::answer_steps(
            answer,
            steps,
            work,
            over.run.entered - 1,
            over.sets,
        ),
        Status::UsedUp => StepsHow::NoClash,
        Status::NoRoom => StepsHow::NoRoom,
        Status::TooLong => StepsHow::SideTooLong,
        Status::Going => StepsHow::NoRoom,
    }
}

// How a clash ends, whose finish is in the last slot.
fn found(answer: &mut [u8], work: &[u8], count: usize, sets: [PlaceSet; FIELDS]) -> How
    requires count_nonzero { 0 < count }
    requires way_to { WayTo work.now (count - 1) }
    ensures { (w : WayTo work.now (count - 1)) → ClashTold w.slots count sets answer.old answer.new result }
{
    match search_records::answer_clash(answer, work, count - 1, sets) {
        None => How::AnswerTooShort,
        Some(written) => How::Clash { written },
    }
}
