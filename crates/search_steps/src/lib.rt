// The steps of a clash: the records of the way, from the slots of the working buffer, and the answer of a clash with them.
#![tactic(auto)]

ghost use Rattle.std.specs.Prelude.{◌≡◌, ◌/◌, ◌<◌, length};
ghost use Rattle.paper.specs.Numbers.{situation_bytes};
ghost use Rattle.search_records.specs.Records.{way_spelt, value_records};
ghost use Rattle.search_steps.specs.WaySteps.{step_bytes, way_steps, StepsBefore, steps_told, steps_answered};

use base_codes::{FIELDS, LEFT_STRUCK, RIGHT_STRUCK};
use base_places::PlaceSet;
use base_steps::StepsHow;
use search_records::{Origin, Slot};

// Mark and kind; for a character its value too.
const STRUCK_BYTES: usize = 3;

const PUT_BYTES: usize = 4;

// How many bytes the record of a step has.
#[tactic(auto, unfolding(crate::specs::WaySteps::step_bytes))]
fn record_length(step: u8) -> usize
    ensures { result ≡ length (step_bytes step) }
{
    match step {
        LEFT_STRUCK | RIGHT_STRUCK => STRUCK_BYTES,
        _ => PUT_BYTES,
    }
}

// "mark `ST`, a kind byte (0 left front struck, 1 right front struck, 2 a character) and for kind 2 its value"
#[tactic(auto, unfolding(crate::specs::WaySteps::step_bytes))]
fn write_step(out: &mut [u8], step: u8)
    requires { length out.old ≡ length (step_bytes step) }
    ensures { out.new ≡ step_bytes step }
{
    match step {
        LEFT_STRUCK => out.copy_from_slice(&[b'S', b'T', 0]),
        RIGHT_STRUCK => out.copy_from_slice(&[b'S', b'T', 1]),
        character => out.copy_from_slice(&[b'S', b'T', 2, character]),
    }
}

// One step back from a slot, which isn't the first. Where its parent is not before it the way begins with this step.
fn step_before(slot: &Slot) -> Origin
    requires { 0 < slot.now.number }
    ensures { StepsBefore slot.now.work.now slot.now.number result }
{
    let origin = slot.origin();
    if origin.parent < slot.number {
        return origin;
    }
    Origin {
        parent: 0,
        ..origin
    }
}

// How many bytes the records of the way to the last slot have.
fn steps_length(last: &Slot) -> usize
    ensures { result ≡ length (way_steps last.now.work.now last.now.number) }
{
    let mut n = 0;
    let mut i = last.number;
    while i > 0 {
        let before = step_before(&last.earlier(i));
        n += record_length(before.step);
        i = before.parent;
    }
    n
}

// These records, written from their end back.
// Kept: (d) a walk of its own beside that of `steps_length`: a closure that writes would have to promise the lent slice at each turn, which is longer than the loop.
fn write_steps(out: &mut [u8], last: &Slot)
    requires { length out.old ≡ length (way_steps last.now.work.now last.now.number) }
    ensures { out.new ≡ way_steps last.now.work.now last.now.number }
{
    let mut end = out.len();
    let mut i = last.number;
    while i > 0 {
        let before = step_before(&last.earlier(i));
        let at = end - record_length(before.step);
        write_step(&mut out[at..end], before.step);
        end = at;
        i = before.parent;
    }
}

// The answer of a clash whose finish is in the last slot, with its steps: "51, after 20". Where there is no such slot, or one of the two doesn't fit, nothing is written.
pub fn answer_steps(
    answer: &mut [u8],
    steps: &mut [u8],
    work: &[u8],
    last: usize,
    sets: [PlaceSet; FIELDS],
) -> StepsHow
    ensures { last < length work.now / situation_bytes → steps_told result answer.new steps.new ≡ steps_answered (value_records sets (way_spelt work.now last)) (way_steps work.now last) answer.old steps.old }
{
    let Some(slot) = Slot::at(work, last) else {
        return StepsHow::NoRoom;
    };
    let written = search_records::answer_length(work, last, sets);
    let bytes = steps_length(&slot);
    if answer.len() < written {
        return StepsHow::AnswerTooShort;
    }
    if steps.len() < bytes {
        return StepsHow::StepsTooShort;
    }
    search_records::answer_clash(answer, work, last, sets);
    write_steps(&mut steps[0..bytes], &slot);
    StepsHow::Clash {
        written,
        steps: bytes,
    }
}
