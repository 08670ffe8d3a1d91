// The answer of a clash: the texts, spelt from the slots of the working buffer, and their records, each directly behind the one before.
#![tactic(auto)]

mod slot;

ghost use Rattle.std.specs.Prelude.{◌≡◌, ◌+◌, ◌/◌, ◌<◌, ◌≤◌, length};
ghost use Rattle.paper.specs.Numbers.{fields, situation_bytes};
ghost use Rattle.search_records.specs.Records.{origin_in, way_spelt, RecordWritten, Answered};
ghost use Rattle.search_records.specs.Records.{record_mark, mark_width, record_head, head_bytes, record_bytes, in_front, value_records};

use base_codes::{FIELDS, SHEET_FIELDS};
use base_places::PlaceSet;
use search_slots::NUMBER;
use search_slots::numbers::put_number;
pub use slot::Slot;

// Mark and field of a record, and its length.
const MARK: usize = 3;

const HEAD: usize = MARK + NUMBER;

// One step back along the way: the parent's number, and the character that the step from there put before the field.
#[derive(Clone, Copy)]
pub struct Back {
    pub parent: usize,
    pub put: Option<u8>,
}

// The parent's number of a slot, and the step from there.
#[derive(Clone, Copy)]
pub struct Origin {
    pub parent: usize,
    pub step: u8,
}

// Where the slot with the number i comes from, as far as the buffer has that slot.
pub fn origin_of(work: &[u8], i: usize) -> Origin
    ensures { i < length work.now / situation_bytes → result ≡ origin_in work.now i }
{
    let Some(slot) = Slot::at(work, i) else {
        return Origin { parent: 0, step: 0 };
    };
    slot.origin()
}

// "`VA`, field byte"
fn write_mark(out: &mut [u8], f: u8)
    requires { length out.old ≡ mark_width }
    ensures { out.new ≡ record_mark f }
{
    out[0] = b'V';
    out[1] = b'A';
    out[2] = f;
}

// "`VA`, field byte, length in two bytes (low first)". No text is so long that it needs a third (`ShortWays.texts`).
fn write_head(out: &mut [u8], f: u8, n: usize)
    requires { length out.old ≡ head_bytes }
    ensures { out.new ≡ record_head f n }
{
    write_mark(&mut out[0..MARK], f);
    put_number(&mut out[MARK..HEAD], n as u64);
}

// The record of the field f, into the front of what is lent. How many bytes it has.
fn write_record(out: &mut [u8], last: &Slot, f: u8) -> usize
    requires f_lt_fields { f < fields }
    requires f_in_bounds { head_bytes + length (way_spelt last.now.work.now last.now.number f) ≤ length out.old }
    ensures { RecordWritten out.old out.new result (record_bytes f (way_spelt last.now.work.now last.now.number f)) }
{
    let n = last.text_length(f);
    write_head(&mut out[0..HEAD], f, n);
    last.write_text(&mut out[HEAD..HEAD + n], f);
    HEAD + n
}

// How many bytes the records have.
fn records_length(last: &Slot, sets: [PlaceSet; FIELDS]) -> usize
    ensures { result ≡ length (value_records sets (way_spelt last.now.work.now last.now.number)) }
{
    let mut total = 0;
    for (f, &set) in sets[0..SHEET_FIELDS].iter().enumerate() {
        if set != 0 {
            total += HEAD + last.text_length(f as u8);
        }
    }
    total
}

// "each record written directly behind the one before"
fn write_records(answer: &mut [u8], last: &Slot, sets: [PlaceSet; FIELDS])
    requires { length (value_records sets (way_spelt last.now.work.now last.now.number)) ≤ length answer.old }
    ensures { answer.new ≡ in_front (value_records sets (way_spelt last.now.work.now last.now.number)) answer.old }
{
    let mut at = 0;
    for (f, &set) in sets[0..SHEET_FIELDS].iter().enumerate() {
        if set != 0 {
            at += write_record(&mut answer[at..], last, f as u8);
        }
    }
}

// How many bytes the answer has of a clash whose finish is in the last slot, as far as the buffer has that slot.
pub fn answer_length(work: &[u8], last: usize, sets: [PlaceSet; FIELDS]) -> usize
    ensures { last < length work.now / situation_bytes → result ≡ length (value_records sets (way_spelt work.now last)) }
{
    let Some(slot) = Slot::at(work, last) else {
        return 0;
    };
    records_length(&slot, sets)
}

// The answer of a clash whose finish is in the last slot, and how many bytes it has. A field stands in the question's sides if its first place set isn't 0. Where there is no such slot, or the records don't fit, nothing is written.
pub fn answer_clash(
    answer: &mut [u8],
    work: &[u8],
    last: usize,
    sets: [PlaceSet; FIELDS],
) -> Option<usize>
    ensures { last < length work.now / situation_bytes → Answered sets (way_spelt work.now last) answer.old answer.new result }
{
    let slot = Slot::at(work, last)?;
    let total = records_length(&slot, sets);
    if answer.len() < total {
        return None;
    }
    write_records(answer, &slot, sets);
    Some(total)
}
