// Records put anew, changed by whether their field stands: with 68 65 0 42, behind `ED` 196 193 0 127, written out for each standing field without a
// pattern, or without those of fields that don't stand. Everything else is put byte for byte.
#![tactic(auto)]

ghost use Rattle.std.specs.Prelude.{◌≡◌, ◌<◌, ◌+◌, drop};
ghost use Rattle.paper.specs.Numbers.{fields};
ghost use Rattle.base_editions.specs.Editions.{paper_edition};
ghost use Rattle.base_put.specs.Counted.{Counted};
ghost use Rattle.carry_records.specs.Changing.{record_length, out_bytes, record_out, missing, leaves_out, field_put, changed_from};

use base_codes::{FIELDS, SHEET_FIELDS};
use base_editions::Edition;
use base_put::{put, put_all};
use base_question::Body;

// What is changed.
#[derive(Clone, Copy)]
pub enum Change {
    // the pattern is written out in an edition for a field that stands and has none
    Open(Edition),
    // the record of a field that doesn't stand is left out
    Drop,
}

// "68 65 0 42", behind `ED` "196 193 0 127", and its length in front
fn written_out(edition: Edition) -> [u8; 5]
    ensures { result ≡ out_bytes (paper_edition edition) }
{
    match edition {
        Edition::First => [4, 68, 65, 0, 42],
        Edition::Second => [4, 196, 193, 0, 127],
    }
}

// Kept: (d) a length and no Option, for the next offset adds it (`record_length`).
// How many bytes the record of a pattern of so many has, if they are there from the offset on; 0 where there is no pattern.
#[tactic(auto, unfolding(crate::specs::Changing::record_length))]
fn record_at(s: &[u8], at: usize, length: usize) -> usize
    ensures { result ≡ record_length s.now at length }
{
    let left = s.len().saturating_sub(at);
    if length == 0 || left < 4 || left - 4 < length {
        return 0;
    }
    4 + length
}

// The record that is written out for a field which stands.
fn put_open(out: &mut [u8], at: usize, f: usize, count: usize, edition: Edition) -> usize
    requires { f < fields }
    ensures { Counted out.old out.new at result (record_out (paper_edition edition) f count) }
{
    if count == 0 {
        return at;
    }
    let marked = put_all(out, at, b"PA");
    let named = put(out, marked, f as u8);
    let code = written_out(edition);
    put_all(out, named, &code)
}

// What is put for a field without a record.
fn put_missing(out: &mut [u8], at: usize, f: usize, count: usize, change: Change) -> usize
    requires { f < fields }
    ensures { Counted out.old out.new at result (missing change f count) }
{
    match change {
        Change::Open(edition) => put_open(out, at, f, count, edition),
        Change::Drop => at,
    }
}

// Is the record of a field that stands so often left out?
fn leaves_out(change: Change, count: usize) -> bool
    ensures { result ≡ leaves_out change count }
{
    match change {
        Change::Open(_) => false,
        Change::Drop => count == 0,
    }
}

// The place behind what was put, and the offset behind what was read.
#[derive(Clone, Copy)]
pub struct Placed {
    pub end: usize,
    pub next: usize,
}

// What is put for a field whose pattern has so many bytes.
fn put_field(
    out: &mut [u8],
    at: usize,
    s: &[u8],
    from: usize,
    f: usize,
    length: usize,
    count: usize,
    change: Change,
) -> Placed
    requires { f < fields }
    ensures next { result.next ≡ from + record_length s.now from length }
    ensures put { Counted out.old out.new at result.end (field_put change s.now from f length count) }
{
    let n = record_at(s, from, length);
    if n == 0 {
        return Placed {
            end: put_missing(out, at, f, count, change),
            next: from,
        };
    }
    let next = from + n;
    if leaves_out(change, count) {
        return Placed { end: at, next };
    }
    Placed {
        end: put_all(out, at, &s[from..next]),
        next,
    }
}

// The records, from an offset on, by where each field's pattern stands, and by how often each field does.
pub fn put_from(
    out: &mut [u8],
    at: usize,
    s: &[u8],
    from: usize,
    bodies: [Body; SHEET_FIELDS],
    counts: [usize; FIELDS],
    change: Change,
) -> usize
    ensures { Counted out.old out.new at result (changed_from change s.now from bodies counts) }
{
    let mut end = at;
    let mut next = from;
    for f in 0..SHEET_FIELDS {
        let body = bodies[f];
        let placed = put_field(out, end, s, next, f, body.length, counts[f], change);
        end = placed.end;
        next = placed.next;
    }
    put_rest(out, end, s, next)
}

// All that is left behind the patterns.
fn put_rest(out: &mut [u8], at: usize, s: &[u8], from: usize) -> usize
    ensures { Counted out.old out.new at result (drop from s.now) }
{
    put_all(out, at, s.get(from..).unwrap_or(&[]))
}
