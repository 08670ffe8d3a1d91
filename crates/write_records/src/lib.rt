// A record of the sheet that is to be written: judged by itself, by 01's checks in their order, in the edition of the sheet, and put if it is good. And
// whether a field stands in the sides that are to be written.
#![tactic(auto)]

ghost use Rattle.std.specs.Prelude.{◌≡◌, ◌&&◌, ◌<◌, ltb, Err};
ghost use Rattle.paper.specs.Numbers.{fields};
ghost use Rattle.paper.specs.Equation.{stands_in};
ghost use Rattle.paper.specs.Sheet.{Mark};
ghost use Rattle.paper.specs.Saying.{mark_bytes};
ghost use Rattle.paper.specs.Saying.{pattern_laid};
ghost use Rattle.paper_write.specs.Laying.{record_laid, side_record_laid, both_sides};
ghost use Rattle.base_editions.specs.Editions.{paper_edition};
ghost use Rattle.base_put.specs.Counted.{Counted};
ghost use Rattle.write_records.specs.RecordPut.{field_laid, Lays};

use base_answers::{Fault, Refusal};
use base_codes::{SHEET_FIELDS, stands};
use base_editions::{Edition, codes_from};
use base_put::{put, put_all};
use read_codes::{PATTERN_BYTES, codes_of};
use read_side::SHEET_SIDE;

// What is laid out for a field: the record of its pattern of so many bytes, the first of those lent, put from `at` on; nothing where it has none. How
// many bytes the record has, or the fault that refuses it, with its place from the record's mark on.
pub fn field(
    out: &mut [u8],
    at: usize,
    f: usize,
    n: usize,
    patterns: &[u8],
    edition: Edition,
) -> Result<usize, Refusal>
    ensures { Lays out.old out.new at result (field_laid (paper_edition edition) f n patterns.now) }
{
    if n == 0 {
        return Ok(0);
    }
    pattern(out, at, f, n, patterns, edition)
}

fn pattern(
    out: &mut [u8],
    at: usize,
    f: usize,
    n: usize,
    patterns: &[u8],
    edition: Edition,
) -> Result<usize, Refusal>
    ensures { Lays out.old out.new at result (record_laid (paper_edition edition) f n patterns.now) }
{
    if SHEET_FIELDS <= f {
        return refuse(Fault::WrongField, 2);
    }
    if PATTERN_BYTES < n {
        return refuse(Fault::WrongLength, 3);
    }
    let there = patterns.len();
    if there < n {
        return refuse(Fault::CutShort, 4 + there);
    }
    let codes = codes_of::<PATTERN_BYTES>(edition, &patterns[0..n]);
    match read_pattern::tables(&codes[0..n]) {
        Ok(_) => {
            put_pattern(out, at, f, n, &patterns[0..n]);
            Ok(4 + n)
        }
        Err(refusal) => refuse(refusal.fault, 4 + refusal.place),
    }
}

// `PA`: "field byte 0 to 7, length byte n 1 to 192, n bytes"
fn put_pattern(out: &mut [u8], at: usize, f: usize, n: usize, code: &[u8]) -> usize
    requires { (f < 256) × (n < 256) }
    ensures { Counted out.old out.new at result (pattern_laid f n code.now) }
{
    let marked = put_all(out, at, b"PA");
    let named = put(out, marked, f as u8);
    let measured = put(out, named, n as u8);
    put_all(out, measured, code)
}

// The record of a side, put behind its mark from `at` on: how many bytes it has, or the fault and its place, from the mark on.
pub fn side(
    out: &mut [u8],
    at: usize,
    mark: &[u8],
    tokens: &[u8],
    edition: Edition,
) -> Result<usize, Refusal>
    ensures { (m : Mark) → mark.now ≡ mark_bytes m → Lays out.old out.new at result (side_record_laid (paper_edition edition) m tokens.now) }
{
    let n = tokens.len();
    if SHEET_SIDE < n {
        return refuse(Fault::WrongLength, 2);
    }
    let good = read_side::leading_tokens(tokens, edition);
    if good < n {
        return refuse(Fault::WrongToken, 3 + good);
    }
    let marked = put_all(out, at, mark);
    let measured = put(out, marked, n as u8);
    put_all(out, measured, tokens);
    Ok(3 + n)
}

// Does the field stand in one of the sides? By its token in the edition; a field above 7 has none.
pub fn field_stands(f: usize, left: &[u8], right: &[u8], edition: Edition) -> bool
    ensures { result ≡ (ltb f fields && stands_in f (both_sides (paper_edition edition) left.now right.now)) }
{
    if SHEET_FIELDS <= f {
        return false;
    }
    let token = codes_from(edition) + f as u8;
    if stands(left, token) {
        return true;
    }
    stands(right, token)
}

// A record with a fault.
fn refuse(fault: Fault, place: usize) -> Result<usize, Refusal>
    ensures { result ≡ Err (record { fault = fault; place = place }) }
{
    Err(Refusal { fault, place })
}
