// Sheets written by the program (request K8): "Given the two sides and the patterns by field, please write the one sheet that says them." And the
// edition that they are given in (request K10).
#![tactic(auto)]

ghost use Rattle.std.specs.Prelude.{◌≡◌, List, ℕ, ◌+◌, ◌≤◌, Ok};
ghost use Rattle.paper.specs.Sheet.{Mark};
ghost use Rattle.paper.specs.Saying.{mark_bytes, edition_laid, edition_byte};
ghost use Rattle.paper_write.specs.Laying.{Laying, then_side, both_sides, laying_in, laying};
ghost use Rattle.paper_write.specs.Writing.{writing, WritePromised};
ghost use Rattle.base_editions.specs.Editions.{paper_edition};
ghost use Rattle.base_put.specs.Counted.{Counted};
ghost use Rattle.write_records.specs.RecordPut.{Lays};
ghost use Rattle.write_sheet.specs.declared.WriteError.TheVariants.{Refused};
ghost use Rattle.write_sheet.specs.SheetWritten.{given, error_numbers, told_written, span, moved, PatternsLaid, StraysFound, KnownLengths};

use base_answers::{Fault, Numbers, Refusal, SHEET_TOO_SHORT};
use base_editions::Edition;
use base_put::put_all;

// Why no sheet is written. specs/SheetWritten.antt gives each its numbers.
// Kept: (d) beside `script_sheet::ScriptError`, as a short buffer has another number here: one type of both would carry that number in each use.
#[derive(Clone, Copy)]
pub enum WriteError {
    // 44, 11, 13 to 17, 22: what reading the sheet would meet first
    Refused(Refusal),
    // 41: the output buffer is too short
    TooShort,
}

impl From<Refusal> for WriteError {
    ghost from_gives = { λ r e. e ≡ Refused r };

    fn from(refusal: Refusal) -> WriteError
        ensures { result ≡ Refused refusal }
    {
        WriteError::Refused(refusal)
    }
}

// An error in numbers.
impl From<WriteError> for Numbers {
    ghost from_gives = { λ e n. n ≡ error_numbers e };

    fn from(e: WriteError) -> Numbers
        ensures { result ≡ error_numbers e }
    {
        match e {
            WriteError::Refused(refusal) => Numbers::from(refusal),
            WriteError::TooShort => Numbers::of_number(SHEET_TOO_SHORT),
        }
    }
}

// Writes the one sheet that says these sides and patterns in the edition: 0 for none, 2 for `ED` and 2 in front; any other is 44. `patterns` are the
// bytes of all patterns one behind the other, `lengths` says how many of them each field has, by field number; 0, and a field behind the last length, is a
// field without a pattern. Patterns and sides are bytes of that edition. How many bytes stand in front of the buffer.
pub fn write_edition(
    edition: usize,
    patterns: &[u8],
    lengths: &[u64],
    left: &[u8],
    right: &[u8],
    out: &mut [u8],
) -> Result<usize, WriteError>
    ensures whole { told_written result out.new ≡ writing (given edition patterns.now lengths.now left.now right.now) out.old }
    ensures promised { WritePromised (given edition patterns.now lengths.now left.now right.now) out.old (told_written result out.new) }
{
    let bytes = put_sheet(&mut out[0..0], patterns, lengths, left, right, edition)?;
    if out.len() < bytes {
        return Err(WriteError::TooShort);
    }
    Ok(put_sheet(out, patterns, lengths, left, right, edition)?)
}

// Writes it without `ED`.
pub fn write(
    patterns: &[u8],
    lengths: &[u64],
    left: &[u8],
    right: &[u8],
    out: &mut [u8],
) -> Result<usize, WriteError>
    ensures whole { told_written result out.new ≡ writing (given 0 patterns.now lengths.now left.now right.now) out.old }
    ensures promised { WritePromised (given 0 patterns.now lengths.now left.now right.now) out.old (told_written result out.new) }
{
    write_edition(0, patterns, lengths, left, right, out)
}

// The whole sheet, each record judged and then put: as far as there is room. "0 for none, 44 at place 2 for any other than 2"
fn put_sheet(
    out: &mut [u8],
    patterns: &[u8],
    lengths: &[u64],
    left: &[u8],
    right: &[u8],
    edition: usize,
) -> Result<usize, Refusal>
    ensures { Lays out.old out.new 0 result (laying (given edition patterns.now lengths.now left.now right.now)) }
{
    if edition == 0 {
        return put_in(out, patterns, lengths, left, right, Edition::First);
    }
    if edition == 2 {
        return put_in(out, patterns, lengths, left, right, Edition::Second);
    }
    Err(Refusal {
        fault: Fault::WrongEdition,
        place: 2,
    })
}

// The records of a sheet of the edition.
fn put_in(
    out: &mut [u8],
    patterns: &[u8],
    lengths: &[u64],
    left: &[u8],
    right: &[u8],
    edition: Edition,
) -> Result<usize, Refusal>
    ensures { (n : ℕ) → Lays out.old out.new 0 result (laying_in (paper_edition edition) (given n patterns.now lengths.now left.now right.now)) }
{
    let front = put_edition(out, edition);
    let fields = put_patterns(out, front, patterns, lengths, edition)?;
    let first = put_side(out, fields, b"LE", left, edition)?;
    let last = put_side(out, first, b"RI", right, edition)?;
    check_strays(front, lengths, left, right, edition)?;
    Ok(last)
}

// `ED` and its byte, or nothing.
fn put_edition(out: &mut [u8], edition: Edition) -> usize
    ensures { Counted out.old out.new 0 result (edition_laid (edition_byte (paper_edition edition))) }
{
    match edition {
        Edition::First => 0,
        Edition::Second => put_all(out, 0, b"ED\x02"),
    }
}

// A record behind so many bytes: the place behind it, or its fault, with the place from the front on.
fn moved(at: usize, its: Result<usize, Refusal>) -> Result<usize, Refusal>
    requires { at + span its ≤ 2054 }
    ensures { result ≡ moved at its }
{
    match its {
        Ok(bytes) => Ok(at + bytes),
        Err(refusal) => Err(Refusal {
            fault: refusal.fault,
            place: at + refusal.place,
        }),
    }
}

// The records of the patterns, field numbers rising, behind so many bytes.
fn put_patterns(
    out: &mut [u8],
    start: usize,
    patterns: &[u8],
    lengths: &[u64],
    edition: Edition,
) -> Result<usize, Refusal>
    requires { start ≤ 3 }
    ensures laid { PatternsLaid (paper_edition edition) lengths.now patterns.now out.old out.new start result }
    ensures low { span result ≤ 2000 }
{
    let mut at = start;
    let mut from = 0;
    for f in 0..lengths.len() {
        let n = lengths[f] as usize;
        at = moved(
            at,
            write_records::field(out, at, f, n, &patterns[from..], edition),
        )?;
        from += n;
    }
    Ok(at)
}

// A side behind so many bytes, which were laid out.
fn put_side(
    out: &mut [u8],
    at: usize,
    mark: &[u8],
    tokens: &[u8],
    edition: Edition,
) -> Result<usize, Refusal>
    requires { (at ≤ 2027) × ((m : Mark) × (mark.now ≡ mark_bytes m)) }
    ensures laid { (d : List ℕ) (w : Laying) (m : Mark) → mark.now ≡ mark_bytes m → Lays d out.old 0 (Ok at) w → Lays d out.new 0 result (then_side (paper_edition edition) m tokens.now w) }
    ensures low { span result ≤ at + 27 }
{
    moved(at, write_records::side(out, at, mark, tokens, edition))
}

// The last check, behind all records: a pattern whose field stands in neither side, the first of them at its record's mark. The records begin behind so
// many bytes.
fn check_strays(
    start: usize,
    lengths: &[u64],
    left: &[u8],
    right: &[u8],
    edition: Edition,
) -> Result<(), Refusal>
    requires { (start ≤ 3) × KnownLengths lengths.now }
    ensures { StraysFound (both_sides (paper_edition edition) left.now right.now) lengths.now start result }
{
    let mut at = start;
    for f in 0..lengths.len() {
        let n = lengths[f] as usize;
        if n > 0 {
            if !write_records::field_stands(f, left, right, edition) {
                return Err(Refusal {
                    fault: Fault::StrayPattern,
                    place: at,
                });
            }
            at += 4 + n;
        }
    }
    Ok(())
}
