// What the writer of sheets is handed, and the sheet that it writes. A case: the number of lengths in one byte and each length in eight, the
// patterns, the left side and the right side, each with its length in two bytes before it, and the length of the output buffer in two bytes; all
// low first. In a part `WE` the edition stands in front, in eight bytes; in a part `WR` it is 0, for a sheet without `ED`.
ghost use Rattle.std.specs.Prelude.{◌≤◌, length, IfOk};

use crate::{ANSWER_FILL, print_line};
use base_answers::Numbers;
use print_out::{Failure, Streams, fill, read_all, read_number};

// as many as one byte can tell
const LENGTHS: usize = 255;

// more than eight patterns of 192 bytes
const PATTERNS: usize = 2048;

// more than one byte can tell
const TOKENS: usize = 320;

// more than the longest sheet
const OUTPUT: usize = 2048;

// the greatest number that four bytes can tell
const FOUR_BYTES: usize = 4294967295;

pub fn show_written(rt: &impl Streams) -> Result<(), Failure> {
    show_in(rt, 0)
}

pub fn show_edition(rt: &impl Streams) -> Result<(), Failure> {
    let edition = read_eight(rt)?;
    show_in(rt, edition)
}

fn show_in(rt: &impl Streams, edition: usize) -> Result<(), Failure> {
    let mut lengths = [0u64; LENGTHS];
    let mut patterns = [0u8; PATTERNS];
    let mut left = [0u8; TOKENS];
    let mut right = [0u8; TOKENS];
    let mut out = [0u8; OUTPUT];
    let k = read_lengths(rt, &mut lengths)?;
    let p = read_bytes(rt, &mut patterns)?;
    let l = read_bytes(rt, &mut left)?;
    let r = read_bytes(rt, &mut right)?;
    let o = read_number(rt, 2, OUTPUT)?;
    show_sheet(
        rt,
        edition,
        &lengths[..k],
        &patterns[..p],
        &left[..l],
        &right[..r],
        &mut out[..o],
    )
}

// A line: number, count, place and written length, and every byte of the output buffer.
fn show_sheet(
    rt: &impl Streams,
    edition: usize,
    lengths: &[u64],
    patterns: &[u8],
    left: &[u8],
    right: &[u8],
    out: &mut [u8],
) -> Result<(), Failure> {
    fill(out, ANSWER_FILL);
    let told = Numbers::from(write_sheet::write_edition(
        edition, patterns, lengths, left, right, out,
    ));
    print_line(rt, told, out)
}

// The number of the lengths, and so many.
fn read_lengths(rt: &impl Streams, lengths: &mut [u64]) -> Result<usize, Failure>
    ensures { IfOk result (λ k. k ≤ length lengths.old) }
{
    let k = read_number(rt, 1, lengths.len())?;
    for length in &mut lengths[..k] {
        *length = read_eight(rt)? as u64;
    }
    Ok(k)
}

// A number in eight bytes.
pub fn read_eight(rt: &impl Streams) -> Result<usize, Failure> {
    let low = read_number(rt, 4, FOUR_BYTES)?;
    let high = read_number(rt, 4, FOUR_BYTES)?;
    Ok(low + (FOUR_BYTES + 1) * high)
}

// The number of the bytes, and so many.
pub fn read_bytes(rt: &impl Streams, bytes: &mut [u8]) -> Result<usize, Failure>
    ensures { IfOk result (λ n. n ≤ length bytes.old) }
{
    let n = read_number(rt, 2, bytes.len())?;
    read_all(rt, &mut bytes[..n])?;
    Ok(n)
}
