// Every byte of a buffer: in a word where they are as they were lent, or all zero, and one by one where they are neither.
ghost use Rattle.std.specs.Prelude.{◌≤◌, length};

use crate::failure::Failure;
use crate::lent::WORK_FILL;
use crate::output::{print, print_each, print_number};
use crate::streams::Streams;

// The working buffer as it is afterwards.
pub fn print_work(rt: &impl Streams, work: &[u8]) -> Result<(), Failure> {
    print(rt, b", work")?;
    if all(work, 0) {
        return print(rt, b" all zero");
    }
    print_lent(rt, work, WORK_FILL)
}

// An answer buffer that was lent full of this byte: so many that were written to it, and the rest.
pub fn print_answer(
    rt: &impl Streams,
    answer: &[u8],
    written: usize,
    fill: u8,
) -> Result<(), Failure> {
    if answer.len() < written {
        print(rt, b", more than the answer buffer")?;
        return print_each(rt, answer);
    }
    print(rt, b", written")?;
    print_each(rt, &answer[..written])?;
    print(rt, b", rest")?;
    print_lent(rt, &answer[written..], fill)
}

// A buffer that was lent full of this byte.
fn print_lent(rt: &impl Streams, bytes: &[u8], fill: u8) -> Result<(), Failure> {
    if all(bytes, fill) {
        return print(rt, b" unchanged");
    }
    print_each(rt, bytes)
}

// Those up to the last that is not zero, and how many zeros stand behind.
pub fn print_buffer(rt: &impl Streams, name: &[u8], buffer: &[u8]) -> Result<(), Failure> {
    let used = used(buffer);
    print(rt, name)?;
    print_each(rt, &buffer[..used])?;
    print(rt, b", zeros ")?;
    print_number(rt, buffer.len() - used)
}

fn all(bytes: &[u8], byte: u8) -> bool {
    bytes.iter().all(|&b| b == byte)
}

fn used(buffer: &[u8]) -> usize
    ensures { result ≤ length buffer.now }
{
    buffer
        .iter()
        .rposition(|&b| b != 0)
        .map_or(0, |last| last + 1)
}

// How many bytes are not as they were filled.
pub fn changed(buffer: &[u8], byte: u8) -> usize {
    buffer.iter().filter(|&&b| b != byte).count()
}
