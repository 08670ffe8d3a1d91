// A text of Full ASCII to be spelt, or a spelt text to be read back. A case: the letter `S` or `R`, the bytes, with their number in two before
// them, and the length of the output buffer in two; low first.
use crate::written::read_bytes;
use crate::{ANSWER_FILL, print_line};
use base_answers::Numbers;
use print_out::{Failure, Streams, fill, read_number};

// the most bytes that are handed over
const BYTES: usize = 1024;

// more than the spelling of so many
const OUTPUT: usize = 2304;

pub fn show_ascii(rt: &impl Streams) -> Result<(), Failure> {
    let mut bytes = [0u8; BYTES];
    let mut out = [0u8; OUTPUT];
    let to_spell = read_number(rt, 1, 255)? == usize::from(b'S');
    let n = read_bytes(rt, &mut bytes)?;
    let o = read_number(rt, 2, OUTPUT)?;
    show_bytes(rt, to_spell, &bytes[..n], &mut out[..o])
}

// A line: number, count, place and written length, and every byte of the output buffer.
fn show_bytes(
    rt: &impl Streams,
    to_spell: bool,
    bytes: &[u8],
    out: &mut [u8],
) -> Result<(), Failure> {
    fill(out, ANSWER_FILL);
    let spelt = if to_spell {
        spell_text::spell(bytes, out)
    } else {
        spell_back::read_spelt(bytes, out)
    };
    print_line(rt, Numbers::from(spelt), out)
}
