// Two sides told apart by what is fixed in them. A case: the number of the edition in eight bytes, the left side and the right side, each with its
// length in two bytes before it; low first.
use crate::written::{read_bytes, read_eight};
use print_out::{Failure, Streams, print, print_number};

// more than a sheet's side may have
const TOKENS: usize = 320;

// A line: 1 or 0.
pub fn show_fronts(rt: &impl Streams) -> Result<(), Failure> {
    let mut left = [0u8; TOKENS];
    let mut right = [0u8; TOKENS];
    let edition = read_eight(rt)?;
    let l = read_bytes(rt, &mut left)?;
    let r = read_bytes(rt, &mut right)?;
    let told = fronts_sides::fronts_differ(edition, &left[..l], &right[..r]);
    print_number(rt, told as usize)?;
    print(rt, b"\n")
}
