// `plain`: reads a question sheet from standard input and prints what the small engine answers: number, count and place. It "says only clash or no
// clash", of a sheet in which no field stands twice. There is no exit status: a failure is told on standard error.
//
// The stored sheet is one that needs all the bits: four fields a side, each any number of digits and letters, written with 63 leaves, and 20
// characters. The two sides end in different ones.
#![tactic(auto)]

use print_out::{Failure, Streams, answer_input, print, print_number, print_numbers};

// As `clash` does: it "reads the first" 2,048 "bytes of standard input".
const INPUT: usize = 2048;

// No sheet needs more: `enough`, which `plain_sheet::plain` promises.
const BITS: usize = 9731;

fn main(rt: HostRuntime) {
    let mut input = [0u8; INPUT];
    answer_input(&rt, b"plain", &mut input, |input| answer(&rt, input));
}

// "answer, count and place in decimal, one space between"
fn answer(rt: &impl Streams, sheet: &[u8]) -> Result<(), Failure> {
    let mut bits = [0u8; BITS];
    let told = plain_sheet::in_numbers(plain_sheet::plain(sheet, &mut bits));
    print_number(rt, told.number)?;
    print_numbers(rt, &[told.count, told.place])?;
    print(rt, b"\n")
}
