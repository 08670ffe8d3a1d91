// `clash`: reads a question sheet from standard input and prints the answer. What it prints is made, and proved, in `print_clash`; here it is
// read and written. There is no exit status: a failure is told on standard error.
#![tactic(auto)]

use print_clash::{INPUT, PRINTED};
use print_out::{Failure, Streams, answer_input, print};

fn main(rt: HostRuntime) {
    let mut input = [0u8; INPUT];
    answer_input(&rt, b"clash", &mut input, |input| answer(&rt, input));
}

fn answer(rt: &impl Streams, input: &[u8]) -> Result<(), Failure> {
    let mut out = [0u8; PRINTED];
    let n = print_clash::printed(input, &mut out);
    print(rt, &out[..n])
}
