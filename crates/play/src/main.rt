// `play`: reads the length of a question sheet in two bytes (low first), the sheet and then records of steps from standard input, plays them and prints
// the answer as `clash` does. There is no exit status: a failure is told on standard error.
//
// The stored input: left field 0 and `A`, right `BA`. `B` is put before field 0, which is struck, and then both hidden fields are.
#![tactic(auto)]

use base_answers::Numbers;
use base_editions::Edition;
use print_lines::FIRST_LINE;
use print_out::{Failure, Streams, answer_input, low_first, print, tell};

// The length, the longest sheet that it can tell, and 65,535 records of the longest, a character's. "50 if it is past the 65,534th": what stands behind
// is never looked at.
const INPUT: usize = 2 + 65535 + 4 * 65535;

// as `clash` lends it
const ANSWER: usize = 4096;

// No later line is longer than two of its records.
const PRINTED: usize = FIRST_LINE + 2 * ANSWER;

fn main(rt: HostRuntime) {
    let mut input = [0u8; INPUT];
    answer_input(&rt, b"play", &mut input, |input| play_input(&rt, input));
}

fn play_input(rt: &impl Streams, input: &[u8]) -> Result<(), Failure> {
    if input.len() < 2 {
        tell(rt, b"play: no length of a sheet\n");
        return Ok(());
    }
    let sheet = low_first(input[0], input[1], 0, 0);
    if input.len() - 2 < sheet {
        tell(rt, b"play: fewer bytes than the sheet's length says\n");
        return Ok(());
    }
    let end = 2 + sheet;
    play(rt, &input[2..end], &input[end..])
}

fn play(rt: &impl Streams, sheet: &[u8], steps: &[u8]) -> Result<(), Failure> {
    let mut answer = [0u8; ANSWER];
    let edition = print_signs::edition(sheet);
    let told = Numbers::from(play_sheet::play(sheet, steps, &mut answer));
    print_told(rt, edition, told, &answer)
}

fn print_told(
    rt: &impl Streams,
    edition: Edition,
    told: Numbers,
    answer: &[u8],
) -> Result<(), Failure> {
    let mut out = [0u8; PRINTED];
    match print_lines::put_lines(&mut out, edition, told, answer) {
        Some(n) => print(rt, &out[..n.min(PRINTED)]),
        // never: the buffer has room for the longest lines
        None => Ok(()),
    }
}
