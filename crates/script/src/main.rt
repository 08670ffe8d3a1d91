// `script`: reads a question sheet from standard input and writes it out as a script for string solvers. There is no exit status: a refusal
// or a failure is told on standard error, and nothing is written.
//
// The stored sheet: left `K`, field 0, `-4`, field 0, field 2; right `K7`, field 1, `.$`. Field 0 is `LT`, or a digit and any of the values 34 to 38
// (`YZ-. `); field 2 is empty or `$`; field 1 is open.
#![tactic(auto)]

use print_failures::refuse;
use print_out::{Failure, Streams, answer_input, print, tell};
use script_sheet::ScriptError;

// As `clash` does: it "reads the first" 2,048 "bytes of standard input".
const INPUT: usize = 2048;

// No script is longer: `enough`, which `script_sheet::script` promises.
const SCRIPT: usize = 280000;

fn main(rt: HostRuntime) {
    let mut input = [0u8; INPUT];
    answer_input(&rt, b"script", &mut input, |input| write_out(&rt, input));
}

fn write_out(rt: &impl Streams, sheet: &[u8]) -> Result<(), Failure> {
    let mut out = [0u8; SCRIPT];
    write_in(rt, sheet, &mut out)
}

fn write_in(rt: &impl Streams, sheet: &[u8], out: &mut [u8]) -> Result<(), Failure> {
    match script_sheet::script(sheet, out) {
        Ok(bytes) => print(rt, &out[..bytes])?,
        Err(ScriptError::Refused(refusal)) => refuse(rt, b"script", refusal),
        // never: the buffer is as long as the longest script
        Err(ScriptError::TooShort) => tell(rt, b"script: 40: the buffer is too short\n"),
    }
    Ok(())
}
