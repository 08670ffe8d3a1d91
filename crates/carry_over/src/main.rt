// `carry_over`: reads a question sheet, a rule of a catalogue or a whole catalogue from standard input and writes it with 68 65 0 42 for every standing
// field without a pattern. A sheet begins with `PA` or `LE`, the others with `RU`, and a catalogue of no rules is zeros; a catalogue keeps its length.
// There is no exit status: a refusal or a failure is told on standard error, and of what is refused nothing is written.
//
// The stored sheet: field 0 is a digit and stands on both sides; fields 1 and 3 stand without a pattern; field 2 has a pattern and stands on the
// right.
#![tactic(auto)]

use base_answers::Refusal;
use carry_anew::RewriteError;
use carry_open::CarryError;
use print_failures::refuse;
use print_out::{Failure, Streams, answer_input, print, tell};
use read_side::{Cursor, Mark};

// more than a catalogue of 32 of the longest rules has
const MOST: usize = 65536;

// and a byte by which a longer input is seen
const INPUT: usize = MOST + 1;

// No sheet and no rule is longer: `enough`, which `carry_open::sheet` and `carry_open::rule` promise.
const LONGEST: usize = 1625;

fn main(rt: HostRuntime) {
    let mut input = [0u8; INPUT];
    answer_input(&rt, b"carry_over", &mut input, |input| answer(&rt, input));
}

fn answer(rt: &impl Streams, bytes: &mut [u8]) -> Result<(), Failure> {
    if MOST < bytes.len() {
        tell(rt, b"carry_over: more than 65,536 bytes\n");
        return Ok(());
    }
    carry(rt, bytes)
}

// What is no sheet and no rule by itself may be a catalogue.
fn carry(rt: &impl Streams, bytes: &mut [u8]) -> Result<(), Failure> {
    let mut out = [0u8; LONGEST];
    match carried(bytes, &mut out) {
        Ok(n) => print(rt, &out[..n.min(LONGEST)]),
        Err(RewriteError::Refused(refusal)) => carry_catalogue(rt, bytes, refusal),
        Err(RewriteError::ForeignField) => {
            tell(rt, b"carry_over: 31: the rule names a field above 3\n");
            Ok(())
        }
        // never: the buffer is as long as the longest sheet
        Err(RewriteError::TooShort) => Ok(()),
    }
}

fn carried(bytes: &[u8], out: &mut [u8]) -> Result<usize, RewriteError> {
    if (Cursor { at: 0 }).next_is(bytes, Mark::RU) {
        return carry_open::rule(bytes, out);
    }
    carry_open::sheet(bytes, out)
}

// No bytes at all are a sheet cut short, and not a catalogue: more likely than one without a byte is an input that went missing.
fn carry_catalogue(
    rt: &impl Streams,
    catalogue: &mut [u8],
    refusal: Refusal,
) -> Result<(), Failure> {
    if catalogue.is_empty() {
        refuse(rt, b"carry_over", refusal);
        return Ok(());
    }
    match carry_open::catalogue(catalogue) {
        Ok(()) => print(rt, catalogue)?,
        Err(CarryError::Full) => tell(
            rt,
            b"carry_over: 32: the rules no longer fit the catalogue\n",
        ),
        Err(CarryError::NoCatalogue) => refuse(rt, b"carry_over", refusal),
    }
    Ok(())
}
