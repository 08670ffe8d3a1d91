// `drop_strays`: reads a question sheet, a rule of a catalogue or a whole catalogue from standard input, by the rule before request K13, and writes it
// without the patterns of fields that stand in neither side. A sheet begins with `ED`, `PA` or `LE`, the others with `RU`, and a catalogue of no rules
// is zeros; a catalogue keeps its length. There is no exit status: a refusal or a failure is told on standard error, and of what is refused nothing is
// written.
//
// The stored sheet: field 0 is a digit and stands on both sides; field 2 has a pattern and stands on the right; field 3 stands without a pattern.
// Fields 1, 4 and 7 have a pattern and stand nowhere.
#![tactic(auto)]

use base_answers::Refusal;
use carry_anew::RewriteError;
use print_failures::refuse;
use print_out::{Failure, Streams, answer_input, print, tell};
use read_side::{Cursor, Mark};

// More than a catalogue of 32 of the longest rules has. A buffer as long as the sheet or the rule is always enough: `carry_strays::sheet` and
// `carry_strays::rule` promise it.
const MOST: usize = 65536;

// and a byte by which a longer input is seen
const INPUT: usize = MOST + 1;

fn main(rt: HostRuntime) {
    let mut input = [0u8; INPUT];
    answer_input(&rt, b"drop_strays", &mut input, |input| answer(&rt, input));
}

fn answer(rt: &impl Streams, bytes: &mut [u8]) -> Result<(), Failure> {
    if MOST < bytes.len() {
        tell(rt, b"drop_strays: more than 65,536 bytes\n");
        return Ok(());
    }
    drop_from(rt, bytes)
}

// Kept: (d) `carry_over` is alike: what is called, its errors and its words differ in each line, and a function of both would take five closures.
// What is no sheet and no rule by itself may be a catalogue.
fn drop_from(rt: &impl Streams, bytes: &mut [u8]) -> Result<(), Failure> {
    let mut out = [0u8; MOST];
    match without_strays(bytes, &mut out) {
        Ok(n) => print(rt, &out[..n.min(MOST)]),
        Err(RewriteError::Refused(refusal)) => drop_in_catalogue(rt, bytes, refusal),
        Err(RewriteError::ForeignField) => {
            tell(rt, b"drop_strays: 31: the rule names a field above 3\n");
            Ok(())
        }
        // never: the buffer is as long as the longest input
        Err(RewriteError::TooShort) => Ok(()),
    }
}

fn without_strays(bytes: &[u8], out: &mut [u8]) -> Result<usize, RewriteError> {
    if (Cursor { at: 0 }).next_is(bytes, Mark::RU) {
        return carry_strays::rule(bytes, out);
    }
    carry_strays::sheet(bytes, out)
}

// No bytes at all are a sheet cut short, and not a catalogue: more likely than one without a byte is an input that went missing.
fn drop_in_catalogue(
    rt: &impl Streams,
    catalogue: &mut [u8],
    refusal: Refusal,
) -> Result<(), Failure> {
    if catalogue.is_empty() {
        refuse(rt, b"drop_strays", refusal);
        return Ok(());
    }
    match carry_strays::catalogue(catalogue) {
        Ok(()) => print(rt, catalogue)?,
        Err(_) => refuse(rt, b"drop_strays", refusal),
    }
    Ok(())
}
