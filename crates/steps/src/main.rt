// `steps`: reads a question sheet from standard input and prints the answer as `clash` does, and behind it the way found, a line for each step: `left`
// or `right` for a front that is struck, `put` and its sign for a character, which behind `ED` may be two. There is no exit status: a failure is told on
// standard error.
//
// The stored sheet: left `K`, field 0, `-`, field 1; right `K7`, field 2. Field 0 is a digit and one of `ABC`, field 1 is empty or `$`, field 2 is any
// text that is not empty. Both rules make `K7A-`; the last `left` and the last `right` strike the hidden fields of spaces.
#![tactic(auto)]

use base_answers::Numbers;
use base_editions::Edition;
use base_put::sign;
use base_steps::StepsNumbers;
use print_clash::{INPUT, PRINTED};
use print_out::{Failure, Streams, answer_input, print};

// The work has room for 356 situations, and a step has at most four bytes: always enough (`enough` of `StepsPromised`).
const STEPS: usize = 4 * 356;

fn main(rt: HostRuntime) {
    let mut input = [0u8; INPUT];
    answer_input(&rt, b"steps", &mut input, |input| answer_sheet(&rt, input));
}

fn answer_sheet(rt: &impl Streams, sheet: &[u8]) -> Result<(), Failure> {
    let mut work = print_clash::zeroed_work();
    let mut answer = print_clash::zeroed_answer();
    let mut steps = [0u8; STEPS];
    print_answer(rt, sheet, &mut work, &mut answer, &mut steps)
}

fn print_answer(
    rt: &impl Streams,
    sheet: &[u8],
    work: &mut [u8],
    answer: &mut [u8],
    steps: &mut [u8],
) -> Result<(), Failure> {
    let edition = print_signs::edition(sheet);
    let told = StepsNumbers::from(steps_sheet::steps(sheet, work, answer, steps));
    print_lines_of(rt, edition, told, answer)?;
    let n = told.steps.min(steps.len());
    print_steps(rt, edition, &steps[..n])
}

// As `clash` prints them.
fn print_lines_of(
    rt: &impl Streams,
    edition: Edition,
    told: StepsNumbers,
    answer: &[u8],
) -> Result<(), Failure> {
    let mut out = [0u8; PRINTED];
    let numbers = Numbers {
        number: told.number,
        count: told.count,
        place: told.place,
        written: told.written,
    };
    match print_lines::put_lines(&mut out, edition, numbers, answer) {
        Some(n) => print(rt, &out[..n.min(PRINTED)]),
        None => Err(Failure::NotWritten),
    }
}

// A line for each record: mark and kind, and for a character its value.
fn print_steps(rt: &impl Streams, edition: Edition, steps: &[u8]) -> Result<(), Failure> {
    let mut rest = steps;
    while let [_, _, kind, behind @ ..] = rest {
        rest = behind;
        match kind {
            0 => print(rt, b"left\n")?,
            1 => print(rt, b"right\n")?,
            // 2: a character, whose value stands behind
            _ => {
                let [value, behind @ ..] = rest else {
                    return Ok(());
                };
                rest = behind;
                print(rt, b"put ")?;
                print_character(rt, edition, *value)?;
                print(rt, b"\n")?;
            }
        }
    }
    Ok(())
}

// A character as the lines have it, by one sign or two.
fn print_character(rt: &impl Streams, edition: Edition, c: u8) -> Result<(), Failure> {
    if let Some(shift) = print_signs::shift(edition, c) {
        print(rt, &[sign(shift)])?;
    }
    print(rt, &[sign(print_signs::value(edition, c))])
}
