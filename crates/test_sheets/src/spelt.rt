// A sheet carried over or without its strays, or a rule: what begins with `RU` is one.
use crate::{ANSWER_FILL, print_told};
use base_answers::Numbers;
use carry_numbers::in_numbers;
use print_out::{Failure, Streams, print, print_answer};
use read_side::{Cursor, Mark};

pub fn show_spelt(rt: &impl Streams, sheet: &[u8], out: &mut [u8]) -> Result<(), Failure> {
    let carried = if is_rule(sheet) {
        carry_open::rule(sheet, out)
    } else {
        carry_open::sheet(sheet, out)
    };
    print_written(rt, in_numbers(carried), out)
}

pub fn show_dropped(rt: &impl Streams, sheet: &[u8], out: &mut [u8]) -> Result<(), Failure> {
    let dropped = if is_rule(sheet) {
        carry_strays::rule(sheet, out)
    } else {
        carry_strays::sheet(sheet, out)
    };
    print_written(rt, in_numbers(dropped), out)
}

fn print_written(rt: &impl Streams, told: Numbers, out: &[u8]) -> Result<(), Failure> {
    print_told(rt, told)?;
    print_answer(rt, out, told.written, ANSWER_FILL)?;
    print(rt, b"\n")
}

fn is_rule(sheet: &[u8]) -> bool {
    Cursor { at: 0 }.next_is(sheet, Mark::RU)
}
