// A sheet for the engine for plain rules: what it answers and what becomes of its bits, and how many bytes the sheet needs.
use base_answers::Numbers;
use print_out::{Failure, Streams, print, print_number, print_numbers, print_work};

pub fn show_plain(rt: &impl Streams, sheet: &[u8], bits: &mut [u8]) -> Result<(), Failure> {
    let told = plain_sheet::in_numbers(plain_sheet::plain(sheet, bits));
    print_number(rt, told.number)?;
    print_numbers(rt, &[told.count, told.place])?;
    print_work(rt, bits)?;
    show_needed(rt, sheet)
}

// Number, place and bytes.
fn show_needed(rt: &impl Streams, sheet: &[u8]) -> Result<(), Failure> {
    let told = Numbers::from(plain_sheet::bytes_needed(sheet));
    print(rt, b", needs ")?;
    print_number(rt, told.number)?;
    print_numbers(rt, &[told.place, told.written])?;
    print(rt, b"\n")
}
