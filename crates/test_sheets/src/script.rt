// A sheet's script, and how the same sheet is answered where the buffer is just long enough, and where a byte is missing.
use crate::print_told;
use base_answers::Numbers;
use print_out::{Failure, Streams, changed, fill, print, print_number, print_numbers};

// No script is longer: `enough`, which `script_sheet::script` promises.
const SCRIPT: usize = 280000;

// The byte with which the buffer is filled before each call.
const FILL: u8 = 165;

pub fn show_script(rt: &impl Streams, sheet: &[u8]) -> Result<(), Failure> {
    let mut out = [0u8; SCRIPT];
    show_first(rt, sheet, &mut out)
}

fn show_first(rt: &impl Streams, sheet: &[u8], out: &mut [u8]) -> Result<(), Failure> {
    let told = answered(sheet, out);
    let n = told.written;
    print_told(rt, told)?;
    print(rt, b"\n")?;
    if told.number == 0 && n <= out.len() {
        show_just(rt, sheet, &mut out[..n])?;
    }
    Ok(())
}

// The script, and a line: the number for a buffer of just its length, the number for one that is a byte shorter, and how many bytes are changed.
fn show_just(rt: &impl Streams, sheet: &[u8], out: &mut [u8]) -> Result<(), Failure> {
    print(rt, out)?;
    let told = answered(sheet, out);
    print_number(rt, told.number)?;
    let n = out.len();
    if n > 0 {
        let short = &mut out[..n - 1];
        let told = answered(sheet, short);
        print_numbers(rt, &[told.number, changed(short, FILL)])?;
        print(rt, b"\n")?;
    }
    Ok(())
}

fn answered(sheet: &[u8], out: &mut [u8]) -> Numbers {
    fill(out, FILL);
    Numbers::from(script_sheet::script(sheet, out))
}
