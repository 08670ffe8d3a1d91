// Printing to standard output, and failures on standard error.
//
// Behind a failure nothing more is tried: what came out is the front of what is meant, and the program tells at its end why it stopped.
use crate::failure::Failure;
use crate::streams::Streams;
use std::io;

// All of the text: a write that takes a part is followed by one of the rest.
pub fn print(rt: &impl Streams, text: &[u8]) -> Result<(), Failure> {
    written(rt.output().write_all(text))
}

pub fn print_number(rt: &impl Streams, n: usize) -> Result<(), Failure> {
    written(print!(rt.output(); "{n}"))
}

// Each with a space before it.
pub fn print_numbers(rt: &impl Streams, numbers: &[usize]) -> Result<(), Failure> {
    for n in numbers {
        written(print!(rt.output(); " {n}"))?;
    }
    Ok(())
}

// Each in two hexadecimal digits with a space before it.
// Kept: (d) beside `print_numbers`: the format is a literal, and nothing else is left of either.
pub fn print_each(rt: &impl Streams, bytes: &[u8]) -> Result<(), Failure> {
    for b in bytes {
        written(print!(rt.output(); " {b:02x}"))?;
    }
    Ok(())
}

fn written(all: io::Result<()>) -> Result<(), Failure> {
    all.map_err(|_| Failure::NotWritten)
}

// Tells why a program could not go on with its input or its output.
pub fn tell_end(rt: &impl Streams, program: &[u8], ended: Result<(), Failure>) {
    match ended {
        Ok(()) | Err(Failure::NotAllowed) => {}
        Err(Failure::NotRead) => tell_of(rt, program, b": standard input can't be read\n"),
        Err(Failure::NotWritten) => tell_of(rt, program, b": standard output can't be written\n"),
    }
}

fn tell_of(rt: &impl Streams, program: &[u8], what: &[u8]) {
    tell(rt, program);
    tell(rt, what);
}

// Tells a failure. If that can't be written either, there is nobody left to tell.
pub fn tell(rt: &impl Streams, what: &[u8]) {
    let _ = rt.errors().write_all(what);
}
