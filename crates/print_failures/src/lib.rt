// What the programs tell on standard error where a sheet or a rule is at fault.
#![tactic(auto)]

use base_answers::{Fault, Refusal};
use print_out::{Streams, tell};

// A line with the program's name, the fault's number, its words and its place.
pub fn refuse(rt: &impl Streams, program: &[u8], refusal: Refusal) {
    let number = refusal.fault.number();
    let words = words(refusal.fault);
    let place = refusal.place;
    tell(rt, program);
    let _ = println!(rt.errors(); ": {number}: {words}, at offset {place}");
}

// The words of `bradovusc_text`.
fn words(fault: Fault) -> &'static str {
    match fault {
        Fault::CutShort => "cut short",
        Fault::WrongMark => "a wrong mark, or bytes behind the last side",
        Fault::WrongField => "a wrong field number",
        Fault::WrongLength => "a wrong length",
        Fault::NotOnePattern => "not one pattern",
        Fault::TooManyLeaves => "a pattern with too many leaves",
        Fault::WrongToken => "a wrong token",
        Fault::WrongEdition => "a wrong edition",
        Fault::StrayPattern => "a stray pattern",
    }
}
