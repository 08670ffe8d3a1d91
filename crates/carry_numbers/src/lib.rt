// The answers of the room carry in numbers: to a sheet or a rule that was written anew, to a catalogue carried over, to one whose strays were taken out.
#![tactic(auto)]

ghost use Rattle.std.specs.Prelude.{◌≡◌};
ghost use Rattle.carry_anew.specs.Anew.{spelt_numbers};
ghost use Rattle.carry_open.specs.CarriedOver.{carried_number};
ghost use Rattle.carry_strays.specs.StraysDropped.{dropped_number};

use base_answers::{CATALOGUE_FULL, FOREIGN_FIELD, NO_CATALOGUE, Numbers, SHEET_TOO_SHORT};
use carry_anew::RewriteError;
use carry_open::CarryError;
use carry_strays::NoCatalogue;

// Kept: (d) an impl of `From` needs a type of its own crate, and neither these results nor the numbers are of this one.
// Of a sheet or a rule.
pub fn in_numbers(s: Result<usize, RewriteError>) -> Numbers
    ensures { result ≡ spelt_numbers s }
{
    match s {
        Ok(bytes) => Numbers::of_written(bytes),
        Err(RewriteError::Refused(refusal)) => Numbers::from(refusal),
        Err(RewriteError::ForeignField) => Numbers::of_number(FOREIGN_FIELD),
        Err(RewriteError::TooShort) => Numbers::of_number(SHEET_TOO_SHORT),
    }
}

// Of a catalogue that was carried over.
pub fn carried(c: Result<(), CarryError>) -> usize
    ensures { result ≡ carried_number c }
{
    match c {
        Ok(()) => 0,
        Err(CarryError::Full) => CATALOGUE_FULL,
        Err(CarryError::NoCatalogue) => NO_CATALOGUE,
    }
}

// Of a catalogue whose strays were taken out.
pub fn dropped(d: Result<(), NoCatalogue>) -> usize
    ensures { result ≡ dropped_number d }
{
    if d.is_ok() { 0 } else { NO_CATALOGUE }
}
