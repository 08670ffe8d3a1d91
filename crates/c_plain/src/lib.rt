// The small engine for plain rules, in numbers: what a caller in another language is told.
#![tactic(auto)]

ghost use Rattle.std.specs.Prelude.{◌≡◌};
ghost use Rattle.paper_plain.specs.Engine.{engine, needs};
ghost use Rattle.c_plain.specs.EngineTelling.{telling_plain, telling_numbers, telling_needs};

use base_answers::Numbers;
use c_tell::{put, tell};

// Can the two rules of the sheet make the same label? The number; count (which is 0) and place go into the first two elements of `told`, as many as
// there is room for.
pub fn sheet(sheet: &[u8], bits: &mut [u8], told: &mut [u64]) -> u32
    ensures number { result ≡ (engine sheet.now bits.old).number }
    ensures told { told.new ≡ telling_plain told.old (engine sheet.now bits.old) }
    ensures bits { bits.new ≡ (engine sheet.now bits.old).bits }
{
    let answer = plain_sheet::plain(sheet, bits);
    let numbers = plain_sheet::in_numbers(answer);
    tell_two(told, numbers);
    numbers.number as u32
}

// Count and place.
fn tell_two(told: &mut [u64], numbers: Numbers)
    ensures { told.new ≡ telling_numbers told.old numbers }
{
    put(told, 0, numbers.count);
    put(told, 1, numbers.place);
}

// How many bytes must be lent for the sheet's bits? The number; count (which is 0), place and the bytes go into the first three elements of `told`, as
// many as there is room for.
pub fn bytes(sheet: &[u8], told: &mut [u64]) -> u32
    ensures number { result ≡ (needs sheet.now).number }
    ensures told { told.new ≡ telling_needs told.old (needs sheet.now) }
{
    let needed = plain_sheet::bytes_needed(sheet);
    let numbers = Numbers::from(needed);
    tell(told, 0, numbers.place, numbers.written);
    numbers.number as u32
}
