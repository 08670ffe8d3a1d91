// The answer to a sheet in numbers: what a caller in another language is told.
#![tactic(auto)]

ghost use Rattle.std.specs.Prelude.{◌≡◌};
ghost use Rattle.paper.specs.Outcome.{outcome};
ghost use Rattle.c_clash.specs.Asking.{telling};

use base_answers::Numbers;
use c_tell::tell;

// Can the two rules of the sheet make the same label? The number; count, place and written length go into the first three elements of `told`, as
// many as there is room for.
pub fn sheet(sheet: &[u8], work: &mut [u8], answer: &mut [u8], told: &mut [u64]) -> u32
    ensures number { result ≡ (outcome sheet.now work.old answer.old).number }
    ensures told { told.new ≡ telling told.old (outcome sheet.now work.old answer.old) }
    ensures answer { answer.new ≡ (outcome sheet.now work.old answer.old).answer }
    ensures work { work.new ≡ (outcome sheet.now work.old answer.old).work }
{
    let given = search_clash::clash(sheet, work, answer);
    let numbers = Numbers::from(given);
    tell(told, numbers.count, numbers.place, numbers.written);
    numbers.number as u32
}
