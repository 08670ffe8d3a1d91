// Deciding in numbers: what a caller in another language is told.
#![tactic(auto)]

ghost use Rattle.std.specs.Prelude.{◌≡◌};
ghost use Rattle.paper_decide.specs.Deciding.{decision};
ghost use Rattle.c_decide.specs.Decided.{telling_decided};

use base_answers::Numbers;
use c_tell::{put, tell};

// Can the two rules of the sheet make the same label? The number; count, place, written length and the number of the attempt that decided go into
// the first four elements of `told`, as many as there is room for.
pub fn sheet(sheet: &[u8], work: &mut [u8], answer: &mut [u8], told: &mut [u64]) -> u32
    ensures number { result ≡ (decision sheet.now work.old answer.old).outcome.number }
    ensures told { told.new ≡ telling_decided told.old (decision sheet.now work.old answer.old) }
    ensures answer { answer.new ≡ (decision sheet.now work.old answer.old).outcome.answer }
    ensures work { work.new ≡ (decision sheet.now work.old answer.old).outcome.work }
{
    let made = decide_sheet::decide(sheet, work, answer);
    let numbers = Numbers::from(made.answer);
    tell(told, numbers.count, numbers.place, numbers.written);
    put(told, 3, made.search as usize);
    numbers.number as u32
}
