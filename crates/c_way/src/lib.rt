// The answer about given texts in numbers: what a caller in another language is told.
#![tactic(auto)]

ghost use Rattle.std.specs.Prelude.{◌≡◌};
ghost use Rattle.paper_way.specs.WayOutcome.{way};
ghost use Rattle.c_way.specs.WayTold.{telling_way};

use base_answers::Numbers;
use c_tell::tell;

// Writes the steps that spell the texts on the sheet: the number; count (which is 0), place and written length go into the first three elements of `told`,
// as many as there is room for.
pub fn sheet(sheet: &[u8], texts: &[u8], steps: &mut [u8], told: &mut [u64]) -> u32
    ensures number { result ≡ (way sheet.now texts.now steps.old).number }
    ensures told { told.new ≡ telling_way told.old (way sheet.now texts.now steps.old) }
    ensures steps { steps.new ≡ (way sheet.now texts.now steps.old).steps }
{
    let answer = way_sheet::way(sheet, texts, steps);
    let numbers = Numbers::from(answer);
    tell(told, numbers.count, numbers.place, numbers.written);
    numbers.number as u32
}
