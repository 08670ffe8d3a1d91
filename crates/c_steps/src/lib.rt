// The search that writes its way, in numbers: what a caller in another language is told.
#![tactic(auto)]

ghost use Rattle.std.specs.Prelude.{◌≡◌};
ghost use Rattle.paper_steps.specs.StepsOutcome.{steps_outcome};
ghost use Rattle.c_steps.specs.StepsTelling.{telling_steps};

use base_steps::StepsNumbers;
use c_tell::{put, tell};

// Can the two rules of the sheet make the same label, and by which way? The number; count, place, written length and the bytes of steps go into the
// first four elements of `told`, as many as there is room for.
pub fn sheet(
    sheet: &[u8],
    work: &mut [u8],
    answer: &mut [u8],
    steps: &mut [u8],
    told: &mut [u64],
) -> u32
    ensures number { result ≡ (steps_outcome sheet.now work.old answer.old steps.old).number }
    ensures told { told.new ≡ telling_steps told.old (steps_outcome sheet.now work.old answer.old steps.old) }
    ensures answer { answer.new ≡ (steps_outcome sheet.now work.old answer.old steps.old).answer }
    ensures steps { steps.new ≡ (steps_outcome sheet.now work.old answer.old steps.old).steps }
    ensures work { work.new ≡ (steps_outcome sheet.now work.old answer.old steps.old).work }
{
    let given = steps_sheet::steps(sheet, work, answer, steps);
    let numbers = StepsNumbers::from(given);
    tell(told, numbers.count, numbers.place, numbers.written);
    put(told, 3, numbers.steps);
    numbers.number as u32
}
