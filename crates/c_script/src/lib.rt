// The script of a sheet in numbers: what a caller in another language is told.
#![tactic(auto)]

ghost use Rattle.std.specs.Prelude.{◌≡◌};
ghost use Rattle.paper_script.specs.Scripting.{scripting};
ghost use Rattle.c_script.specs.Scripted.{telling_scripted};

use base_answers::Numbers;
use c_tell::tell;

// The sheet written out as a script for string solvers: the number; count (which is 0), place and written length go into the first three elements of
// `told`, as many as there is room for.
pub fn sheet(sheet: &[u8], script: &mut [u8], told: &mut [u64]) -> u32
    ensures number { result ≡ (scripting sheet.now script.old).number }
    ensures told { told.new ≡ telling_scripted told.old (scripting sheet.now script.old) }
    ensures script { script.new ≡ (scripting sheet.now script.old).script }
{
    let scripted = script_sheet::script(sheet, script);
    let numbers = Numbers::from(scripted);
    tell(told, 0, numbers.place, numbers.written);
    numbers.number as u32
}
