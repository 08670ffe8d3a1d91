// The player's answer in numbers: what a caller in another language is told.
#![tactic(auto)]

ghost use Rattle.std.specs.Prelude.{◌≡◌};
ghost use Rattle.paper_steps.specs.Player.{play};
ghost use Rattle.c_play.specs.PlayTold.{telling_played};

use base_answers::Numbers;
use c_tell::tell;

// Plays the records of steps on the sheet: the number; count (which is 0), place and written length go into the first three elements of `told`, as
// many as there is room for.
pub fn sheet(sheet: &[u8], steps: &[u8], answer: &mut [u8], told: &mut [u64]) -> u32
    ensures number { result ≡ (play sheet.now steps.now answer.old).number }
    ensures told { told.new ≡ telling_played told.old (play sheet.now steps.now answer.old) }
    ensures answer { answer.new ≡ (play sheet.now steps.now answer.old).answer }
{
    let played = play_sheet::play(sheet, steps, answer);
    let numbers = Numbers::from(played);
    tell(told, numbers.count, numbers.place, numbers.written);
    numbers.number as u32
}
