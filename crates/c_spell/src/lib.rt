// Texts spelt and read back, in numbers: what a caller in another language is told.
#![tactic(auto)]

ghost use Rattle.std.specs.Prelude.{◌≡◌};
ghost use Rattle.paper_spell.specs.Spell.{spelling_text, reading_spelt};
ghost use Rattle.c_spell.specs.SpellNumbers.{telling_spell};

use base_answers::Numbers;
use c_tell::tell;

// A text spelt in Code 39 values: the number; count and place (which are 0) and written length go into the first three elements of `told`, as many
// as there is room for.
pub fn text(text: &[u8], out: &mut [u8], told: &mut [u64]) -> u32
    ensures number { result ≡ (spelling_text text.now out.old).number }
    ensures told { told.new ≡ telling_spell told.old (spelling_text text.now out.old) }
    ensures out { out.new ≡ (spelling_text text.now out.old).out }
{
    let spelt = spell_text::spell(text, out);
    let numbers = Numbers::from(spelt);
    tell(told, 0, 0, numbers.written);
    numbers.number as u32
}

// A spelt text read back, told alike.
pub fn spelt(spelt: &[u8], out: &mut [u8], told: &mut [u64]) -> u32
    ensures number { result ≡ (reading_spelt spelt.now out.old).number }
    ensures told { told.new ≡ telling_spell told.old (reading_spelt spelt.now out.old) }
    ensures out { out.new ≡ (reading_spelt spelt.now out.old).out }
{
    let read = spell_back::read_spelt(spelt, out);
    let answer = Numbers::from(read);
    tell(told, 0, 0, answer.written);
    answer.number as u32
}
