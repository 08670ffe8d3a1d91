// Texts of Full ASCII spelt in values of Code 39 (request K10).
#![tactic(auto)]

ghost use Rattle.std.specs.Prelude.{◌≡◌};
ghost use Rattle.paper_spell.specs.FullAscii.{is_text as is-text-of, spelt};
ghost use Rattle.paper_spell.specs.Spell.{spelling_text, SpellPromised};
ghost use Rattle.base_put.specs.Counted.{Counted};
ghost use Rattle.spell_text.specs.SpeltNumbers.{error_numbers, told_spelt, shifts_in};

use base_answers::{NOT_IN_TABLE, Numbers, SPELT_TOO_SHORT};
use spell_table::{ASCII, put_character, shift};

// Why a text is not spelt, or a spelt text not read back.
#[derive(Clone, Copy, PartialEq, Eq)]
pub enum SpellError {
    // 45: a byte that is no character, or a spelt text that the table doesn't give
    NotInTable,
    // 46: the output buffer is too short
    TooShort,
}

// An error in numbers.
impl From<SpellError> for Numbers {
    ghost from_gives = { λ e n. n ≡ error_numbers e };

    fn from(e: SpellError) -> Numbers
        ensures { result ≡ error_numbers e }
    {
        Numbers::of_number(match e {
            SpellError::NotInTable => NOT_IN_TABLE,
            SpellError::TooShort => SPELT_TOO_SHORT,
        })
    }
}

// Spells a text: each character as its one or two values. How many bytes of them stand in front of the buffer.
pub fn spell(text: &[u8], out: &mut [u8]) -> Result<usize, SpellError>
    ensures whole { told_spelt result out.new ≡ spelling_text text.now out.old }
    ensures promised { SpellPromised text.now out.old (told_spelt result out.new) }
{
    if !is_text(text) {
        return Err(SpellError::NotInTable);
    }
    let room = out.len();
    if room < text.len() {
        return Err(SpellError::TooShort);
    }
    if room - text.len() < shifts(text) {
        return Err(SpellError::TooShort);
    }
    Ok(put_text(out, text))
}

// Is every byte a character?
fn is_text(text: &[u8]) -> bool
    ensures { result ≡ is-text-of text.now }
{
    text.iter().all(|&c| c < ASCII)
}

// How many of the characters have a shift sign.
fn shifts(text: &[u8]) -> usize
    ensures { result ≡ shifts_in text.now }
{
    text.iter().filter(|&&c| shift(c).is_some()).count()
}

// The spelling of the whole text, and how long it is.
fn put_text(out: &mut [u8], text: &[u8]) -> usize
    ensures { Counted out.old out.new 0 result (spelt text.now) }
{
    let mut end = 0;
    for &c in text {
        end = put_character(out, end, c);
    }
    end
}
