// Spelt texts of Full ASCII read back (request K10).
#![tactic(auto)]

ghost use Rattle.std.specs.Prelude.{◌≡◌};
ghost use Rattle.paper_spell.specs.FullAscii.{read_back};
ghost use Rattle.paper_spell.specs.Spell.{reading_spelt, ReadPromised};
ghost use Rattle.spell_text.specs.SpeltNumbers.{told_spelt};
ghost use Rattle.spell_back.specs.BackPut.{Steps, Puts};

use base_put::put;
use spell_table::{character, is_shift};
use spell_text::SpellError;

// How far a text is read back: the shift sign that waits for its value, if one does, and the place behind what was put.
#[derive(Clone, Copy)]
pub struct Step {
    pub shift: Option<u8>,
    pub end: usize,
}

// Reads a spelt text back: from the front, a value alone, or a shift sign and the value behind it. How many characters stand in front of the buffer.
pub fn read_spelt(spelt: &[u8], out: &mut [u8]) -> Result<usize, SpellError>
    ensures whole { told_spelt result out.new ≡ reading_spelt spelt.now out.old }
    ensures promised { ReadPromised spelt.now out.old (told_spelt result out.new) }
{
    let Some(bytes) = put_back(&mut out[0..0], spelt) else {
        return Err(SpellError::NotInTable);
    };
    if out.len() < bytes {
        return Err(SpellError::TooShort);
    }
    put_back(out, spelt);
    Ok(bytes)
}

// The whole text, as far as there is room, and how many characters it has; nothing if the table doesn't give it.
fn put_back(out: &mut [u8], spelt: &[u8]) -> Option<usize>
    ensures { Puts out.old out.new result (read_back spelt.now) }
{
    let mut step = Step {
        shift: None,
        end: 0,
    };
    for &v in spelt {
        step = put_value(out, step, v)?;
    }
    match step.shift {
        None => Some(step.end),
        Some(_) => None,
    }
}

// One value more: a shift sign waits for the value behind it, and a value makes a character with the shift sign before it.
fn put_value(out: &mut [u8], before: Step, v: u8) -> Option<Step>
    ensures { Steps out.old out.new before v result }
{
    if before.shift.is_none() && is_shift(v) {
        return Some(Step {
            shift: Some(v),
            end: before.end,
        });
    }
    match character(before.shift, v) {
        None => None,
        Some(c) => {
            let end = put(out, before.end, c);
            Some(Step { shift: None, end })
        }
    }
}
