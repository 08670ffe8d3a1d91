// The table of Full ASCII (request K10): "128 characters and their one or two Code 39 values".
#![tactic(auto)]

mod table;

ghost use Rattle.std.specs.Prelude.{◌≡◌, get_or};
ghost use Rattle.paper_spell.specs.FullAscii.{table, shift_of, value_of, spelt_by, is_shift as is-shift-of, character as character-of};
ghost use Rattle.base_put.specs.Counted.{Counted};
ghost use Rattle.spell_table.specs.Entries.{shift_sign, shift_number, found};

use base_put::put;
use table::TABLE;

// the characters of Full ASCII
pub const ASCII: u8 = 128;

// stands in the table where a character is its value alone
const NO_SHIFT: u8 = 43;

// the first of the shift signs `$`, `/`, `+` and `%`, which are the last of the 43 values
const FIRST_SHIFT: u8 = 39;

// An entry of the table. Behind it stands 0.
fn entry(at: usize) -> u8
    ensures { result ≡ get_or table at 0 }
{
    if at < TABLE.len() { TABLE[at] } else { 0 }
}

// The shift sign of a character, if it has one.
pub fn shift(c: u8) -> Option<u8>
    ensures { result ≡ shift_sign (shift_of c) }
{
    let s = entry(2 * (c as usize));
    if s == NO_SHIFT { None } else { Some(s) }
}

// Its value, which stands behind the shift sign.
pub fn value(c: u8) -> u8
    ensures { result ≡ value_of c }
{
    entry(2 * (c as usize) + 1)
}

// Puts the spelling of a character: its value, with the shift sign before it if it has one.
pub fn put_character(out: &mut [u8], at: usize, c: u8) -> usize
    ensures { Counted out.old out.new at result (spelt_by (shift_of c) (value_of c)) }
{
    let behind = match shift(c) {
        Some(s) => put(out, at, s),
        None => at,
    };
    put(out, behind, value(c))
}

// Is the value that of a shift sign?
pub fn is_shift(v: u8) -> bool
    ensures { result ≡ is-shift-of v }
{
    FIRST_SHIFT <= v && v < NO_SHIFT
}

// The character with this shift, or none, and this value, if there is one.
pub fn character(shift: Option<u8>, v: u8) -> Option<u8>
    ensures { result ≡ found (character-of (shift_number shift) v) }
{
    let s = shift.unwrap_or(NO_SHIFT);
    for c in 0..ASCII {
        if entry(2 * (c as usize)) == s && value(c) == v {
            return Some(c);
        }
    }
    None
}
