// Inner codes: how tokens, sides, steps and situations stand in the library, whatever bytes a sheet has for them. A character is its
// value, a field its number behind 192, and 255 is no token: a side ends at its first 255.
#![tactic(auto)]

ghost use Rattle.std.specs.Prelude.{◌≡◌, ◌≤◌, length, take};
ghost use Rattle.paper.specs.Lists.{member};
ghost use Rattle.paper.specs.Numbers.{longest_side};
ghost use Rattle.base_codes.specs.Inner.{field_of, tokens};

use base_places::PlaceSet;

// the token of field 0
pub const FIELD_CODE: u8 = 192;

// no token: behind the last one of a side
pub const NO_TOKEN: u8 = 255;

// the steps that are no character
pub const LEFT_STRUCK: u8 = 254;

pub const RIGHT_STRUCK: u8 = 255;

// "a side above 48 tokens gives 19"
pub const LONGEST_SIDE: usize = 48;

// A side by inner codes: it ends at its first 255.
pub type CodedSide = [u8; LONGEST_SIDE];

// "field byte 0 to 7": how many fields a sheet may name, and so an answer may have
pub const SHEET_FIELDS: usize = 8;

// how many fields a situation has place sets for: those, and the two hidden ones
pub const FIELDS: usize = SHEET_FIELDS + 2;

// "one hidden field .. at its end: field 8 on the left and 9 on the right"
pub const HIDDEN_LEFT: u8 = FIELD_CODE + 8;

pub const HIDDEN_RIGHT: u8 = FIELD_CODE + 9;

// The number of the field with the token b; 0 of one that is no field's.
pub fn field_of(b: u8) -> usize
    ensures { result ≡ field_of b }
{
    if b < FIELD_CODE {
        return 0;
    }
    (b - FIELD_CODE) as usize
}

// How many tokens a side has.
pub fn length_of(side: CodedSide) -> usize
    ensures { (result ≤ longest_side) × (result ≡ length (tokens side)) × (take result side ≡ tokens side) }
{
    side.iter()
        .position(|&b| b == NO_TOKEN)
        .unwrap_or(LONGEST_SIDE)
}

// The tokens of a side: its bytes before the first 255.
pub fn tokens_of(side: &CodedSide) -> &[u8]
    ensures { result.now ≡ tokens side.now }
{
    &side[..length_of(*side)]
}

// Does the token stand among these?
pub fn stands(side: &[u8], token: u8) -> bool
    ensures { result ≡ member token side.now }
{
    side.contains(&token)
}

// "A situation is the two token lists and the place set of each field still standing in them." A side ends at its first 255; the set of a
// field that is gone is 0.
#[derive(Clone, Copy)]
pub struct Situation {
    pub left: CodedSide,
    pub right: CodedSide,
    pub sets: [PlaceSet; FIELDS],
}
