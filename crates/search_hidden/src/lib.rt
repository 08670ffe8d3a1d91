// The hidden fields: "Each side is to be read as if one hidden field, of any number of spaces, stood at its end: field 8 on the left and 9 on the
// right".
#![tactic(auto)]

ghost use Rattle.std.specs.Prelude.{◌≡◌};
ghost use Rattle.paper.specs.Question.{any_spaces};
ghost use Rattle.base_places.specs.Masks.{taking_masks};
ghost use Rattle.base_places.specs.WorkedOut.{worked_out};
ghost use Rattle.search_hidden.specs.Behind.{side_with};

use base_codes::{CodedSide, LONGEST_SIDE, NO_TOKEN, length_of};
use base_places::{CHARACTERS, PLACES, PlaceSet, PlaceTables};

// The side with this token behind its last one, if there is room for it.
pub fn side(side: CodedSide, token: u8) -> CodedSide
    ensures { result ≡ side_with token side }
{
    let n = length_of(side);
    let mut bytes = [NO_TOKEN; LONGEST_SIDE];
    bytes[..n].copy_from_slice(&side[..n]);
    if n < LONGEST_SIDE {
        bytes[n] = token;
    }
    bytes
}

// The one leaf of "any number of spaces", and the start with it.
const LEAF: PlaceSet = 2;

const START_AND_LEAF: PlaceSet = 3;

// For each character the places of "any number of spaces" that take it: the leaf takes the space alone. Where the space is none that a table has room
// for, no place takes any.
fn taking_space(space: usize) -> [PlaceSet; CHARACTERS]
    ensures { result ≡ taking_masks (any_spaces space) }
{
    let mut taking = [0; CHARACTERS];
    if space < CHARACTERS {
        taking[space] = LEAF;
    }
    taking
}

// What is worked out of "any number of spaces": one leaf, which follows the start and itself and takes the space alone. Either may be the last.
pub fn spaces(space: usize) -> PlaceTables
    ensures { result ≡ worked_out (any_spaces space) }
{
    let mut follow = [0; PLACES];
    follow[0] = LEAF;
    follow[1] = LEAF;
    let taking = taking_space(space);
    PlaceTables {
        follow,
        taking,
        last: START_AND_LEAF,
    }
}
