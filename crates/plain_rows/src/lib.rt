// The rows of the tokens in front (request K9): what is worked out of each field, the hidden ones last, then a row for every character and one for a
// side's end. A character is read as a field with one leaf would be.
#![tactic(auto)]

ghost use Rattle.std.specs.Prelude.{◌≡◌, ◌∷◌, [], ◌++◌, map, drop};
ghost use Rattle.std.specs.Fn.{FnReturnsAt};
ghost use Rattle.paper.specs.Numbers.{fields};
ghost use Rattle.base_places.specs.declared.PlaceTables.{PlaceTables};
ghost use Rattle.search_tables.specs.Tables.{follow_of, last_of};
ghost use Rattle.plain_rows.specs.Rows.{rows_of, token_of};

use base_codes::{FIELD_CODE, FIELDS, SHEET_FIELDS, field_of};
use base_places::{PLACES, PlaceSet, PlaceTables};

// The rows of the hidden fields, the row of every character, the row of a side's end, and how many rows there are.
const LEFT_ROW: usize = SHEET_FIELDS;

const RIGHT_ROW: usize = SHEET_FIELDS + 1;

pub const CHARACTER_ROW: usize = FIELDS;

pub const END_ROW: usize = FIELDS + 1;

pub const ROWS: usize = FIELDS + 2;

// The place behind the start of a character.
pub const BEHIND_START: PlaceSet = 2;

// A part of what is worked out of each of the sheet's own fields goes into the field's row. The other rows stay.
pub fn lay<T: Copy, F: Fn(&PlaceTables) -> T>(
    rows: &mut [T; ROWS],
    own: &[PlaceTables; SHEET_FIELDS],
    part: F,
)
    requires { F.IsAlwaysCallable part }
    ensures { (of : PlaceTables → T) → ((t : PlaceTables) (x : T) → FnReturnsAt F.Fn part t x → x ≡ of t) → rows.new ≡ map of own.now ++ drop fields rows.old }
{
    for (f, tables) in own.iter().enumerate() {
        rows[f] = part(tables);
    }
}

// For every row and every place the places that may follow.
pub fn follow_rows(
    own: [PlaceTables; SHEET_FIELDS],
    hidden: PlaceTables,
) -> [[PlaceSet; PLACES]; ROWS]
    ensures { result ≡ map follow_of (rows_of (own ++ (hidden ∷ hidden ∷ []))) }
{
    let spaces = hidden.follow;
    let mut rows = [[0; PLACES]; ROWS];
    rows[LEFT_ROW] = spaces;
    rows[RIGHT_ROW] = spaces;
    rows[CHARACTER_ROW][0] = BEHIND_START;
    lay(
        &mut rows,
        &own,
        |tables|
            ensures { result ≡ follow_of tables.now }
        { tables.follow },
    );
    rows
}

// For every row the places that may be the last one.
pub fn last_rows(own: [PlaceTables; SHEET_FIELDS], hidden: PlaceTables) -> [PlaceSet; ROWS]
    ensures { result ≡ map last_of (rows_of (own ++ (hidden ∷ hidden ∷ []))) }
{
    let mut rows = [0; ROWS];
    rows[LEFT_ROW] = hidden.last;
    rows[RIGHT_ROW] = hidden.last;
    rows[CHARACTER_ROW] = BEHIND_START;
    lay(&mut rows, &own, |tables| tables.last);
    rows
}

// A token in front: the number of its row, and the characters that it may read, from lo on to below hi.
#[derive(Clone, Copy)]
pub struct Token {
    pub row: usize,
    pub lo: usize,
    pub hi: usize,
}

// The token with the inner code b, over so many characters; 255, and a field that there is none of, is a side's end.
pub fn token_of(b: u8, characters: usize) -> Token
    ensures { result ≡ token_of characters b }
{
    if b < FIELD_CODE {
        let a = usize::from(b);
        return Token {
            row: CHARACTER_ROW,
            lo: a,
            hi: a + 1,
        };
    }
    let f = field_of(b);
    if f < FIELDS {
        return Token {
            row: f,
            lo: 0,
            hi: characters,
        };
    }
    Token {
        row: END_ROW,
        lo: 0,
        hi: characters,
    }
}
