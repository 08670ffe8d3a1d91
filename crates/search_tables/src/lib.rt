// The tables of the fields in the form in which the search holds them: for each field its masks, by its number. And the tables over some of the
// characters alone.
#![tactic(auto)]

ghost use Rattle.std.specs.Prelude.{◌≡◌, ◌∷◌, [], ◌++◌, map};
ghost use Rattle.search_tables.specs.Cut.{cut_row, cut_coded};
ghost use Rattle.search_tables.specs.Tables.{follow_of, taking_of, last_of};

use base_codes::{FIELDS, SHEET_FIELDS};
use base_places::{CHARACTERS, PLACES, PlaceSet, PlaceTables, within};

// Of each field's tables a part: of a sheet's fields and, behind them, twice of the hidden ones, which are alike.
// Kept: (a) fixed memory: a loop in each function, and by index: as one function of all, by a closure, and as a loop over what is lent, `search` of
// search_question takes 1 to 11 KB more of the stack.

// "For every field and every place, the set of places that may follow".
pub fn follow_behind(
    own: [PlaceTables; SHEET_FIELDS],
    hidden: PlaceTables,
) -> [[PlaceSet; PLACES]; FIELDS]
    ensures { result ≡ map follow_of (own ++ (hidden ∷ hidden ∷ [])) }
{
    let behind = hidden.follow;
    let mut parts = [behind; FIELDS];
    for f in 0..SHEET_FIELDS {
        let tables = own[f];
        let its = tables.follow;
        parts[f] = its;
    }
    parts
}

// For every field the set of places that may be the last one of a text.
pub fn last_behind(own: [PlaceTables; SHEET_FIELDS], hidden: PlaceTables) -> [PlaceSet; FIELDS]
    ensures { result ≡ map last_of (own ++ (hidden ∷ hidden ∷ [])) }
{
    let behind = hidden.last;
    let mut parts = [behind; FIELDS];
    for f in 0..SHEET_FIELDS {
        let tables = own[f];
        let its = tables.last;
        parts[f] = its;
    }
    parts
}

// For every field and every character the set of places that take it.
pub fn taking_behind(
    own: [PlaceTables; SHEET_FIELDS],
    hidden: PlaceTables,
) -> [[PlaceSet; CHARACTERS]; FIELDS]
    ensures { result ≡ map taking_of (own ++ (hidden ∷ hidden ∷ [])) }
{
    let behind = hidden.taking;
    let mut parts = [behind; FIELDS];
    for f in 0..SHEET_FIELDS {
        let tables = own[f];
        let its = tables.taking;
        parts[f] = its;
    }
    parts
}

// What a field's places take of those among the first so many characters.
fn cut(
    among: &[bool; CHARACTERS],
    row: &[PlaceSet; CHARACTERS],
    characters: usize,
) -> [PlaceSet; CHARACTERS]
    ensures { result ≡ cut_row characters among.now row.now }
{
    let mut masks = [0; CHARACTERS];
    for c in 0..within(characters) {
        if among[c] {
            masks[c] = row[c];
        }
    }
    masks
}

// "tables in which no place takes another character", of an alphabet of so many characters
pub fn taking_among(
    own: [PlaceTables; SHEET_FIELDS],
    hidden: PlaceTables,
    among: [bool; CHARACTERS],
    characters: usize,
) -> [[PlaceSet; CHARACTERS]; FIELDS]
    ensures { result ≡ cut_coded characters (map taking_of (own ++ (hidden ∷ hidden ∷ []))) among }
{
    let behind = cut(&among, &hidden.taking, characters);
    let mut parts = [behind; FIELDS];
    for f in 0..SHEET_FIELDS {
        let tables = own[f];
        let row = tables.taking;
        let masks = cut(&among, &row, characters);
        parts[f] = masks;
    }
    parts
}
