// The fronts of a situation: what is worked out once of a token in front, and which characters both fronts take.
#![tactic(auto)]

ghost use Rattle.std.specs.Prelude.{◌&&◌, List, [], ◌≡◌, ℕ, ◌<◌, get_or};
ghost use Rattle.paper.specs.Numbers.{set_fields};
ghost use Rattle.base_places.specs.Masks.{followers_of};
ghost use Rattle.base_codes.specs.Inner.{field_of};
ghost use Rattle.search_fronts.specs.Fronts.{row_number, front_from, with_row, takes_next};

use base_codes::{FIELD_CODE, FIELDS, NO_TOKEN, field_of};
use base_places::{PLACES, PlaceSet};

// A token in front with what is worked out once of it for all characters: the places that may follow those of its field's set, and the number of
// the row, of a table with one for each field, that has what each character lets through.
#[derive(Clone, Copy)]
pub struct FrontToken {
    pub token: u8,
    pub followers: PlaceSet,
    pub row: usize,
}

// The places that may follow those of the set of the field with the token b.
fn gather(sets: [PlaceSet; FIELDS], b: u8, follow: &[[PlaceSet; PLACES]; FIELDS]) -> PlaceSet
    ensures { result ≡ followers_of (get_or follow.now (field_of b) []) (get_or sets (field_of b) 0) }
{
    let f = field_of(b);
    if f < FIELDS {
        base_places::followers(&follow[f], sets[f])
    } else {
        0
    }
}

// The number of the row of the field with the token b.
#[tactic(auto, unfolding(crate::specs::Fronts::row_number))]
fn row(b: u8) -> usize
    ensures { result ≡ row_number b }
{
    let f = field_of(b);
    if f < FIELDS { f } else { 0 }
}

// What is worked out once of a token in front.
pub fn front_with(
    token: u8,
    sets: [PlaceSet; FIELDS],
    follow: &[[PlaceSet; PLACES]; FIELDS],
) -> FrontToken
    ensures { (result.row < set_fields) × ((taking : List (List ℕ)) → with_row taking result ≡ front_from follow.now taking sets token) }
{
    let followers = gather(sets, token, follow);
    let row = row(token);
    FrontToken {
        token,
        followers,
        row,
    }
}

// "a character in front must be c, and each front field's set after c must not be empty"
#[tactic(auto, unfolding(crate::specs::Fronts::takes_next))]
fn takes(b: u8, next: PlaceSet, c: u8) -> bool
    ensures { result ≡ takes_next b next c }
{
    if (FIELD_CODE..NO_TOKEN).contains(&b) {
        next != 0
    } else {
        b == c
    }
}

// Do both tokens in front take c, where the sets of their fields after c are m and n?
pub fn both_take(a: u8, m: PlaceSet, b: u8, n: PlaceSet, c: u8) -> bool
    ensures { result ≡ (takes_next a m c && takes_next b n c) }
{
    takes(a, m, c) && takes(b, n, c)
}
