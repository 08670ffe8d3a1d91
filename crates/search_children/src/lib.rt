// The three kinds of child of a situation, and the tables of the fields that they go by. Every function is total: each struct holds a situation,
// whatever its bytes.
#![tactic(auto)]

mod children;
mod sides;

use base_codes::{FIELDS, Situation};
use base_places::{CHARACTERS, PLACES, PlaceSet};
pub use children::{put, strike_left, strike_right};

// What becomes of a child: dropped where it is dead or its move not allowed, a side above 48 tokens, or made.
#[derive(Clone, Copy)]
pub enum Child {
    Dropped,
    Above,
    Made(Situation),
}

// What is worked out once of a question, lent: how many characters there are, and for each field its sets of followers, those that take a character, and
// its last places.
#[derive(Clone, Copy)]
pub struct Tables<'a> {
    pub characters: usize,
    pub follow: &'a [[PlaceSet; PLACES]; FIELDS],
    pub taking: &'a [[PlaceSet; CHARACTERS]; FIELDS],
    pub last: [PlaceSet; FIELDS],
}
