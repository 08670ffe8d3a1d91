// How many bits a question needs (request K9): one "for each pair of a left and a right standing", if no field stands more than once.
#![tactic(auto)]

ghost use Rattle.std.specs.Prelude.{◌≡◌, ◌≤◌};
ghost use Rattle.paper.specs.Numbers.{most_characters};
ghost use Rattle.base_places.specs.Masks.{within};
ghost use Rattle.base_codes.specs.Inner.{tokens};
ghost use Rattle.plain_count.specs.StandingsCoded.{twice_coded, places_in, places_by, all_places, token_adds, standings_coded, bits_coded};

use base_codes::{CodedSide, FIELD_CODE, NO_TOKEN, SHEET_FIELDS, field_of};
use base_places::{CHARACTERS, PlaceSet, within};
use base_question::Question;

// "two for a field without a pattern"
const OPEN: u8 = 2;

// What a side has besides its own tokens: its end, and the two places of its hidden field.
const END_AND_HIDDEN: usize = 3;

// Does "a field stand more than once in the two sides together"?
pub fn stands_twice(left: CodedSide, right: CodedSide) -> bool
    ensures { result ≡ twice_coded left right }
{
    let counts = base_question::standings(left, right);
    counts.iter().any(|&n| 1 < n)
}

// "the product of the two numbers of standings", the hidden fields' among them.
pub fn bits_of(question: Question) -> usize
    ensures { (result ≡ bits_coded question) × (result ≤ 400000000) }
{
    let left = question.left;
    let right = question.right;
    let places = places_of(question);
    standings(left, places) * standings(right, places)
}

// How many places each field has, by the characters of the question's alphabet.
fn places_of(question: Question) -> [u8; SHEET_FIELDS]
    ensures { result ≡ all_places (within question.alphabet.characters) question.fields }
{
    let alphabet = question.alphabet;
    let n = within(alphabet.characters);
    let mut places = [0u8; SHEET_FIELDS];
    for (f, tables) in question.fields.iter().enumerate() {
        places[f] = places_by(&tables.taking, n);
    }
    places
}

// How many places a field has, by the places that take each of n characters.
fn places_by(taking: &[PlaceSet; CHARACTERS], n: usize) -> u8
    requires { n ≤ most_characters }
    ensures { result ≡ places_by n taking.now }
{
    let mut taken = 0;
    for &its in &taking[..n] {
        taken |= its;
    }
    places_in(taken)
}

// How many places a field has, by those that take some character: "its leaves and the start". Of a field without a pattern the start does too.
fn places_in(taken: PlaceSet) -> u8
    ensures { result ≡ places_in taken }
{
    if taken % 2 == 1 {
        return OPEN;
    }
    1 + u64::trailing_zeros(taken / 2 + 1) as u8
}

// How many standings a side has, its hidden field's among them.
fn standings(side: CodedSide, places: [u8; SHEET_FIELDS]) -> usize
    ensures { (result ≡ standings_coded places (tokens side)) × (result ≤ 20000) }
{
    let mut n = END_AND_HIDDEN;
    for b in side {
        if b == NO_TOKEN {
            return n;
        }
        n += adds(places, b);
    }
    n
}

// How many standings a token adds.
fn adds(places: [u8; SHEET_FIELDS], b: u8) -> usize
    ensures { (result ≡ token_adds places b) × (result ≤ 255) }
{
    if b < FIELD_CODE {
        return 1;
    }
    let f = field_of(b);
    if f < SHEET_FIELDS {
        return usize::from(places[f]);
    }
    0
}
