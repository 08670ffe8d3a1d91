// The question: its alphabet, both sides, what is worked out of each field's pattern, and where that pattern stands.
#![tactic(auto)]

ghost use Rattle.std.specs.Prelude.{◌≡◌, not, ◌++◌, ◌≤◌, eqb};
ghost use Rattle.paper.specs.Numbers.{longest_side};
ghost use Rattle.base_codes.specs.Inner.{tokens};
ghost use Rattle.base_question.specs.Bodies.{no_bodies, mark_of};
ghost use Rattle.base_question.specs.Asked.{no_question};
ghost use Rattle.base_question.specs.Standings.{count, standing_times};
ghost use Rattle.base_question.specs.StraysCoded.{first_of, strays_coded};

use base_codes::{CodedSide, FIELD_CODE, FIELDS, LONGEST_SIDE, NO_TOKEN, SHEET_FIELDS, tokens_of};
use base_editions::{Alphabet, Edition};
use base_places::PlaceTables;

// A pattern's record has so many bytes before the pattern: its mark, the field byte and the length byte.
const HEAD: usize = 4;

// Where a field's pattern stands in the bytes that were read: the offset of its first byte, and how many it has. Both are 0 where there is none.
#[derive(Clone, Copy)]
pub struct Body {
    pub start: usize,
    pub length: usize,
}

// What is asked. A sheet asks it, or a pair of rules, or a question with each standing apart; where the patterns stand in no one sheet there are no
// bodies.
#[derive(Clone, Copy)]
pub struct Question {
    pub alphabet: Alphabet,
    pub left: CodedSide,
    pub right: CodedSide,
    pub fields: [PlaceTables; SHEET_FIELDS],
    pub bodies: [Body; SHEET_FIELDS],
}

// No pattern stands anywhere.
pub fn no_bodies() -> [Body; SHEET_FIELDS]
    ensures { result ≡ no_bodies }
{
    let none = Body {
        start: 0,
        length: 0,
    };
    [none; SHEET_FIELDS]
}

// Where the mark of the pattern's record stands: behind it come the field byte, the length byte and the pattern. 0 where there is none.
pub fn mark_of(body: Body) -> usize
    ensures { result ≡ mark_of body }
{
    body.start.saturating_sub(HEAD)
}

// Nothing is asked: no tokens, and every field is open. The alphabet is Code 39.
pub fn no_question() -> Question
    ensures { result ≡ no_question }
{
    let open = base_places::open_tables();
    let fields = [open; SHEET_FIELDS];
    let bodies = no_bodies();
    let alphabet = base_editions::alphabet_of(Edition::First);
    Question {
        alphabet,
        left: [NO_TOKEN; LONGEST_SIDE],
        right: [NO_TOKEN; LONGEST_SIDE],
        fields,
        bodies,
    }
}

// How often each field stands in the two sides, the hidden fields among them.
pub fn standings(left: CodedSide, right: CodedSide) -> [usize; FIELDS]
    ensures { result ≡ standing_times left right }
{
    let mut counts = [0; FIELDS];
    for f in 0..FIELDS {
        let token = FIELD_CODE + f as u8;
        counts[f] = times(&left, token) + times(&right, token);
    }
    counts
}

// The first field with a pattern that stands in neither side. Only fields with a pattern are looked up.
pub fn first_stray(bodies: [Body; SHEET_FIELDS], left: CodedSide, right: CodedSide) -> Option<usize>
    ensures { result ≡ first_of (strays_coded bodies left right) }
{
    for f in 0..SHEET_FIELDS {
        if bodies[f].length > 0 && in_neither(&left, &right, FIELD_CODE + f as u8) {
            return Some(f);
        }
    }
    None
}

// Is no token of either side this one?
fn in_neither(left: &CodedSide, right: &CodedSide, token: u8) -> bool
    ensures { result ≡ eqb (count token (tokens left.now ++ tokens right.now)) 0 }
{
    !in_side(left, token) && !in_side(right, token)
}

// Is a token of the side this one? The first that is ends the walk.
fn in_side(side: &CodedSide, token: u8) -> bool
    ensures { result ≡ not (eqb (count token (tokens side.now)) 0) }
{
    tokens_of(side).contains(&token)
}

// How many tokens of a side are this one.
fn times(side: &CodedSide, token: u8) -> usize
    ensures few { result ≤ longest_side }
    ensures times { result ≡ count token (tokens side.now) }
{
    tokens_of(side).iter().filter(|&&b| b == token).count()
}
