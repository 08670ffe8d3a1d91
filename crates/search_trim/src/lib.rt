// Trimming: equal characters dropped from both fronts; and the trimmed question.
#![tactic(auto)]

ghost use Rattle.std.specs.Prelude.{◌++◌, ◌≡◌, ◌≤◌, ◌<◌, length, take};
ghost use Rattle.paper.specs.Numbers.{set_fields, longest_side};
ghost use Rattle.base_codes.specs.Inner.{tokens, padded};
ghost use Rattle.base_codes.specs.Coded.{as_struct};
ghost use Rattle.search_trim.specs.Trimming.{alike_in_front, trimmed_of, first_mask, first_masks, question_coded};

use base_codes::{
    CodedSide, FIELD_CODE, FIELDS, LONGEST_SIDE, NO_TOKEN, Situation, length_of, stands,
};
use base_places::PlaceSet;

// Two sides behind their equal characters in front, each in its 48 bytes as far as it has room, and how many tokens each has.
// Kept: (d) a length beside its bytes, since it tells of the tokens that have no room there too; no slice would.
#[derive(Clone, Copy)]
pub struct Trimmed {
    pub left: CodedSide,
    pub right: CodedSide,
    pub left_len: usize,
    pub right_len: usize,
}

// How many equal characters stand in both fronts.
fn alike_in_front(l: &[u8], r: &[u8]) -> usize
    ensures { result ≡ alike_in_front l.now r.now }
{
    l.iter()
        .zip(r)
        .take_while(|&(&a, &b)| a < FIELD_CODE && a == b)
        .count()
}

// The side in its 48 bytes, as far as it has room.
fn padded_side(side: &[u8]) -> CodedSide
    ensures { result ≡ padded (take longest_side side.now) }
{
    let n = side.len().min(LONGEST_SIDE);
    let mut bytes = [NO_TOKEN; LONGEST_SIDE];
    bytes[..n].copy_from_slice(&side[..n]);
    bytes
}

// "Trimming drops equal characters from both fronts while there are any"
#[tactic(auto, using(crate::proofs::TrimTurns::alike_within))]
pub fn trim(l: &[u8], r: &[u8]) -> Trimmed
    ensures { result ≡ trimmed_of l.now r.now }
{
    let n = alike_in_front(l, r);
    let left = padded_side(&l[n..]);
    let right = padded_side(&r[n..]);
    Trimmed {
        left,
        right,
        left_len: l.len() - n,
        right_len: r.len() - n,
    }
}

// The mask of the start for a field that stands in either side, 0 for one that does not.
fn first_mask(l: &[u8], r: &[u8], f: usize) -> PlaceSet
    requires { f < set_fields }
    ensures { result ≡ first_mask (l.now ++ r.now) f }
{
    let token = FIELD_CODE + f as u8;
    if stands(l, token) || stands(r, token) {
        1
    } else {
        0
    }
}

// "at first it holds only the start"
fn first_masks(l: &[u8], r: &[u8]) -> [PlaceSet; FIELDS]
    ensures { result ≡ first_masks (l.now ++ r.now) }
{
    std::array::from_fn(|f| first_mask(l, r, f))
}

// The question of these tokens.
fn asked(l: &[u8], r: &[u8]) -> Situation
    requires { (length l.now ≤ longest_side) × (length r.now ≤ longest_side) }
    ensures { result ≡ as_struct (question_coded l.now r.now) }
{
    let sets = first_masks(l, r);
    let Trimmed { left, right, .. } = trim(l, r);
    Situation { left, right, sets }
}

// "The trimmed question", from its two sides.
pub fn question(left: CodedSide, right: CodedSide) -> Situation
    ensures { result ≡ as_struct (question_coded (tokens left) (tokens right)) }
{
    let left_len = length_of(left);
    let right_len = length_of(right);
    asked(&left[..left_len], &right[..right_len])
}
