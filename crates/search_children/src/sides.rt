// Sides: a field struck, a character put, and what becomes of the situation when they are trimmed.
ghost use Rattle.std.specs.Prelude.{◌&&◌, ◌||◌, List, ◌≡◌, ℕ, leb, eqb};
ghost use Rattle.base_codes.specs.Inner.{field_code, front, tokens};
ghost use Rattle.search_trim.specs.Trimming.{trimmed_sides};
ghost use Rattle.search_children.specs.Children.{strike_codes, put_codes, dead_sides, judged_sides, settle};
ghost use Rattle.search_children.specs.Laid.{child_of, Has};

use crate::Child;
use base_codes::{CodedSide, FIELD_CODE, FIELDS, LONGEST_SIDE, NO_TOKEN, Situation};
use base_places::PlaceSet;
use search_trim::Trimmed;

const WIDEST_SIDE: usize = LONGEST_SIDE + LONGEST_SIDE;

// The bytes of a side before it is trimmed: a character may be put before each of its tokens.
// Kept: (b) bytes that are lent, and a length beside them; a struct with `push` was tried, and a put took a quarter more instructions.
pub type WideSide = [u8; WIDEST_SIDE];

pub const NO_WIDE_SIDE: WideSide = [0; WIDEST_SIDE];

// The token in front of a side, 255 where there is none.
#[tactic(auto, using(base_codes::proofs::Tokens::tokens_front))]
pub fn front_in(side: &CodedSide) -> u8
    ensures { result ≡ front (tokens side.now) }
{
    side[0]
}

// "strike it everywhere": how many tokens are left, in the front of the bytes
pub fn struck_side(bytes: &mut WideSide, side: &CodedSide, b: u8) -> usize
    ensures { Has bytes.new result (strike_codes b (tokens side.now)) }
{
    let mut n = 0;
    for &x in side {
        if x == NO_TOKEN {
            break;
        }
        if x != b {
            bytes[n] = x;
            n += 1;
        }
    }
    n
}

// Is x the token of a field in front?
fn is_front(x: u8, a: u8, b: u8) -> bool
    ensures { result ≡ (leb field_code x && (eqb x a || eqb x b)) }
{
    FIELD_CODE <= x && (x == a || x == b)
}

// "put c before each front field wherever that field stands": how many tokens that makes, in the front of the bytes
pub fn put_side(bytes: &mut WideSide, side: &CodedSide, c: u8, a: u8, b: u8) -> usize
    ensures { Has bytes.new result (put_codes c a b (tokens side.now)) }
{
    let mut n = 0;
    for &x in side {
        if x == NO_TOKEN {
            break;
        }
        if is_front(x, a, b) {
            bytes[n] = c;
            n += 1;
        }
        bytes[n] = x;
        n += 1;
    }
    n
}

// "dead": two different characters in front, or one side empty and a character in front of the other
fn is_dead(t: Trimmed) -> bool
    ensures { (l r : List ℕ) → t ≡ trimmed_sides l r → result ≡ dead_sides l r }
{
    if t.left[0] < FIELD_CODE {
        t.right_len == 0 || t.right[0] < FIELD_CODE
    } else {
        t.left_len == 0 && t.right[0] < FIELD_CODE
    }
}

// "dead is dropped; a side above 48 tokens gives 19"
#[tactic(auto, unfolding(crate::specs::Children::judged_sides))]
fn judge(t: Trimmed, sets: [PlaceSet; FIELDS]) -> Child
    ensures { (l r : List ℕ) → t ≡ trimmed_sides l r → result ≡ child_of (judged_sides l r sets) }
{
    if is_dead(t) {
        Child::Dropped
    } else if LONGEST_SIDE < t.left_len || LONGEST_SIDE < t.right_len {
        Child::Above
    } else {
        let Trimmed { left, right, .. } = t;
        Child::Made(Situation { left, right, sets })
    }
}

// "Each child is trimmed", then judged.
#[tactic(auto, unfolding(crate::specs::Children::settle, search_trim::specs::Trimming::trimmed_of))]
pub fn settle(l: &[u8], r: &[u8], sets: [PlaceSet; FIELDS]) -> Child
    ensures { result ≡ child_of (settle l.now r.now sets) }
{
    judge(search_trim::trim(l, r), sets)
}
