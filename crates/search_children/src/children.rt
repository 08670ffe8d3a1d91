// The three kinds of child, in document 01's order. A move that is not allowed makes a child that is dropped.
ghost use Rattle.std.specs.Prelude.{◌≡◌};
ghost use Rattle.base_codes.specs.Coded.{denoted};
ghost use Rattle.search_children.specs.Children.{with_set, struck, put_child, may_end_at, left_strike, right_strike};
ghost use Rattle.search_children.specs.Laid.{child_of};

use crate::{Child, sides};
use base_codes::{FIELD_CODE, FIELDS, Situation, field_of};
use base_places::PlaceSet;

// The sets with the new one of the field with the token b, if it is a field's.
fn with_set(mut sets: [PlaceSet; FIELDS], b: u8, m: PlaceSet) -> [PlaceSet; FIELDS]
    ensures { result ≡ with_set b m sets }
{
    let f = field_of(b);
    if FIELD_CODE <= b && f < FIELDS {
        sets[f] = m;
    }
    sets
}

// "a field whose set may end"
#[tactic(auto, unfolding(crate::specs::Children::may_end_at))]
fn may_end(sets: [PlaceSet; FIELDS], b: u8, last: [PlaceSet; FIELDS]) -> bool
    ensures { result ≡ may_end_at sets last b }
{
    let f = field_of(b);
    FIELD_CODE <= b && f < FIELDS && sets[f] & last[f] != 0
}

// The child by striking the field with the token b everywhere.
#[tactic(auto, unfolding(crate::specs::Children::struck))]
fn strike(s: Situation, b: u8) -> Child
    ensures { result ≡ child_of (struck (denoted s) b) }
{
    let mut left = sides::NO_WIDE_SIDE;
    let l = sides::struck_side(&mut left, &s.left, b);
    let mut right = sides::NO_WIDE_SIDE;
    let r = sides::struck_side(&mut right, &s.right, b);
    let sets = with_set(s.sets, b, 0);
    sides::settle(&left[..l], &right[..r], sets)
}

// "1. the left front is a field whose set may end: strike it everywhere"
#[tactic(auto, unfolding(crate::specs::Children::left_strike))]
pub fn strike_left(s: Situation, last: [PlaceSet; FIELDS]) -> Child
    ensures { result ≡ child_of (left_strike last (denoted s)) }
{
    let a = sides::front_in(&s.left);
    if may_end(s.sets, a, last) {
        strike(s, a)
    } else {
        Child::Dropped
    }
}

// "2. the right front is a field, not the same as the left front, whose set may end: strike it everywhere"
#[tactic(auto, unfolding(crate::specs::Children::right_strike))]
pub fn strike_right(s: Situation, last: [PlaceSet; FIELDS]) -> Child
    ensures { result ≡ child_of (right_strike last (denoted s)) }
{
    let a = sides::front_in(&s.left);
    let b = sides::front_in(&s.right);
    if b != a && may_end(s.sets, b, last) {
        strike(s, b)
    } else {
        Child::Dropped
    }
}

// "3. .. put c before each front field wherever that field stands, and give the field its new set": m on the left, n on the right. Whether
// both fronts take c is asked before.
#[tactic(auto, unfolding(crate::specs::Children::put_child))]
pub fn put(s: Situation, c: u8, m: PlaceSet, n: PlaceSet) -> Child
    ensures { result ≡ child_of (put_child (denoted s) c m n) }
{
    let a = sides::front_in(&s.left);
    let b = sides::front_in(&s.right);
    let mut left = sides::NO_WIDE_SIDE;
    let l = sides::put_side(&mut left, &s.left, c, a, b);
    let mut right = sides::NO_WIDE_SIDE;
    let r = sides::put_side(&mut right, &s.right, c, a, b);
    let sets = with_set(with_set(s.sets, a, m), b, n);
    sides::settle(&left[..l], &right[..r], sets)
}
