// Two tokens in front (request K9): which pairs of a left and a right place are met while both stay in front. "only the places of the two fields in
// front are repeated until nothing is added".
#![tactic(auto)]

ghost use Rattle.std.specs.Prelude.{◌≡◌, ◌&&◌, not, ℕ, ◌^◌, ◌<◌, eqb, get_or};
ghost use Rattle.std.specs.Int.Bits.{bit_and, bit_or};
ghost use Rattle.base_places.specs.Masks.{places, in_mask};
ghost use Rattle.plain_block.specs.Met.{tables, Crosses};
ghost use Rattle.plain_block.specs.Rows.{Grows, One, Each, Taken, Behind, GoneOn};

use base_places::{CHARACTERS, PLACES, PlaceSet, followers, within};

// The start of a token, as a set.
const START: PlaceSet = 1;

// What the pairs that are met tell the tokens behind.
#[derive(Clone, Copy)]
pub struct Crossed {
    // the right places at which the left token may be left
    pub left: PlaceSet,
    // the left places at which the right token may be left
    pub right: PlaceSet,
    // both tokens are met at their starts
    pub starts: bool,
}

// Two tokens in front: for each place of either the places that may follow, for each character the places that take it, and the characters that both
// may read, from lo on to below hi.
#[derive(Clone, Copy)]
struct Pair<'a> {
    left_follow: &'a [PlaceSet; PLACES],
    left_taking: &'a [PlaceSet; CHARACTERS],
    right_follow: &'a [PlaceSet; PLACES],
    right_taking: &'a [PlaceSet; CHARACTERS],
    lo: usize,
    hi: usize,
}

// Goes through the pairs of places of two tokens, which may read the characters from lo on to below hi.
pub fn cross(
    left_follow: &[PlaceSet; PLACES],
    left_taking: &[PlaceSet; CHARACTERS],
    left_last: PlaceSet,
    right_follow: &[PlaceSet; PLACES],
    right_taking: &[PlaceSet; CHARACTERS],
    right_last: PlaceSet,
    lo: usize,
    hi: usize,
    left_came: PlaceSet,
    right_came: PlaceSet,
) -> Crossed
    ensures { Crosses (tables left_follow.now left_taking.now left_last) (tables right_follow.now right_taking.now right_last) lo hi left_came right_came result }
{
    let mut rows: [PlaceSet; PLACES] = [0; PLACES];
    let first = add(&mut rows, START, left_came, 0);
    let todo = add(&mut rows, right_came, START, first);
    let pair = Pair {
        left_follow,
        left_taking,
        right_follow,
        right_taking,
        lo,
        hi,
    };
    let met = pair.go_on(&mut rows, todo);
    let left = followers(&rows, left_last & met);
    let right = with_some(&rows, met, right_last);
    Crossed {
        left,
        right,
        starts: rows[0] % 2 == 1,
    }
}

impl Pair<'_> {
    // Goes on from the left places of `todo`, until no row grows. The left places that are met with some right place.
    fn go_on(&self, rows: &mut [PlaceSet; PLACES], todo: PlaceSet) -> PlaceSet
        ensures { GoneOn self.now.left_follow.now self.now.left_taking.now self.now.right_follow.now self.now.right_taking.now self.now.lo self.now.hi rows.old todo rows.new 0 result }
    {
        let mut left = todo;
        let mut met = todo;
        while left != 0 {
            let i = u64::trailing_zeros(left) as usize;
            left = self.go_from(rows, i, left & (left - 1));
            met = met | left;
        }
        met
    }

    // Goes on from one left place, with all right places that it is met with.
    fn go_from(&self, rows: &mut [PlaceSet; PLACES], i: usize, todo: PlaceSet) -> PlaceSet
        requires { i < places }
        ensures { Grows (Behind self.now.left_follow.now self.now.left_taking.now self.now.right_follow.now self.now.right_taking.now self.now.lo self.now.hi rows.old i) rows.old todo rows.new result }
    {
        let lefts = self.left_follow[i];
        if lefts == 0 {
            return todo;
        }
        let rights = followers(self.right_follow, rows[i]);
        if rights == 0 {
            return todo;
        }
        self.read(rows, lefts, rights, todo)
    }

    // Lets both tokens read each character that they may, as far as a table has room.
    fn read(
        &self,
        rows: &mut [PlaceSet; PLACES],
        lefts: PlaceSet,
        rights: PlaceSet,
        todo: PlaceSet,
    ) -> PlaceSet
        ensures { Grows (Taken lefts rights self.now.left_taking.now self.now.right_taking.now self.now.lo self.now.hi) rows.old todo rows.new result }
    {
        let mut r = todo;
        for c in self.lo..within(self.hi) {
            r = add(
                rows,
                lefts & self.left_taking[c],
                rights & self.right_taking[c],
                r,
            );
        }
        r
    }
}

// Every left place of the set is met with every right place of `more`. For most characters one of the two sets is empty.
fn add(rows: &mut [PlaceSet; PLACES], set: PlaceSet, more: PlaceSet, todo: PlaceSet) -> PlaceSet
    ensures { Grows (Each set more) rows.old todo rows.new result }
{
    if more == 0 {
        return todo;
    }
    let mut r = todo;
    let mut rest = set;
    while rest != 0 {
        let i = u64::trailing_zeros(rest) as usize;
        rest = rest & (rest - 1);
        r = grow(rows, i, more, r);
    }
    r
}

// One left place is met with every right place of `more`. If its row grows, it is to be gone on from.
fn grow(rows: &mut [PlaceSet; PLACES], i: usize, more: PlaceSet, todo: PlaceSet) -> PlaceSet
    requires { i < places }
    ensures { Grows (One i more) rows.old todo rows.new result }
{
    let row = rows[i];
    let grown = joined(row, more);
    if grown == row {
        return todo;
    }
    rows[i] = grown;
    todo | 1 << i
}

// The places of either set. (Of a set in a lent table only a function that it is handed to knows that it has 64 bits.)
fn joined(one: PlaceSet, other: PlaceSet) -> PlaceSet
    ensures { (result ≡ bit_or one other) × (one < 2 ^ places) }
{
    one | other
}

// The left places that are met with some place of `last`.
fn with_some(rows: &[PlaceSet; PLACES], met: PlaceSet, last: PlaceSet) -> PlaceSet
    ensures { (i : ℕ) → in_mask result i ≡ (in_mask met i && not (eqb (bit_and (get_or rows.now i 0) last) 0)) }
{
    let mut r = 0;
    let mut rest = met;
    while rest != 0 {
        let i = u64::trailing_zeros(rest) as usize;
        rest = rest & (rest - 1);
        if rows[i] & last != 0 {
            r = r | 1 << i;
        }
    }
    r
}
