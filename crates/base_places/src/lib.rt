// Places: a place set is a 64-bit mask. Its lowest bit is the start, the others are the leaves in the order of reading.
#![tactic(auto)]

ghost use Rattle.std.specs.Prelude.{◌≡◌, cond, ℕ, ◌^◌, ◌≤◌, ◌<◌, eqb};
ghost use Rattle.std.specs.Int.Bits.{bit_or};
ghost use Rattle.paper.specs.Pattern.{some_text};
ghost use Rattle.paper.specs.Numbers.{most_characters};
ghost use Rattle.base_places.specs.Masks.{places, mask_of, in_mask, followers_of, within};
ghost use Rattle.base_places.specs.WorkedOut.{worked_out};

// "63 leaves, which with the start make 64 places".
pub const PLACES: usize = 64;

// How many characters a table has room for: those of Full ASCII, 0 to 127. Code 39 has 43 of them, 0 to 42.
pub const CHARACTERS: usize = 128;

// A place set: bit i is the place i.
pub type PlaceSet = u64;

// Every place; every place but the start; and the place behind the start of an open field.
const ALL: PlaceSet = 0xFFFF_FFFF_FFFF_FFFF;

const NOT_THE_START: PlaceSet = 0xFFFF_FFFF_FFFF_FFFE;

const BEHIND_START: PlaceSet = 2;

// What is worked out once of a pattern.
#[derive(Clone, Copy)]
pub struct PlaceTables {
    // for every place the places that may follow
    pub follow: [PlaceSet; PLACES],
    // for every character the places that take it
    pub taking: [PlaceSet; CHARACTERS],
    // the places that may be the last one: "the start may, if the pattern takes the empty text"
    pub last: PlaceSet,
}

// The set that holds the place i alone; no place, where i is none.
pub fn place(i: usize) -> PlaceSet
    ensures { result ≡ mask_of (λ (q : ℕ). eqb i q) }
{
    if i < PLACES { 1 << i } else { 0 }
}

// The other set, if the place i stands in the first one; else no place.
pub fn when_holds(set: PlaceSet, i: usize, other: PlaceSet) -> PlaceSet
    ensures { result ≡ cond (in_mask set i) other 0 }
{
    if PLACES <= i {
        return 0;
    }
    if (set >> i) % 2 == 1 { other } else { 0 }
}

// The places of either set. (Of a set in a lent table only a function that it is handed to knows that it has 64 bits.)
fn joined(one: PlaceSet, other: PlaceSet) -> PlaceSet
    ensures { (result ≡ bit_or one other) × (other < 2 ^ places) }
{
    one | other
}

// No more characters than a table has room for.
pub fn within(n: usize) -> usize
    ensures { (result ≡ within n) × (result ≤ most_characters) }
{
    n.min(CHARACTERS)
}

// All places that may follow some place of the set. The set after a character is what of these takes it. Only the places of the set are looked at:
// from each the next one is as many places on as what is left of the set has zeros below its lowest digit.
pub fn followers(follow: &[PlaceSet; PLACES], set: PlaceSet) -> PlaceSet
    ensures { result ≡ followers_of follow.now set }
{
    let mut r = 0;
    let mut i: usize = 0;
    // Kept: (d) no count, but a step from each place of the set to the next, of as many as there are zeros between.
    while i < PLACES {
        let rest = set >> i;
        if rest == 0 {
            return r;
        }
        let next = i + u64::trailing_zeros(rest) as usize;
        r = joined(r, follow[next]);
        i = next + 1;
    }
    r
}

// "A field without a pattern shall now hold one character or more. It then has two reachable place sets": its start, which may not be the last
// one, and one place behind it, which follows both.
pub fn open_tables() -> PlaceTables
    ensures { result ≡ worked_out some_text }
{
    PlaceTables {
        follow: [BEHIND_START; PLACES],
        taking: [ALL; CHARACTERS],
        last: NOT_THE_START,
    }
}
