// Place sets joined to tables of them: the sets of places that may follow each place, or that take each character.
ghost use Rattle.std.specs.Prelude.{◌≡◌, cond, ℕ, ◌<◌};
ghost use Rattle.paper.specs.Numbers.{most_characters};
ghost use Rattle.paper.specs.Pattern.{takes, range};
ghost use Rattle.base_places.specs.Masks.{places, in_mask};
ghost use Rattle.read_pattern.specs.ReadPart.{Adds};

use base_places::{CHARACTERS, PLACES, PlaceSet};

// The set, or no place.
pub fn when(b: bool, set: PlaceSet) -> PlaceSet
    ensures { result ≡ cond b set 0 }
{
    if b { set } else { 0 }
}

// Lets every place of `first` follow every place of `last`. Only the places of `last` are looked at, one after the other, as `followers` does.
// Kept: (d) the library has no walk over a number's set bits; each step goes on to the next one, so that no `for` says how far.
pub fn link(follow: &mut [PlaceSet; PLACES], last: PlaceSet, first: PlaceSet)
    ensures { Adds places (λ (i : ℕ). cond (in_mask last i) first 0) follow.old follow.new }
{
    let mut i: usize = 0;
    while i < PLACES {
        let rest = last >> i;
        if rest == 0 {
            return;
        }
        let next = i + u64::trailing_zeros(rest) as usize;
        follow[next] |= first;
        i = next + 1;
    }
}

// Lets the set take the characters from lo to hi. Only these are looked at.
pub fn mark(taking: &mut [PlaceSet; CHARACTERS], lo: u8, hi: u8, set: PlaceSet)
    requires { (lo < most_characters) × (hi < most_characters) }
    ensures { Adds most_characters (λ (c : ℕ). cond (takes (range lo hi) c) set 0) taking.old taking.new }
{
    for c in lo as usize..hi as usize + 1 {
        taking[c] |= set;
    }
}
