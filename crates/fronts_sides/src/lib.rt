// Two sides told apart by what is fixed in them: "Two sides whose fixed fronts (or ends, without the spaces) differ can't clash".
#![tactic(auto)]

ghost use Rattle.std.specs.Prelude.{◌≡◌, cond, reverse};
ghost use Rattle.paper.specs.Alphabet as Alphabet;
ghost use Rattle.paper.specs.Alphabet.{alphabet_of};
ghost use Rattle.paper.specs.Sheet.{is_token};
ghost use Rattle.paper_fronts.specs.FixedFronts as Fixed;
ghost use Rattle.paper_fronts.specs.FixedFronts.{begins_solid, fixed_differ, side_said, are_tokens, bytes_differ, fronts_told};
ghost use Rattle.base_editions.specs.Editions.{paper_edition};
ghost use Rattle.fronts_sides.specs.Places.{place_told};

use base_editions::{Edition, alphabet_of, code, codes_from};

// behind the codes of characters, in either edition
const CHARACTERS: u8 = 128;

// "field byte 0 to 7"
const FIELDS: u8 = 8;

// 1 only if no texts at all make both sides the same label. 0 says nothing, also of bytes that are no tokens. The edition is 0 for none and 2 for Full
// ASCII; of any other nothing is said.
#[tactic(auto, unfolding(paper_fronts::specs::FixedFronts::fronts_told))]
pub fn fronts_differ(edition: usize, left: &[u8], right: &[u8]) -> u32
    ensures { result ≡ fronts_told edition left.now right.now }
{
    match edition {
        0 => u32::from(told(Edition::First, left, right)),
        2 => u32::from(told(Edition::Second, left, right)),
        _ => 0,
    }
}

// Is it told in an edition that they differ? Whether the bytes are tokens is asked last: most pairs are told apart by one place, and of the others
// nothing is said.
#[tactic(auto, unfolding(paper_fronts::specs::FixedFronts::bytes_differ))]
fn told(edition: Edition, left: &[u8], right: &[u8]) -> bool
    ensures { result ≡ bytes_differ (paper_edition edition) left.now right.now }
{
    fixed(edition, left, right) && are_tokens(edition, left) && are_tokens(edition, right)
}

// "ends are compared only where both sides end with a character that is not the space"
fn fixed(edition: Edition, left: &[u8], right: &[u8]) -> bool
    ensures { result ≡ fixed_differ (alphabet_of (paper_edition edition)).space (side_said (paper_edition edition) left.now) (side_said (paper_edition edition) right.now) }
{
    fronts(edition, left, right)
        || (ends_solid(edition, left) && ends_solid(edition, right) && ends(edition, left, right))
}

// What the bytes of both sides at a place say: true of different characters, false where one is no character, nothing of the same character.
fn at_place(edition: Edition, left: u8, right: u8) -> Option<bool>
    ensures { result ≡ place_told (Alphabet.code (paper_edition edition) left) (Alphabet.code (paper_edition edition) right) }
{
    let a = code(edition, left);
    let b = code(edition, right);
    if CHARACTERS <= a {
        return Some(false);
    }
    if CHARACTERS <= b {
        return Some(false);
    }
    if a != b { Some(true) } else { None }
}

// Is there a place at which both sides have a character, before any field, and the characters are different?
fn fronts(edition: Edition, left: &[u8], right: &[u8]) -> bool
    ensures { result ≡ Fixed.fronts_differ (side_said (paper_edition edition) left.now) (side_said (paper_edition edition) right.now) }
{
    for (&a, &b) in left.iter().zip(right) {
        if let Some(differ) = at_place(edition, a, b) {
            return differ;
        }
    }
    false
}

// The same from behind.
// Kept: (d) beside `fronts`: a loop over any iterator of pairs would have to be told what it yields, which is longer than this one.
fn ends(edition: Edition, left: &[u8], right: &[u8]) -> bool
    ensures { result ≡ Fixed.fronts_differ (reverse (side_said (paper_edition edition) left.now)) (reverse (side_said (paper_edition edition) right.now)) }
{
    for (&a, &b) in left.iter().rev().zip(right.iter().rev()) {
        if let Some(differ) = at_place(edition, a, b) {
            return differ;
        }
    }
    false
}

// Does the side end with a character that is not the space?
fn ends_solid(edition: Edition, side: &[u8]) -> bool
    ensures { result ≡ begins_solid (alphabet_of (paper_edition edition)).space (reverse (side_said (paper_edition edition) side.now)) }
{
    let n = side.len();
    if n == 0 {
        return false;
    }
    let last = code(edition, side[n - 1]);
    if CHARACTERS <= last {
        return false;
    }
    let own = alphabet_of(edition);
    (last as usize) != own.space
}

// Is every byte a token of the edition?
fn are_tokens(edition: Edition, side: &[u8]) -> bool
    ensures { result ≡ are_tokens (paper_edition edition) side.now }
{
    side.iter().all(|&b| is_token(edition, b))
}

// By the byte itself: this is asked of every byte of a pair, and its code is not wanted.
fn is_token(edition: Edition, b: u8) -> bool
    ensures { result ≡ is_token (Alphabet.code (paper_edition edition) b) }
{
    let own = alphabet_of(edition);
    if (b as usize) < own.characters {
        return true;
    }
    let from = codes_from(edition);
    if b < from {
        return false;
    }
    b - from < FIELDS
}
