// Letters: in a label that both rules make, each character stands as often by the one as by the other. Where no texts of the fields make that so, the
// rules don't clash.
#![tactic(auto)]

mod pattern;
mod sides;
mod totals;
mod weights;

ghost use Rattle.std.specs.Prelude.{◌≡◌, false, ℕ, ◌≤◌, ◌<◌, get_or};
ghost use Rattle.paper.specs.Lists.{upto, any};
ghost use Rattle.paper.specs.Numbers.{fields, longest_side};
ghost use Rattle.base_codes.specs.Inner.{tokens};
ghost use Rattle.base_editions.specs.Editions.{paper_edition};
ghost use Rattle.decide_letters.specs.PatternStack.{counted, packed};
ghost use Rattle.decide_letters.specs.SideCoded.{times_listed};
ghost use Rattle.decide_letters.specs.LettersCoded.{field_weights, totals_over, uneven_by_one, letters_coded};

use base_codes::{CodedSide, FIELD_CODE, SHEET_FIELDS, tokens_of};
use base_editions::Edition;
use base_question::Body;
use read_codes::PATTERN_BYTES;
use totals::Totals;
use weights::{Counting, Weights};

// The fields of the first bytes: "its own fields, numbered 0 to 3"
const RULE_FIELDS: usize = 4;

// The codes of characters are those below the first field's.
const CHARACTER_CODES: usize = FIELD_CODE as usize;

// What is asked, and how often each field stands in either side. The patterns of the fields 0 to 3 stand in `first`, those of the fields 4 to 7 in
// `second`.
#[derive(Clone, Copy)]
struct Asked<'a> {
    left: CodedSide,
    right: CodedSide,
    left_times: [u64; SHEET_FIELDS],
    right_times: [u64; SHEET_FIELDS],
    edition: Edition,
    bodies: [Body; SHEET_FIELDS],
    first: &'a [u8],
    second: &'a [u8],
    ghost lefts: { left_times ≡ times_listed (tokens left) },
    ghost rights: { right_times ≡ times_listed (tokens right) },
}

// Whether no choice of weights makes both sides equal: those of all characters but the space, or of one that stands fixed in a side. The patterns of
// the fields 0 to 3 stand in `first`, those of the fields 4 to 7 in `second`.
pub fn letters_differ(
    left: CodedSide,
    right: CodedSide,
    space: usize,
    edition: Edition,
    bodies: [Body; SHEET_FIELDS],
    first: &[u8],
    second: &[u8],
) -> bool
    ensures { result ≡ letters_coded (paper_edition edition) left right space bodies first.now second.now }
{
    let asked = Asked {
        left,
        right,
        left_times: sides::field_times(left),
        right_times: sides::field_times(right),
        edition,
        bodies,
        first,
        second,
    };
    let mut stack: [Weights; PATTERN_BYTES] = [0; PATTERN_BYTES];
    if asked.uneven(Counting::AllBut(space), &mut stack) {
        return true;
    }
    let mut seen = [false; CHARACTER_CODES];
    asked.uneven_by_some(left, space, &mut seen, &mut stack)
        || asked.uneven_by_some(right, space, &mut seen, &mut stack)
}

impl<'a> Asked<'a> {
    ghost use Rattle.decide_letters.specs.Uneven.{uneven_asked, Seen};

    // By some character that stands fixed in this side.
    fn uneven_by_some(
        &self,
        side: CodedSide,
        space: usize,
        seen: &mut [bool; CHARACTER_CODES],
        stack: &mut [Weights; PATTERN_BYTES],
    ) -> bool
        requires { Seen (uneven_asked self.now) seen.old }
        ensures uneven { result ≡ any (uneven_by_one (uneven_asked self.now) space) (tokens side) }
        ensures seen { result ≡ false → Seen (uneven_asked self.now) seen.new }
    {
        for &b in tokens_of(&side) {
            if self.uneven_by_one(b, space, seen, stack) {
                return true;
            }
        }
        false
    }

    // By this character, unless it is the space or has been tried.
    fn uneven_by_one(
        &self,
        b: u8,
        space: usize,
        seen: &mut [bool; CHARACTER_CODES],
        stack: &mut [Weights; PATTERN_BYTES],
    ) -> bool
        requires { Seen (uneven_asked self.now) seen.old }
        ensures uneven { result ≡ uneven_by_one (uneven_asked self.now) space b }
        ensures seen { result ≡ false → Seen (uneven_asked self.now) seen.new }
    {
        if FIELD_CODE <= b {
            return false;
        }
        let c = weights::wide(b);
        if space == c {
            return false;
        }
        if seen[c] {
            return false;
        }
        seen[c] = true;
        self.uneven(Counting::One(c), stack)
    }

    // By the characters that count.
    fn uneven(&self, counting: Counting, stack: &mut [Weights; PATTERN_BYTES]) -> bool
        ensures { result ≡ uneven_asked self.now (counted counting) }
    {
        let left_fixed = sides::fixed_weight(counting, self.left);
        let right_fixed = sides::fixed_weight(counting, self.right);
        totals::uneven(self.both_sides(counting, left_fixed, right_fixed, stack))
    }

    // Both sides, field by field. One that stands as often in both counts for nothing.
    fn both_sides(
        &self,
        counting: Counting,
        left_fixed: u64,
        right_fixed: u64,
        stack: &mut [Weights; PATTERN_BYTES],
    ) -> Totals
        requires { (left_fixed ≤ longest_side) × (right_fixed ≤ longest_side) }
        ensures { result ≡ totals_over (λ (f : ℕ). get_or self.now.left_times f 0) (λ (f : ℕ). get_or self.now.right_times f 0) left_fixed right_fixed (field_weights (counted counting) (paper_edition self.now.edition) self.now.bodies self.now.first.now self.now.second.now) (upto fields) }
    {
        let mut t = totals::fixed(left_fixed, right_fixed);
        for f in (0..SHEET_FIELDS).rev() {
            let l = self.left_times[f];
            let r = self.right_times[f];
            if l != r {
                let w = self.field_weights(counting, f, stack);
                t = totals::with_field(t, l, r, w);
            }
        }
        t
    }

    // What a field may hold, by its own bytes.
    fn field_weights(
        &self,
        counting: Counting,
        f: usize,
        stack: &mut [Weights; PATTERN_BYTES],
    ) -> Weights
        requires { f < fields }
        ensures { result ≡ packed (field_weights (counted counting) (paper_edition self.now.edition) self.now.bodies self.now.first.now self.now.second.now f) }
    {
        let bytes = if f < RULE_FIELDS {
            self.first
        } else {
            self.second
        };
        pattern::body_weights(counting, self.edition, bytes, self.bodies[f], stack)
    }
}
