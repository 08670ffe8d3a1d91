// What a side weighs after cancelling: its fixed characters, and each field as often as it stands in it more often than in the other.
ghost use Rattle.std.specs.Prelude.{◌≡◌, false, ◌^◌, ◌≤◌, ◌<◌};
ghost use Rattle.paper.specs.Numbers.{longest_side};
ghost use Rattle.decide_letters.specs.PatternStack.{unpacked};
ghost use Rattle.decide_letters.specs.LettersCoded.{side_with, with_field, HasRoom, lighter, uneven_totals};

use crate::weights::{Weights, between, divisor, endless, least, most, step, surplus};

// The least and the most that a side weighs, and whether there is no most.
// Kept: (a) the paper's `Weights` have a most beside `endless`, and `total_over`, `lighter` and their laws are of both.
#[derive(Clone, Copy)]
pub struct Total {
    pub least: u64,
    pub most: u64,
    pub endless: bool,
}

// Both sides, and the common divisor of what their fields go by.
#[derive(Clone, Copy)]
pub struct Totals {
    pub left: Total,
    pub right: Total,
    pub steps: u64,
}

// The sides without their fields.
pub fn fixed(left: u64, right: u64) -> Totals
    ensures { result ≡ record { left = record { least = left; most = left; endless = false }; right = record { least = right; most = right; endless = false }; steps = 0 } }
{
    let left = Total {
        least: left,
        most: left,
        endless: false,
    };
    let right = Total {
        least: right,
        most: right,
        endless: false,
    };
    Totals {
        left,
        right,
        steps: 0,
    }
}

// With a field that stands so often in the left side, and so often in the right.
pub fn with_field(t: Totals, l: u64, r: u64, w: Weights) -> Totals
    requires { (l ≤ longest_side) × (r ≤ longest_side) × (HasRoom t) }
    ensures { result ≡ with_field l r (unpacked w) t }
{
    let one = t.left;
    let other = t.right;
    let left = side_with(one, surplus(l, r), w);
    let right = side_with(other, surplus(r, l), w);
    let steps = divisor(between(l, r) * step(w), t.steps);
    Totals { left, right, steps }
}

// A side in which a field stands so often more.
fn side_with(t: Total, n: u64, w: Weights) -> Total
    requires { (n ≤ longest_side) × (t.least < 2 ^ 32) × (t.most < 2 ^ 32) }
    ensures { result ≡ side_with n (unpacked w) t }
{
    Total {
        least: t.least + n * least(w),
        most: t.most + n * most(w),
        endless: (0 < n) & endless(w) | t.endless,
    }
}

// It is lighter than so much, whatever its texts are.
fn lighter(t: Total, than: u64) -> bool
    ensures { result ≡ lighter t than }
{
    !t.endless & (t.most < than)
}

// "no choice of such weights makes both sides equal"
pub fn uneven(t: Totals) -> bool
    ensures { result ≡ uneven_totals t }
{
    let left = t.left;
    let right = t.right;
    if lighter(left, right.least) {
        return true;
    }
    if lighter(right, left.least) {
        return true;
    }
    let apart = between(left.least, right.least);
    if t.steps == 0 {
        return apart != 0;
    }
    apart % t.steps != 0
}
