// What the texts of a pattern may weigh, by which characters count: the least, the step, whether there is an end, and the most, in one number.
ghost use Rattle.std.specs.Prelude.{◌≡◌, cond, suc, ◌+◌, ◌-◌, ◌<◌, ◌≤◌, ltb};
ghost use Rattle.paper.specs.Lists.{from, any, all};
ghost use Rattle.paper_decide.specs.Letters.{one_if, divisor, between, fixed_weight, weights_then, weights_either, weights_many, weights_range, this_one};
ghost use Rattle.decide_letters.specs.PatternStack.{counted, open_weights, spread, part, packed, unpacked};

// Which characters count: one alone, or all but the space.
#[derive(Clone, Copy)]
pub enum Counting {
    One(usize),
    AllBut(usize),
}

// Weights as one number: the least, the step and the most, each below 65,536, and a digit for those without end.
// Kept: (d) in a struct of three u16 and a bool each sum and product would be cut to 16 digits by itself; here `packed` cuts them all.
pub type Weights = u64;

const PART: u64 = 65536;

const MOST_FROM: u64 = PART * PART;

const ENDLESS_FROM: u64 = PART * PART * PART;

pub fn least(w: Weights) -> u64
    ensures { (result ≡ (unpacked w).least) × (result < part) }
{
    w % PART
}

pub fn step(w: Weights) -> u64
    ensures { (result ≡ (unpacked w).step) × (result < part) }
{
    w / PART % PART
}

pub fn most(w: Weights) -> u64
    ensures { (result ≡ (unpacked w).most) × (result < part) }
{
    w / MOST_FROM % PART
}

pub fn endless(w: Weights) -> bool
    ensures { result ≡ (unpacked w).endless }
{
    w / ENDLESS_FROM % 2 == 1
}

fn packed(least: u64, step: u64, endless: bool, most: u64) -> Weights
    ensures { result ≡ packed (record { least = least; step = step; endless = endless; most = most }) }
{
    least % PART + PART * (step % PART + PART * (most % PART + PART * one_if(endless)))
}

pub fn one_if(b: bool) -> u64
    ensures { (result ≤ 1) × (result ≡ one_if b) }
{
    u64::from(b)
}

// Whether a character counts.
pub fn counts(counting: Counting, c: u8) -> bool
    ensures { result ≡ counted counting c }
{
    let own = wide(c);
    match counting {
        Counting::One(a) => a == own,
        Counting::AllBut(space) => space != own,
    }
}

pub fn wide(b: u8) -> usize
    ensures { result ≡ b }
{
    usize::from(b)
}

// Texts of one weight, 0 or 1.
pub fn fixed(heavy: bool) -> Weights
    ensures { result ≡ packed (fixed_weight (one_if heavy)) }
{
    let weight = one_if(heavy);
    packed(weight, 0, false, weight)
}

// "an open field may hold one space, so its least is 0"
pub fn open() -> Weights
    ensures { result ≡ packed open_weights }
{
    packed(0, 1, true, 0)
}

// A text of the one behind a text of the other.
pub fn behind(a: Weights, b: Weights) -> Weights
    ensures { result ≡ packed (weights_then (unpacked a) (unpacked b)) }
{
    let steps = divisor(step(a), step(b));
    packed(
        least(a) + least(b),
        steps,
        endless(a) | endless(b),
        most(a) + most(b),
    )
}

// A text of either.
pub fn either(a: Weights, b: Weights) -> Weights
    ensures { result ≡ packed (weights_either (unpacked a) (unpacked b)) }
{
    let low = least(a);
    let other = least(b);
    let steps = divisor(divisor(step(a), step(b)), between(low, other));
    packed(
        lesser(low, other),
        steps,
        endless(a) | endless(b),
        greater(most(a), most(b)),
    )
}

// Any number of texts one behind the other.
pub fn many(a: Weights) -> Weights
    ensures { result ≡ packed (weights_many (unpacked a)) }
{
    let steps = divisor(least(a), step(a));
    packed(0, steps, endless(a) | (most(a) != 0), 0)
}

// One of the characters from lo to hi. All but the space count where the space alone doesn't.
pub fn range(counting: Counting, lo: u8, hi: u8) -> Weights
    ensures { result ≡ packed (weights_range (counted counting) lo (suc hi - lo)) }
{
    match counting {
        Counting::One(a) => spread(alone(a, lo, hi), within(a, lo, hi)),
        Counting::AllBut(space) => spread(!within(space, lo, hi), !alone(space, lo, hi)),
    }
}

// The character is one of them.
fn within(a: usize, lo: u8, hi: u8) -> bool
    ensures { result ≡ any (this_one a) (from lo (suc hi - lo)) }
{
    if a < wide(lo) {
        return false;
    }
    a <= wide(hi)
}

// There is no other among them.
fn alone(a: usize, lo: u8, hi: u8) -> bool
    ensures { result ≡ all (this_one a) (from lo (suc hi - lo)) }
{
    if hi < lo {
        return true;
    }
    if lo < hi {
        return false;
    }
    a == wide(lo)
}

// One character of which all count, or some, or none.
fn spread(all: bool, some: bool) -> Weights
    ensures { result ≡ packed (spread all some) }
{
    let low = one_if(all);
    let high = one_if(some);
    packed(low, surplus(high, low), false, high)
}

// The common divisor; of 0 and a number that number.
pub fn divisor(a: u64, b: u64) -> u64
    ensures { result ≡ divisor a b }
{
    let mut x = a;
    let mut y = b;
    while y != 0 {
        let rest = x % y;
        x = y;
        y = rest;
    }
    x
}

// By how much the first is the greater.
pub fn surplus(a: u64, b: u64) -> u64
    ensures { result ≡ a - b }
{
    if a < b {
        return 0;
    }
    a - b
}

pub fn between(a: u64, b: u64) -> u64
    ensures { result ≡ between a b }
{
    if a < b {
        return b - a;
    }
    a - b
}

fn lesser(a: u64, b: u64) -> u64
    ensures { result ≡ cond (ltb b a) b a }
{
    a.min(b)
}

fn greater(a: u64, b: u64) -> u64
    ensures { result ≡ cond (ltb a b) b a }
{
    a.max(b)
}
