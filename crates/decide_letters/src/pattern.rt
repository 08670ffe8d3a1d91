// The weights of a pattern, from its bytes: operator first as they stand, so from the last to the first, what is made and not yet used on a stack.
ghost use Rattle.std.specs.Prelude.{◌≡◌, ◌+◌, ◌-◌, ◌≤◌, ◌<◌, length, get_or, set};
ghost use Rattle.paper.specs.Numbers.{pattern_bytes};
ghost use Rattle.paper.specs.Alphabet.{codes};
ghost use Rattle.base_editions.specs.Editions.{paper_edition};
ghost use Rattle.decide_letters.specs.PatternStack.{counted, weightless, uses, made, stack_of, packed, unpacked};
ghost use Rattle.decide_letters.specs.LettersCoded.{body_weights, Least};

use crate::weights::{Counting, Weights, behind, counts, either, fixed, many, open, range};
use base_editions::Edition;
use base_question::Body;
use read_codes::PATTERN_BYTES;

// The codes of a pattern, in both editions: the empty text, a range, A then B, A or B, A any number of times.
const EMPTY_CODE: u8 = 192;

const RANGE_CODE: u8 = 193;

const THEN_CODE: u8 = 194;

const OR_CODE: u8 = 195;

const MANY_CODE: u8 = 196;

// What a field may hold, whose pattern stands there.
pub fn body_weights(
    counting: Counting,
    edition: Edition,
    s: &[u8],
    body: Body,
    stack: &mut [Weights; PATTERN_BYTES],
) -> Weights
    ensures { result ≡ packed (body_weights (counted counting) (paper_edition edition) s.now body) }
{
    let wanted = body.length;
    if wanted == 0 {
        return open();
    }
    let start = at_most(body.start, s.len());
    let there = at_most(wanted, s.len() - start);
    let length = at_most(there, PATTERN_BYTES);
    pattern_weights(counting, edition, &s[start..start + length], stack)
}

fn at_most(n: usize, limit: usize) -> usize
    ensures { Least n limit result }
{
    n.min(limit)
}

// The stack ends where the array does, and grows towards its front.
fn pattern_weights(
    counting: Counting,
    edition: Edition,
    bytes: &[u8],
    stack: &mut [Weights; PATTERN_BYTES],
) -> Weights
    requires { length bytes.now ≤ pattern_bytes }
    ensures { result ≡ packed (get_or (stack_of (counted counting) (codes (paper_edition edition) bytes.now)) 0 weightless) }
{
    let mut top = PATTERN_BYTES;
    let mut lo = 0;
    let mut hi = 0;
    for i in (0..bytes.len()).rev() {
        let c = base_editions::code(edition, bytes[i]);
        let w = made(counting, c, lo, hi, stack, top);
        top = put(stack, top, uses(c), w);
        hi = lo;
        lo = c;
    }
    at(stack, top)
}

// How many of the stack a code uses.
fn uses(c: u8) -> usize
    ensures { result ≡ uses c }
{
    if c == THEN_CODE {
        return 2;
    }
    if c == OR_CODE {
        return 2;
    }
    if c == RANGE_CODE {
        return 2;
    }
    if c == MANY_CODE { 1 } else { 0 }
}

// What is on the stack at a place, from its top on; what is missing has no weight.
fn at(stack: &[Weights; PATTERN_BYTES], i: usize) -> Weights
    ensures { result ≡ get_or stack.now i 0 }
{
    if i < PATTERN_BYTES { stack[i] } else { 0 }
}

// What a code makes of the two on top, where lo and hi are the codes behind it.
fn made(
    counting: Counting,
    c: u8,
    lo: u8,
    hi: u8,
    stack: &[Weights; PATTERN_BYTES],
    top: usize,
) -> Weights
    requires { top ≤ pattern_bytes }
    ensures { result ≡ packed (made (counted counting) c lo hi (unpacked (get_or stack.now top 0)) (unpacked (get_or stack.now (top + 1) 0))) }
{
    if c < EMPTY_CODE {
        return fixed(counts(counting, c));
    }
    if c == RANGE_CODE {
        return range(counting, lo, hi);
    }
    if c == THEN_CODE {
        return behind(at(stack, top), at(stack, top + 1));
    }
    if c == OR_CODE {
        return either(at(stack, top), at(stack, top + 1));
    }
    if c == MANY_CODE {
        return many(at(stack, top));
    }
    if c == EMPTY_CODE {
        return fixed(false);
    }
    fixed(counts(counting, c))
}

// Takes so many off the stack, and puts this on it.
fn put(stack: &mut [Weights; PATTERN_BYTES], top: usize, used: usize, w: Weights) -> usize
    requires { (top ≤ pattern_bytes) × (0 < top + used) × (used ≤ 2) }
    ensures { (stack.new ≡ set stack.old result w) × (Least (top + used) pattern_bytes (result + 1)) }
{
    let next = at_most(top + used, PATTERN_BYTES) - 1;
    stack[next] = w;
    next
}
