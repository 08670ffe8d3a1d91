// The expression of a pattern, as a script for string solvers has it, put into a lent buffer and counted.
#![tactic(auto)]

ghost use Rattle.std.specs.Prelude.{◌≡◌, ℕ, suc, ◌+◌, ◌-◌, ◌≤◌, ◌<◌, length, get_or};
ghost use Rattle.paper.specs.Lists.{from, each};
ghost use Rattle.paper.specs.Alphabet.{edition_1, edition_2, codes};
ghost use Rattle.paper_script.specs.Script.{one_character, next_character, several, range_expression};
ghost use Rattle.base_put.specs.Counted.{Counted};
ghost use Rattle.base_editions.specs.Editions.{paper_edition};
ghost use Rattle.script_terms.specs.Spelt.{operator_opened, spelt_at, term_spelt, single_spelling, range_spelling, Spells};

use base_editions::Edition;
use base_put::{put, put_all};
use script_characters::character;

// The codes of a pattern, in both editions: the empty text, a range, A then B, A or B, A any number of times.
const EMPTY_CODE: u8 = 192;

const RANGE_CODE: u8 = 193;

const THEN_CODE: u8 = 194;

const OR_CODE: u8 = 195;

const MANY_CODE: u8 = 196;

// The place behind what was put, and the offset behind what was read.
#[derive(Clone, Copy)]
struct Spelt {
    end: usize,
    next: usize,
}

// A pattern's expression, from its bytes; of bytes that are no pattern something that is fixed too.
pub fn expression(out: &mut [u8], at: usize, edition: Edition, pattern: &[u8]) -> usize
    ensures { Counted out.old out.new at result (term_spelt (paper_edition edition) pattern.now) }
{
    let whole = spell(out, at, edition, pattern, 0);
    whole.end
}

// (str.to_re "c")
fn one_character(out: &mut [u8], at: usize, edition: Edition, c: u8) -> usize
    ensures { Counted out.old out.new at result (one_character (paper_edition edition) c) }
{
    let open = put_all(out, at, b"(str.to_re \"");
    let behind = character(out, open, edition, c);
    put_all(out, behind, b"\")")
}

// The same behind a space, in the first edition.
fn next_character(out: &mut [u8], at: usize, c: u8) -> usize
    ensures { Counted out.old out.new at result (next_character edition_1 c) }
{
    let space = put(out, at, b' ');
    one_character(out, space, Edition::First, c)
}

// The characters from lo to hi, a space before each.
fn characters(out: &mut [u8], at: usize, lo: u8, hi: u8) -> usize
    requires { lo ≤ hi }
    ensures { Counted out.old out.new at result (each (next_character edition_1) (from lo (suc hi - lo))) }
{
    let mut end = at;
    for c in lo..hi {
        end = next_character(out, end, c);
    }
    next_character(out, end, hi)
}

// "a range is written as a choice of single characters"
fn choice(out: &mut [u8], at: usize, lo: u8, hi: u8) -> usize
    requires { lo ≤ hi }
    ensures { Counted out.old out.new at result (several edition_1 lo hi) }
{
    let open = put_all(out, at, b"(re.union");
    let end = characters(out, open, lo, hi);
    put(out, end, b')')
}

// "in the second edition a range may be `re.range`, since value order is ASCII order there"
fn span(out: &mut [u8], at: usize, lo: u8, hi: u8) -> usize
    ensures { Counted out.old out.new at result (several edition_2 lo hi) }
{
    let open = put_all(out, at, b"(re.range \"");
    let low = character(out, open, Edition::Second, lo);
    let gap = put_all(out, low, b"\" \"");
    let high = character(out, gap, Edition::Second, hi);
    put_all(out, high, b"\")")
}

// One character is no range.
fn range_expression(out: &mut [u8], at: usize, edition: Edition, lo: u8, hi: u8) -> usize
    ensures { Counted out.old out.new at result (range_expression (paper_edition edition) lo hi) }
{
    if hi <= lo {
        return one_character(out, at, edition, lo);
    }
    match edition {
        Edition::First => choice(out, at, lo, hi),
        Edition::Second => span(out, at, lo, hi),
    }
}

// What a pattern's byte says.
fn code_at(edition: Edition, s: &[u8], i: usize) -> u8
    requires { i < length s.now }
    ensures { result ≡ get_or (codes (paper_edition edition) s.now) i 0 }
{
    base_editions::code(edition, s[i])
}

// A range, lo and hi
fn spell_range(out: &mut [u8], at: usize, edition: Edition, s: &[u8], i: usize) -> Spelt
    requires { i < length s.now }
    ensures { Spells out.old out.new at result (range_spelling (paper_edition edition) (codes (paper_edition edition) s.now) i) }
{
    if s.len() - i < 3 {
        return Spelt {
            end: at,
            next: s.len(),
        };
    }
    let lo = code_at(edition, s, i + 1);
    let hi = code_at(edition, s, i + 2);
    let end = range_expression(out, at, edition, lo, hi);
    Spelt { end, next: i + 3 }
}

// What is no operator.
fn spell_single(out: &mut [u8], at: usize, edition: Edition, s: &[u8], i: usize) -> Spelt
    requires { i < length s.now }
    ensures { Spells out.old out.new at result (single_spelling (paper_edition edition) (codes (paper_edition edition) s.now) i) }
{
    let b = code_at(edition, s, i);
    if b == RANGE_CODE {
        return spell_range(out, at, edition, s, i);
    }
    if b == EMPTY_CODE {
        let end = put_all(out, at, b"(str.to_re \"\")");
        return Spelt { end, next: i + 1 };
    }
    let end = one_character(out, at, edition, b);
    Spelt { end, next: i + 1 }
}

// The operator of two expressions.
fn operator(out: &mut [u8], at: usize, b: u8) -> usize
    ensures { Counted out.old out.new at result (operator_opened b) }
{
    if b == THEN_CODE {
        return put_all(out, at, b"(re.++ ");
    }
    put_all(out, at, b"(re.union ")
}

// The expression at an offset: a pattern's operators stand before what they join, and the bytes left fall at each call.
fn spell(out: &mut [u8], at: usize, edition: Edition, s: &[u8], i: usize) -> Spelt
    ensures { (n : ℕ) → length (codes (paper_edition edition) s.now) ≤ i + n → Spells out.old out.new at result (spelt_at (paper_edition edition) n (codes (paper_edition edition) s.now) i) }
{
    if s.len() <= i {
        return Spelt { end: at, next: i };
    }
    let b = code_at(edition, s, i);
    if b == MANY_CODE {
        let open = put_all(out, at, b"(re.* ");
        let a = spell(out, open, edition, s, i + 1);
        let end = put(out, a.end, b')');
        return Spelt { end, next: a.next };
    }
    if b < THEN_CODE {
        return spell_single(out, at, edition, s, i);
    }
    if OR_CODE < b {
        return spell_single(out, at, edition, s, i);
    }
    let open = operator(out, at, b);
    let first = spell(out, open, edition, s, i + 1);
    let gap = put(out, first.end, b' ');
    let second = spell(out, gap, edition, s, first.next);
    let end = put(out, second.end, b')');
    Spelt {
        end,
        next: second.next,
    }
}
