// Reading a pattern that is written operator first, and working out its places on the way.
ghost use Rattle.std.specs.Prelude.{◌≡◌, cond, List, [], ℕ, ◌+◌, ◌^◌, ◌<◌, eqb, length, get_or};
ghost use Rattle.paper.specs.Numbers.{most_characters, then_code};
ghost use Rattle.paper.specs.Pattern.{empty, then, either};
ghost use Rattle.paper.specs.Written.{read_range};
ghost use Rattle.base_places.specs.Masks.{places};
ghost use Rattle.read_pattern.specs.ReadPart.{working, ReadAs, ReadingOf, Single, LeafRead, Joined, Repeated};
ghost use Rattle.read_pattern.specs.Lent.{read_as, last_bytes, Begins};

use crate::place_sets::{link, mark, when};
use base_places::{CHARACTERS, PLACES, PlaceSet, place};

// A byte stands here as its code, one for both editions (request K10). "0 to 42: that character", behind `ED` "0 to 127".
const CHARACTER_END: u8 = CHARACTERS as u8;

// "64: the empty text", 65 a range, 66 A then B, 67 A or B, 68 A any number of times: the codes from 192 on.
const EMPTY_CODE: u8 = 192;

const RANGE_CODE: u8 = 193;

const THEN_CODE: u8 = 194;

const MANY_CODE: u8 = 196;

// What the pattern at the front of some bytes comes to, where its first leaf is at a given place. Which places may follow its leaves, and
// which characters these take, is joined to tables that are lent. Where there is no pattern, the error is the number of bytes left from the one at
// fault on.
#[derive(Clone, Copy)]
pub struct ReadPart {
    // the bytes left behind it
    pub left: usize,
    // the place behind its last leaf
    pub next: usize,
    // the bytes left from the first leaf on for which there is no place; 0 where there is none
    pub surplus: usize,
    // it takes the empty text
    pub empty: bool,
    // the places that may be first, and last
    pub first: PlaceSet,
    pub last: PlaceSet,
}

impl ReadPart {
    // "64: the empty text"
    pub fn empty(left: usize, o: usize) -> Self
        ensures { Single empty [] left o result }
    {
        ReadPart {
            left,
            next: o,
            surplus: 0,
            empty: true,
            first: 0,
            last: 0,
        }
    }

    // "one character with lo ≤ value ≤ hi (a leaf)": so many bytes from its first on, so many behind it
    fn leaf(
        taking: &mut [PlaceSet; CHARACTERS],
        from: usize,
        left: usize,
        o: usize,
        lo: u8,
        hi: u8,
    ) -> Self
        requires { (o + 1 < 2 ^ 64) × ((lo < most_characters) × (hi < most_characters)) }
        ensures { LeafRead lo hi from left o taking.old taking.new result }
    {
        let set = place(o);
        mark(taking, lo, hi, set);
        ReadPart {
            left,
            next: o + 1,
            surplus: at_limit(o, from),
            empty: false,
            first: set,
            last: set,
        }
    }

    // "67 A B: A or B"
    fn or(self, b: ReadPart) -> Self
        ensures { Joined either self b result }
    {
        let mut r = b;
        r.surplus = earlier(self.surplus, b.surplus);
        r.empty = self.empty | b.empty;
        r.first = self.first | b.first;
        r.last = self.last | b.last;
        r
    }

    // "66 A B: A then B": B may not be first unless A may be empty, and A may not be last unless B may be.
    fn then(self, b: ReadPart) -> Self
        ensures { Joined then self b result }
    {
        let mut r = b;
        r.surplus = earlier(self.surplus, b.surplus);
        r.empty = self.empty & b.empty;
        r.first = self.first | when(self.empty, b.first);
        r.last = b.last | when(b.empty, self.last);
        r
    }

    // "68 A: A any number of times, none included"
    fn many(self) -> Self
        ensures { Repeated self result }
    {
        let mut r = self;
        r.empty = true;
        r
    }
}

// The leaf at the place o has no place, and is the first such: so many bytes from it on, else 0.
fn at_limit(o: usize, from: usize) -> usize
    ensures { result ≡ cond (eqb o places) from 0 }
{
    if o == PLACES { from } else { 0 }
}

// The first of two parts that has one.
fn earlier(a: usize, b: usize) -> usize
    ensures { result ≡ cond (eqb a 0) b a }
{
    if a == 0 { b } else { a }
}

// "65 lo hi: one character with lo ≤ value ≤ hi ≤ 42": what stands behind the 65. "The lo byte if lo is above 42, else the hi byte if that is
// above 42 or below lo." Behind `ED` "a range's ends go to 127".
fn read_range(s: &[u8], o: usize, taking: &mut [PlaceSet; CHARACTERS]) -> Result<ReadPart, usize>
    requires { (o + 1 < 2 ^ 64) × (length s.now + 1 < 2 ^ 64) }
    ensures { (follow : List ℕ) → ReadAs (read_range s.now) o (working follow taking.old) (working follow taking.new) result }
{
    let left = s.len();
    if left < 1 {
        return Err(0);
    }
    let lo = s[0];
    if CHARACTER_END <= lo {
        return Err(left);
    }
    if left < 2 {
        return Err(0);
    }
    let hi = s[1];
    if hi < lo || CHARACTER_END <= hi {
        return Err(left - 1);
    }
    Ok(ReadPart::leaf(taking, left + 1, left - 2, o, lo, hi))
}

// A pattern that has no part: a leaf or the empty text.
fn read_single(s: &[u8], o: usize, taking: &mut [PlaceSet; CHARACTERS]) -> Result<ReadPart, usize>
    requires { (o + length s.now < 2 ^ 64) × (0 < length s.now) × (get_or s.now 0 0 < then_code) }
    ensures { (follow : List ℕ) → ReadingOf s.now o (working follow taking.old) (working follow taking.new) result }
{
    let b = s[0];
    if b < CHARACTER_END {
        return Ok(ReadPart::leaf(taking, s.len(), s.len() - 1, o, b, b));
    }
    if b == EMPTY_CODE {
        return Ok(ReadPart::empty(s.len() - 1, o));
    }
    if b == RANGE_CODE {
        return read_range(&s[1..], o, taking);
    }
    Err(s.len())
}

// The pattern at the front of the last so many bytes, its first leaf at a given place: both numbers stand in the lent part, where the reading is put, so
// that a call which waits for another holds little.
// "A or B, each again a pattern": reading, nullability and follow sets go down the pattern together, and the bytes left fall at each call. What is
// first in a part may follow what is last in the part before it: in B after A, and in A after A, any number of times. Where A has been read, the
// lent part has what B begins with.
pub fn read(
    s: &[u8],
    follow: &mut [PlaceSet; PLACES],
    taking: &mut [PlaceSet; CHARACTERS],
    part: &mut ReadPart,
) -> Result<(), usize>
    requires { Begins s.now part.old }
    ensures { ReadingOf (last_bytes part.old.left s.now) part.old.next (working follow.old taking.old) (working follow.new taking.new) (read_as result part.new) }
{
    let left = part.left;
    if left == 0 {
        return Err(0);
    }
    let at = s.len() - left;
    let b = s[at];
    if b < THEN_CODE {
        *part = read_single(&s[at..], part.next, taking)?;
        return Ok(());
    }
    if MANY_CODE < b {
        return Err(left);
    }
    part.left = left - 1;
    read(s, follow, taking, part)?;
    if b == MANY_CODE {
        link(follow, part.last, part.first);
        *part = part.many();
        return Ok(());
    }
    let first = *part;
    read(s, follow, taking, part)?;
    if b == THEN_CODE {
        link(follow, first.last, part.first);
        *part = first.then(*part);
    } else {
        *part = first.or(*part);
    }
    Ok(())
}
