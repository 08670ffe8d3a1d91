// Marks and sides: 01's checks on a side's record, from an offset to the next.
#![tactic(auto)]

ghost use Rattle.std.specs.Prelude.{◌≡◌, ◌+◌, ◌≤◌, [], ◌∷◌, ltb, length};
ghost use Rattle.paper.specs.Lists.{leading};
ghost use Rattle.paper.specs.Alphabet.{codes};
ghost use Rattle.paper.specs.Sheet.{first_letter, second_letter, bytes_left, marked, next_is, is_token, side_record, marked_side};
ghost use Rattle.base_editions.specs.Editions.{paper_edition};
ghost use Rattle.read_side.specs.SideRead.{mark_of, side_of};

use base_answers::{Fault, Refusal};
use base_codes::{CodedSide, FIELD_CODE, SHEET_FIELDS};
use base_editions::{Edition, code};
use base_places::CHARACTERS;
use read_codes::codes_of;

// "length byte 0 to 24"
pub const SHEET_SIDE: usize = 24;

// "Every record begins with a two-byte mark."
#[derive(Clone, Copy)]
pub enum Mark {
    PA,
    LE,
    RI,
    RU,
    ED,
}

impl Mark {
    fn letters(self) -> [u8; 2]
        ensures { result ≡ first_letter (mark_of self) ∷ second_letter (mark_of self) ∷ [] }
    {
        match self {
            Mark::PA => [b'P', b'A'],
            Mark::LE => [b'L', b'E'],
            Mark::RI => [b'R', b'I'],
            Mark::RU => [b'R', b'U'],
            Mark::ED => [b'E', b'D'],
        }
    }
}

// Are the two bytes there this mark?
#[tactic(auto, unfolding(paper::specs::Sheet::marked))]
fn marked(s: &[u8], at: usize, m: Mark) -> bool
    requires { at + 2 ≤ length s.now }
    ensures { result ≡ marked (mark_of m) s.now at }
{
    let [first, second] = m.letters();
    s[at] == first && s[at + 1] == second
}

// Are there fewer than two bytes from the offset on?
fn ends_at(s: &[u8], at: usize) -> bool
    ensures { result ≡ ltb (bytes_left s.now at) 2 }
{
    s.len().saturating_sub(at) < 2
}

// "Reading goes on from where the last record ended": the offset at which the next record's mark stands or should stand.
#[derive(Clone, Copy)]
pub struct Cursor {
    pub at: usize,
}

impl Cursor {
    // Does this mark come next?
    #[tactic(auto, using(crate::proofs::SideBytes::two_left), unfolding(paper::specs::Sheet::next_is))]
    pub fn next_is(self, s: &[u8], m: Mark) -> bool
        ensures { result ≡ next_is (mark_of m) s.now self.at }
    {
        !ends_at(s, self.at) && marked(s, self.at, m)
    }

    // The side behind the mark m: "fewer than two bytes left give 11; an unknown mark or one not allowed here gives 12".
    #[tactic(auto, using(crate::proofs::SideBytes::two_left), unfolding(paper::specs::Sheet::marked_side))]
    pub fn side(self, s: &[u8], m: Mark, edition: Edition) -> Result<SideRecord, Refusal>
        ensures { result ≡ side_of (marked_side (paper_edition edition) (mark_of m) s.now self.at) }
    {
        let at = self.at;
        if ends_at(s, at) {
            return Err(Refusal {
                fault: Fault::CutShort,
                place: s.len(),
            });
        }
        if !marked(s, at, m) {
            return Err(Refusal {
                fault: Fault::WrongMark,
                place: at,
            });
        }
        body(s, at, edition)
    }
}

// A good side: its tokens by inner codes, and the cursor behind it.
#[derive(Clone, Copy)]
pub struct SideRecord {
    pub codes: CodedSide,
    pub next: Cursor,
}

// "missing .. length byte 11; .. length out of its range 14; missing body 11; .. for a side 17"
#[tactic(auto, unfolding(paper::specs::Sheet::side_record))]
fn body(s: &[u8], at: usize, edition: Edition) -> Result<SideRecord, Refusal>
    requires { at + 2 ≤ length s.now }
    ensures { result ≡ side_of (side_record (paper_edition edition) s.now at) }
{
    let left = s.len() - at;
    if left < 3 {
        return Err(Refusal {
            fault: Fault::CutShort,
            place: s.len(),
        });
    }
    let len = s[at + 2] as usize;
    if SHEET_SIDE < len {
        return Err(Refusal {
            fault: Fault::WrongLength,
            place: at + 2,
        });
    }
    if left < 3 + len {
        return Err(Refusal {
            fault: Fault::CutShort,
            place: s.len(),
        });
    }
    let start = at + 3;
    let end = start + len;
    let side = &s[start..end];
    let tokens = leading_tokens(side, edition);
    if tokens < len {
        return Err(Refusal {
            fault: Fault::WrongToken,
            place: start + tokens,
        });
    }
    Ok(SideRecord {
        codes: codes_of(edition, side),
        next: Cursor { at: end },
    })
}

// "A token is 0 to 42 (a character) or 64 to 71 (field 0 to 7)", behind `ED` 0 to 127 or 192 to 199: by the code of its byte.
fn is_token(c: u8) -> bool
    ensures { result ≡ is_token c }
{
    let value = c as usize;
    value < CHARACTERS || (FIELD_CODE <= c && value < FIELD_CODE as usize + SHEET_FIELDS)
}

// How many stand before the first that is no token of the edition.
pub fn leading_tokens(side: &[u8], edition: Edition) -> usize
    ensures { result ≡ leading is_token (codes (paper_edition edition) side.now) }
{
    for (i, &byte) in side.iter().enumerate() {
        if !is_token(code(edition, byte)) {
            return i;
        }
    }
    side.len()
}
