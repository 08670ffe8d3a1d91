// The question sheet: from any bytes to the question, or to the first fault met with its place.
#![tactic(auto)]

ghost use Rattle.std.specs.Prelude.{◌≡◌};
ghost use Rattle.paper.specs.Sheet.{edition_front, read_before, read_sheet};
ghost use Rattle.read_sheet.specs.SheetRead.{bodies_of, front_of, sheet_of, sheet_with};

use base_answers::{Fault, Refusal};
use base_editions::{Edition, alphabet_of};
use base_question::{Question, first_stray, mark_of};
use read_side::{Cursor, Mark};

// What a good sheet says: its edition, and what it asks.
#[derive(Clone, Copy)]
pub struct Sheet {
    pub edition: Edition,
    pub question: Question,
}

// What a sheet begins with: its edition, and the cursor behind it.
#[derive(Clone, Copy)]
struct Front {
    edition: Edition,
    next: Cursor,
}

// A question that nothing is read into yet. A macro, as what a function gives back lies in a place of its own before it is copied.
#[macro_export]
macro_rules! unread {
    () => {
        base_question::Question {
            alphabet: base_editions::alphabet_of(base_editions::Edition::First),
            left: [base_codes::NO_TOKEN; base_codes::LONGEST_SIDE],
            right: [base_codes::NO_TOKEN; base_codes::LONGEST_SIDE],
            fields: [base_places::open_tables(); base_codes::SHEET_FIELDS],
            bodies: [base_question::Body { start: 0, length: 0 }; base_codes::SHEET_FIELDS],
        }
    };
}

// Reads a sheet, in one walk, then the check on strays: "22, with the place of the first stray record's mark", behind all other checks.
pub fn read(s: &[u8]) -> Result<Sheet, Refusal>
    ensures { result ≡ sheet_of (bodies_of s.now) (read_sheet s.now) }
{
    let mut question = unread!();
    let edition = read_into(s, &mut question)?;
    Ok(Sheet { edition, question })
}

// The same into a question that is lent: in a `Result` it would lie on the stack twice more. The edition; a refused sheet's question is of no use.
pub fn read_into(s: &[u8], question: &mut Question) -> Result<Edition, Refusal>
    ensures { sheet_with result question.new ≡ sheet_of (bodies_of s.now) (read_sheet s.now) }
{
    let edition = lay(s, question)?;
    if let Some(f) = first_stray(question.bodies, question.left, question.right) {
        return Err(Refusal {
            fault: Fault::StrayPattern,
            place: mark_of(question.bodies[f]),
        });
    }
    Ok(edition)
}

// By the rule before request K13: no check on strays.
pub fn read_before(s: &[u8]) -> Result<Sheet, Refusal>
    ensures { result ≡ sheet_of (bodies_of s.now) (read_before s.now) }
{
    let mut question = unread!();
    let edition = lay(s, &mut question)?;
    Ok(Sheet { edition, question })
}

// "no, one or several `PA`, field numbers rising; one `LE`; one `RI`; the end", and before them the sheet's edition.
fn lay(s: &[u8], question: &mut Question) -> Result<Edition, Refusal>
    ensures { sheet_with result question.new ≡ sheet_of (bodies_of s.now) (read_before s.now) }
{
    let front = edition_front(s)?;
    let edition = front.edition;
    let patterns = read_fields::read(s, front.next, edition, &mut question.fields)?;
    let at_left = patterns.next.side(s, Mark::LE, edition)?;
    let at_right = at_left.next.side(s, Mark::RI, edition)?;
    let end = at_right.next.at;
    if end < s.len() {
        return Err(Refusal {
            fault: Fault::WrongMark,
            place: end,
        });
    }
    let left = at_left.codes;
    let right = at_right.codes;
    let bodies = patterns.bodies;
    question.alphabet = alphabet_of(edition);
    question.left = left;
    question.right = right;
    question.bodies = bodies;
    Ok(edition)
}

// "A sheet may begin with the record `ED` and the byte 2. .. 11 for the missing byte, then 44 for an edition byte other than 2, its place that byte."
#[tactic(auto, unfolding(paper::specs::Sheet::edition_front))]
fn edition_front(s: &[u8]) -> Result<Front, Refusal>
    ensures { result ≡ front_of (edition_front s.now) }
{
    let begin = Cursor { at: 0 };
    if !begin.next_is(s, Mark::ED) {
        return Ok(Front {
            edition: Edition::First,
            next: begin,
        });
    }
    if s.len() < 3 {
        return Err(Refusal {
            fault: Fault::CutShort,
            place: s.len(),
        });
    }
    if s[2] != 2 {
        return Err(Refusal {
            fault: Fault::WrongEdition,
            place: 2,
        });
    }
    Ok(Front {
        edition: Edition::Second,
        next: Cursor { at: 3 },
    })
}
