// A sheet written out as a script for string solvers.
#![tactic(auto)]

mod memberships;

ghost use Rattle.std.specs.Prelude.{◌≡◌, ◌+◌, ◌≤◌, ◌<◌, not, eqb, length};
ghost use Rattle.paper.specs.Lists.{only};
ghost use Rattle.paper.specs.Numbers.{set_fields};
ghost use Rattle.paper.specs.Question as Paper;
ghost use Rattle.paper_script.specs.Script.{heading, script};
ghost use Rattle.paper_script.specs.Scripting.{scripting, ScriptPromised};
ghost use Rattle.base_put.specs.Counted.{Counted};
ghost use Rattle.base_editions.specs.Editions.{paper_edition};
ghost use Rattle.base_question.specs.Asked.{question_of};
ghost use Rattle.read_sheet.specs.SheetRead.{bodies_of};
ghost use Rattle.script_sheet.specs.declared.ScriptError.TheVariants.{Refused};
ghost use Rattle.script_sheet.specs.WrittenOut.{error_numbers, told_scripted, AsksIn, fields_lines, fields_counted, body_of, BodiesWithin};

use base_answers::{Numbers, Refusal, SCRIPT_TOO_SHORT};
use base_codes::{FIELDS, HIDDEN_LEFT, HIDDEN_RIGHT, SHEET_FIELDS};
use base_editions::Edition;
use base_put::put_all;
use base_question::{Body, Question};
use memberships::field_lines;

// Why a sheet is not written out.
#[derive(Clone, Copy)]
pub enum ScriptError {
    // 11 to 17, 22 and 44: the sheet is at fault
    Refused(Refusal),
    // 40: the output buffer is too short
    TooShort,
}

impl From<Refusal> for ScriptError {
    ghost from_gives = { λ r e. e ≡ Refused r };

    fn from(refusal: Refusal) -> ScriptError
        ensures { result ≡ Refused refusal }
    {
        ScriptError::Refused(refusal)
    }
}

// An error in numbers.
impl From<ScriptError> for Numbers {
    ghost from_gives = { λ e n. n ≡ error_numbers e };

    fn from(e: ScriptError) -> Numbers
        ensures { result ≡ error_numbers e }
    {
        match e {
            ScriptError::Refused(refusal) => Numbers::from(refusal),
            ScriptError::TooShort => Numbers::of_number(SCRIPT_TOO_SHORT),
        }
    }
}

// Writes the sheet out as a script: how many bytes of it stand in front of the buffer.
pub fn script(sheet: &[u8], out: &mut [u8]) -> Result<usize, ScriptError>
    ensures whole { told_scripted result out.new ≡ scripting sheet.now out.old }
    ensures promised { ScriptPromised sheet.now out.old (told_scripted result out.new) }
{
    let mut question = read_sheet::unread!();
    let edition = read_sheet::read_into(sheet, &mut question)?;
    let length = put_script(&mut out[0..0], edition, sheet, &question);
    if out.len() < length {
        return Err(ScriptError::TooShort);
    }
    Ok(put_script(out, edition, sheet, &question))
}

// The script of a good sheet, which asks this: as far as there is room, and how long it is.
fn put_script(out: &mut [u8], edition: Edition, sheet: &[u8], question: &Question) -> usize
    requires { BodiesWithin sheet.now question.now.bodies }
    ensures { (q : Paper.Question) → AsksIn (paper_edition edition) sheet.now q → question.now ≡ question_of q (bodies_of sheet.now) → Counted out.old out.new 0 result (script q) }
{
    let left = question.left;
    let right = question.right;
    let bodies = question.bodies;
    let all_left = search_hidden::side(left, HIDDEN_LEFT);
    let all_right = search_hidden::side(right, HIDDEN_RIGHT);
    let counts = base_question::standings(all_left, all_right);
    let begun = put_heading(out, 0);
    let end = put_fields(out, begun, edition, sheet, bodies, counts);
    script_equation::equation(out, end, edition, left, right)
}

fn put_heading(out: &mut [u8], at: usize) -> usize
    ensures { Counted out.old out.new at result heading }
{
    let first = put_all(
        out,
        at,
        b"; Do two label rules clash? sat: they do. unsat: they don't.\n",
    );
    let second = put_all(
        out,
        first,
        b"; Fields 8 and 9 are the spaces at the end of the left and the right label.\n",
    );
    put_all(out, second, b"(set-logic QF_S)\n")
}

// The lines of a field, if it stands.
fn put_field(
    out: &mut [u8],
    at: usize,
    edition: Edition,
    sheet: &[u8],
    f: usize,
    body: Body,
    count: usize,
) -> usize
    requires { (f < set_fields) × (body.start + body.length ≤ length sheet.now) }
    ensures { (q : Paper.Question) → AsksIn (paper_edition edition) sheet.now q → body ≡ body_of (bodies_of sheet.now) f → Counted out.old out.new at result (fields_lines (paper_edition edition) q (only (not (eqb count 0)) f)) }
{
    if count == 0 {
        return at;
    }
    field_lines(out, at, edition, sheet, f, body)
}

// Where the pattern of a field stands. A hidden field has none in the sheet.
fn body_of(bodies: [Body; SHEET_FIELDS], f: usize) -> Body
    ensures { result ≡ body_of bodies f }
{
    if f < SHEET_FIELDS {
        let body = bodies[f];
        return body;
    }
    Body {
        start: 0,
        length: 0,
    }
}

// Those of each field that stands.
fn put_fields(
    out: &mut [u8],
    at: usize,
    edition: Edition,
    sheet: &[u8],
    bodies: [Body; SHEET_FIELDS],
    counts: [usize; FIELDS],
) -> usize
    requires { BodiesWithin sheet.now bodies }
    ensures { (q : Paper.Question) → AsksIn (paper_edition edition) sheet.now q → bodies ≡ bodies_of sheet.now → Counted out.old out.new at result (fields_lines (paper_edition edition) q (fields_counted counts)) }
{
    let mut end = at;
    for f in 0..FIELDS {
        let body = body_of(bodies, f);
        end = put_field(out, end, edition, sheet, f, body, counts[f]);
    }
    end
}
