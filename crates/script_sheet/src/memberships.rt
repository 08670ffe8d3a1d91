// The lines of a field: which it is, its constant, its membership.
ghost use Rattle.std.specs.Prelude.{◌≡◌, ◌∷◌, ◌+◌, ◌≤◌, ◌<◌, length};
ghost use Rattle.paper.specs.Numbers.{set_fields};
ghost use Rattle.paper.specs.Question.{Question, held_by, hidden};
ghost use Rattle.paper_script.specs.Script.{expression_of, field_lines, digit};
ghost use Rattle.base_put.specs.Counted.{Counted};
ghost use Rattle.base_editions.specs.Editions.{paper_edition};
ghost use Rattle.read_sheet.specs.SheetRead.{bodies_of};
ghost use Rattle.script_sheet.specs.WrittenOut.{AsksIn, some_bytes, spaces_bytes, body_of};

use base_codes::SHEET_FIELDS;
use base_editions::Edition;
use base_put::{put, put_all};
use base_question::Body;

// One character of all, then any number of them: what an open field may hold
const SOME_OF_43: [u8; 8] = [66, 65, 0, 42, 68, 65, 0, 42];

const SOME_OF_128: [u8; 8] = [194, 193, 0, 127, 196, 193, 0, 127];

fn some_characters(edition: Edition) -> [u8; 8]
    ensures { result ≡ some_bytes (paper_edition edition) }
{
    match edition {
        Edition::First => SOME_OF_43,
        Edition::Second => SOME_OF_128,
    }
}

// and any number of the space: what a hidden field may hold
const SPACES_OF_43: [u8; 2] = [68, 38];

const SPACES_OF_128: [u8; 2] = [196, 32];

fn any_spaces(edition: Edition) -> [u8; 2]
    ensures { result ≡ spaces_bytes (paper_edition edition) }
{
    match edition {
        Edition::First => SPACES_OF_43,
        Edition::Second => SPACES_OF_128,
    }
}

// The expression of what a field may hold, whose pattern stands there.
fn held(out: &mut [u8], at: usize, edition: Edition, sheet: &[u8], f: usize, body: Body) -> usize
    requires { (f < set_fields) × (body.start + body.length ≤ length sheet.now) }
    ensures { (q : Question) → AsksIn (paper_edition edition) sheet.now q → body ≡ body_of (bodies_of sheet.now) f → Counted out.old out.new at result (expression_of (paper_edition edition) (held_by (hidden q) f)) }
{
    if SHEET_FIELDS <= f {
        let code = any_spaces(edition);
        return script_terms::expression(out, at, edition, &code[0..2]);
    }
    let start = body.start;
    let length = body.length;
    if length == 0 {
        let code = some_characters(edition);
        return script_terms::expression(out, at, edition, &code[0..8]);
    }
    script_terms::expression(out, at, edition, &sheet[start..start + length])
}

// The field's digit, and bytes behind it.
fn digit_and(out: &mut [u8], at: usize, f: usize, bytes: &[u8]) -> usize
    requires { f < set_fields }
    ensures { Counted out.old out.new at result (digit f ∷ bytes.now) }
{
    let behind = put(out, at, b'0' + f as u8);
    put_all(out, behind, bytes)
}

// A comment that says which field it is, the constant, its membership.
pub fn field_lines(
    out: &mut [u8],
    at: usize,
    edition: Edition,
    sheet: &[u8],
    f: usize,
    body: Body,
) -> usize
    requires { (f < set_fields) × (body.start + body.length ≤ length sheet.now) }
    ensures { (q : Question) → AsksIn (paper_edition edition) sheet.now q → body ≡ body_of (bodies_of sheet.now) f → Counted out.old out.new at result (field_lines (paper_edition edition) f (held_by (hidden q) f)) }
{
    let comment = put_all(out, at, b"; field ");
    let declared = digit_and(out, comment, f, b"\n(declare-const f");
    let asserted = digit_and(out, declared, f, b" String)\n(assert (str.in_re f");
    let named = digit_and(out, asserted, f, b" ");
    let behind = held(out, named, edition, sheet, f, body);
    put_all(out, behind, b"))\n")
}
