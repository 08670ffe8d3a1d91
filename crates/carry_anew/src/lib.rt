// A sheet and a rule written anew into a lent buffer, each record changed by whether its field stands, by what was read of them.
#![tactic(auto)]

ghost use Rattle.std.specs.Prelude.{◌≡◌, ◌≤◌, length};
ghost use Rattle.paper.specs.Rule as Paper;
ghost use Rattle.paper.specs.Sheet.{Records, Reading};
ghost use Rattle.paper_carry.specs.Spelling.{put_into};
ghost use Rattle.base_editions.specs.Editions.{paper_edition};
ghost use Rattle.base_put.specs.Counted.{last_place};
ghost use Rattle.carry_put.specs.Putting.{records_from, put_whole};
ghost use Rattle.carry_anew.specs.Anew.{told_spelt, sheet_rewritten, SheetRead, rule_rewritten, RuleRead};
ghost use Rattle.carry_anew.specs.declared.RewriteError.TheVariants.{Refused};

use base_answers::Refusal;
use base_codes::{FIELDS, SHEET_FIELDS};
use base_editions::Edition;
use base_question::Body;
use carry_put::{RULE_MARK, put_whole, rule_counts};
use carry_records::Change;
use read_rule::Rule;
use read_sheet::Sheet;

// Why a sheet or a rule is not written anew. specs/Anew.antt gives each its numbers.
#[derive(Clone, Copy)]
pub enum RewriteError {
    // 11 to 17, 22 and 44: the sheet or the rule is at fault
    Refused(Refusal),
    // 31: the rule names a field above 3
    ForeignField,
    // 41: the output buffer is too short
    TooShort,
}

impl From<Refusal> for RewriteError {
    ghost from_gives = { λ refusal error. error ≡ Refused refusal };

    fn from(refusal: Refusal) -> RewriteError {
        RewriteError::Refused(refusal)
    }
}

// A sheet of which this was read, in the edition that it has: how many bytes stand in front of the buffer.
pub fn sheet(
    sheet: &[u8],
    read: Result<Sheet, Refusal>,
    change: Change,
    out: &mut [u8],
) -> Result<usize, RewriteError>
    ensures { (x : Reading) → SheetRead change sheet.now x read → told_spelt result out.new ≡ sheet_rewritten change x out.old }
{
    let read = read?;
    let question = read.question;
    let counts = base_question::standings(question.left, question.right);
    let from = records_from(read.edition);
    write_out(sheet, from, question.bodies, counts, change, out)
}

// A rule of which this was read.
pub fn rule(
    rule: &[u8],
    read: Result<Rule, Refusal>,
    change: Change,
    out: &mut [u8],
) -> Result<usize, RewriteError>
    ensures { (x : Records Paper.Rule) → RuleRead change rule.now x read → told_spelt result out.new ≡ rule_rewritten change x out.old }
{
    let read = read?;
    if read.foreign {
        return Err(RewriteError::ForeignField);
    }
    let counts = rule_counts(read.side);
    write_out(rule, RULE_MARK, read.bodies, counts, change, out)
}

// Where the records of a sheet begin: behind `ED` and its byte.
fn records_from(edition: Edition) -> usize
    ensures { result ≡ records_from (paper_edition edition) }
{
    match edition {
        Edition::First => 0,
        Edition::Second => 3,
    }
}

// Puts them into the buffer, if they fit.
fn write_out(
    s: &[u8],
    from: usize,
    bodies: [Body; SHEET_FIELDS],
    counts: [usize; FIELDS],
    change: Change,
    out: &mut [u8],
) -> Result<usize, RewriteError>
    ensures { length (put_whole change s.now from bodies counts) ≤ last_place → told_spelt result out.new ≡ put_into (put_whole change s.now from bodies counts) out.old }
{
    let length = put_whole(&mut out[0..0], 0, s, from, bodies, counts, change);
    if out.len() < length {
        return Err(RewriteError::TooShort);
    }
    let bytes = put_whole(out, 0, s, from, bodies, counts, change);
    Ok(bytes)
}
