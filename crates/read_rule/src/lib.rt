// A rule of a catalogue: from any bytes to the rule at their front, or to the first fault met with its place.
#![tactic(auto)]

ghost use Rattle.std.specs.Prelude.{◌≡◌, ◌||◌, ltb};
ghost use Rattle.paper.specs.Lists.{any};
ghost use Rattle.paper.specs.Numbers.{rule_fields};
ghost use Rattle.paper.specs.Rule.{rule_front, read_rule_before, read_rule};
ghost use Rattle.base_question.specs.StraysCoded.{first_of};
ghost use Rattle.read_rule.specs.RuleRead.{foreign_code, rule_bodies, rule_of, rule_with, rule_strays_coded};

use base_answers::{Fault, Refusal};
use base_codes::{CodedSide, FIELD_CODE, LONGEST_SIDE, NO_TOKEN, SHEET_FIELDS};
use base_editions::Edition;
use base_places::PlaceTables;
use base_question::{Body, mark_of};
use read_side::{Cursor, Mark};

// "its own fields, numbered 0 to 3"
pub const RULE_FIELDS: usize = 4;

// What a good rule says.
#[derive(Clone, Copy)]
pub struct Rule {
    // how many bytes its record has
    pub bytes: usize,
    // a pattern or a token of the side names a field above 3
    pub foreign: bool,
    // the side, by inner codes; it ends at its first 255
    pub side: CodedSide,
    // what is worked out of each field's pattern
    pub fields: [PlaceTables; SHEET_FIELDS],
    // where each field's pattern stands, from the rule's first byte on
    pub bodies: [Body; SHEET_FIELDS],
}

// A rule that nothing is read into yet. A macro, as what a function gives back lies in a place of its own before it is copied.
#[macro_export]
macro_rules! unread {
    () => {
        $crate::Rule {
            bytes: 0,
            foreign: false,
            side: [base_codes::NO_TOKEN; base_codes::LONGEST_SIDE],
            fields: [base_places::open_tables(); base_codes::SHEET_FIELDS],
            bodies: [base_question::Body { start: 0, length: 0 }; base_codes::SHEET_FIELDS],
        }
    };
}

// The rule at the front of the bytes: "the mark `RU`, the `PA` records of its own fields .. and one `LE`, its end as `RI` is a sheet's".
// "A rule never has `ED`": it is of the first edition.
pub fn front(s: &[u8]) -> Result<Rule, Refusal>
    ensures { result ≡ rule_of (rule_bodies s.now) (rule_front s.now) }
{
    let mut rule = unread!();
    front_into(s, &mut rule)?;
    Ok(rule)
}

// A rule by itself, then "22 .. its place from `RU`".
pub fn read(s: &[u8]) -> Result<Rule, Refusal>
    ensures { result ≡ rule_of (rule_bodies s.now) (read_rule s.now) }
{
    let mut rule = unread!();
    lay_alone(s, &mut rule)?;
    if let Some(f) = first_stray(rule.bodies, rule.side) {
        return Err(Refusal {
            fault: Fault::StrayPattern,
            place: mark_of(rule.bodies[f]),
        });
    }
    Ok(rule)
}

// By the rule before request K13, no check on strays.
pub fn read_before(s: &[u8]) -> Result<Rule, Refusal>
    ensures { result ≡ rule_of (rule_bodies s.now) (read_rule_before s.now) }
{
    let mut rule = unread!();
    lay_alone(s, &mut rule)?;
    Ok(rule)
}

// The rule at the front, into one that is lent: in a `Result` it would lie on the stack twice more while a pattern is read. A refused rule is of no use.
pub fn front_into(s: &[u8], rule: &mut Rule) -> Result<(), Refusal>
    ensures { rule_with result rule.new ≡ rule_of (rule_bodies s.now) (rule_front s.now) }
{
    if s.len() < 2 {
        return Err(Refusal {
            fault: Fault::CutShort,
            place: s.len(),
        });
    }
    let start = Cursor { at: 0 };
    if !start.next_is(s, Mark::RU) {
        return Err(Refusal {
            fault: Fault::WrongMark,
            place: 0,
        });
    }
    let patterns = read_fields::read(s, Cursor { at: 2 }, Edition::First, &mut rule.fields)?;
    let at_left = patterns.next.side(s, Mark::LE, Edition::First)?;
    let side = at_left.codes;
    let bodies = patterns.bodies;
    rule.bytes = at_left.next.at;
    rule.foreign = foreign(patterns.above, &side);
    rule.side = side;
    rule.bodies = bodies;
    Ok(())
}

// Behind it any byte left gives 12, as behind `RI`.
fn lay_alone(s: &[u8], rule: &mut Rule) -> Result<(), Refusal>
    ensures { rule_with result rule.new ≡ rule_of (rule_bodies s.now) (read_rule_before s.now) }
{
    front_into(s, rule)?;
    if rule.bytes < s.len() {
        return Err(Refusal {
            fault: Fault::WrongMark,
            place: rule.bytes,
        });
    }
    Ok(())
}

// The first field with a pattern that doesn't stand in the rule's side.
pub fn first_stray(bodies: [Body; SHEET_FIELDS], side: CodedSide) -> Option<usize>
    ensures { result ≡ first_of (rule_strays_coded bodies side) }
{
    base_question::first_stray(bodies, side, [NO_TOKEN; LONGEST_SIDE])
}

// "31 for a field above 3": does a pattern or a token of the side name one? Field numbers rise, so the last pattern's is the highest.
fn foreign(above: usize, side: &[u8]) -> bool
    ensures { result ≡ (ltb rule_fields above || any foreign_code side.now) }
{
    RULE_FIELDS < above || any_foreign(side)
}

// Does a token of the side name one?
fn any_foreign(side: &[u8]) -> bool
    ensures { result ≡ any foreign_code side.now }
{
    side.iter().any(|&b| is_foreign(b))
}

// Is it the inner code of a field above 3?
fn is_foreign(b: u8) -> bool
    ensures { result ≡ foreign_code b }
{
    FIELD_CODE + RULE_FIELDS as u8 <= b && b != NO_TOKEN
}
