// The form of a catalogue: "Records stand one behind the other from the buffer's start, then zero bytes."
#![tactic(auto)]

ghost use Rattle.std.specs.Prelude.{◌≡◌, false, drop};
ghost use Rattle.paper_catalogue.specs.Catalogue.{all_zero, form_by, form, form_before};
ghost use Rattle.catalogue_form.specs.Kept.{no_begins, unfit_by, unfit_coded, front_bytes, kept_of, rule_there};

use base_answers::Refusal;
use read_rule::Rule;

// "a catalogue of up to 32 rules"
pub const CATALOGUE_RULES: usize = 32;

// Where each of them begins, and where the last one ends.
pub const BEGINS: usize = CATALOGUE_RULES + 1;

// What stands in a catalogue.
#[derive(Clone, Copy)]
pub struct Kept {
    // how many rules stand, and how many bytes their records have
    pub rules: usize,
    pub used: usize,
    // where the rule with each number begins; the number of rules has the end of the last one, those above it 0
    pub begins: [usize; BEGINS],
}

// Reads a catalogue; none where the buffer is not of this form.
pub fn find(catalogue: &[u8]) -> Option<Kept>
    ensures { result ≡ kept_of (form catalogue.now) }
{
    find_by(catalogue, true)
}

// By the rule before request K13: its rules may have stray patterns.
pub fn find_before(catalogue: &[u8]) -> Option<Kept>
    ensures { result ≡ kept_of (form_before catalogue.now) }
{
    find_by(catalogue, false)
}

// In one pass: its rules, and where each begins.
// Kept: (d) a switch between the two rules; a closure over what was read would have to promise what the two tests of `is_unfit` say, and is no plainer.
fn find_by(catalogue: &[u8], strict: bool) -> Option<Kept>
    ensures { result ≡ kept_of (form_by (unfit_by strict) catalogue.now) }
{
    let mut begins = no_begins();
    let mut rules = 0;
    let mut used = 0;
    while !is_zero(&catalogue[used..]) {
        let next = front_bytes(&catalogue[used..], rules, strict)?;
        used += next;
        rules += 1;
        begins[rules] = used;
    }
    Some(Kept {
        rules,
        used,
        begins,
    })
}

fn no_begins() -> [usize; BEGINS]
    ensures { result ≡ no_begins }
{
    [0; BEGINS]
}

// Are all of these zero?
fn is_zero(s: &[u8]) -> bool
    ensures { result ≡ all_zero s.now }
{
    s.iter().all(|&b| b == 0)
}

// How many bytes the rule at the front has, if it is not unfit and one may stand behind so many.
fn front_bytes(s: &[u8], rules: usize, strict: bool) -> Option<usize>
    ensures { result ≡ front_bytes (unfit_by strict) rules s.now }
{
    if CATALOGUE_RULES <= rules {
        return None;
    }
    let mut rule = read_rule::unread!();
    let Ok(()) = read_rule::front_into(s, &mut rule) else {
        return None;
    };
    if is_unfit(strict, &rule) {
        return None;
    }
    Some(rule.bytes)
}

// May the rule not stand? It names a field above 3; or, where that is asked, it has a stray pattern.
fn is_unfit(strict: bool, rule: &Rule) -> bool
    ensures { result ≡ unfit_coded strict rule.now }
{
    rule.foreign || (strict && read_rule::first_stray(rule.bodies, rule.side).is_some())
}

// The rule that begins at the offset; behind the end there is none, and it is cut short.
pub fn rule_at(catalogue: &[u8], at: usize) -> Result<Rule, Refusal>
    ensures { result ≡ rule_there (drop at catalogue.now) }
{
    read_rule::front(catalogue.get(at..).unwrap_or(&[]))
}
