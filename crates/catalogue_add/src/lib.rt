// A catalogue of label rules in one lent buffer: a rule goes in only if it clashes with none that is there.
#![tactic(auto)]

ghost use Rattle.std.specs.Prelude.{◌≡◌};
ghost use Rattle.paper_catalogue.specs.PairAsking.{by_search};
ghost use Rattle.paper_catalogue.specs.Catalogue.{adding, adding_by, withdrawing};
ghost use Rattle.paper_catalogue_decide.specs.DecidedPairs.{adding_decided};
ghost use Rattle.catalogue_question.specs.AskedBy.{asking_coded};
ghost use Rattle.catalogue_add.specs.Addition.{told_added, search_of, told_added_by, told_withdrawn, full_of, ReadyToAsk, Ready, PairsAsked};
ghost use Rattle.catalogue_add.specs.declared.AddError.TheVariants.{Refused, NotApart};

use base_answers::Refusal;
use catalogue_form::{CATALOGUE_RULES, Kept};
use catalogue_question::{Asking, Pair};
use read_rule::Rule;

// Why a rule is not entered. specs/Addition.antt gives each its number, count, place, rule's number, pair's answer and search.
#[derive(Clone, Copy)]
pub enum AddError {
    // 11 to 17 and 22: the rule is at fault
    Refused(Refusal),
    // 30: its pair with a rule present is not answered 1
    NotApart(NotApart),
    // 31: it names a field above 3
    ForeignField,
    // 32: 32 rules stand, or its bytes don't fit
    Full,
    // 34: the buffer is no catalogue
    NoCatalogue,
}

// The number of the first rule whose pair with a new one is not answered 1, and that pair.
#[derive(Clone, Copy)]
pub struct NotApart {
    pub rule: usize,
    pub pair: Pair,
}

impl From<Refusal> for AddError {
    ghost from_gives = { λ refusal error. error ≡ Refused refusal };

    fn from(refusal: Refusal) -> AddError {
        AddError::Refused(refusal)
    }
}

impl From<NotApart> for AddError {
    ghost from_gives = { λ clash error. error ≡ NotApart clash };

    fn from(clash: NotApart) -> AddError {
        AddError::NotApart(clash)
    }
}

// Why a rule is not withdrawn.
#[derive(Clone, Copy)]
pub enum WithdrawError {
    // 33: no rule has that number
    NoRule,
    // 34: the buffer is no catalogue
    NoCatalogue,
}

// Enters a rule behind the last one if its pair with every rule present is answered 1.
pub fn add(catalogue: &mut [u8], bytes: &[u8], work: &mut [u8]) -> Result<(), AddError>
    ensures added { told_added result catalogue.new work.new ≡ adding catalogue.old bytes.now work.old }
    ensures search { search_of result ≡ (adding_by by_search catalogue.old bytes.now work.old).search }
{
    add_by(Asking::Search, catalogue, bytes, work)
}

// As `add`, "but a pair is asked as `decide` asks".
// Kept: (a) both are called for C, with a clause each (`adding`, `adding_decided`), and are one call of `add_by`.
pub fn add_decided(catalogue: &mut [u8], bytes: &[u8], work: &mut [u8]) -> Result<(), AddError>
    ensures { told_added_by result catalogue.new work.new ≡ adding_decided catalogue.old bytes.now work.old }
{
    add_by(Asking::Decide, catalogue, bytes, work)
}

fn add_by(how: Asking, catalogue: &mut [u8], bytes: &[u8], work: &mut [u8]) -> Result<(), AddError>
    ensures { told_added_by result catalogue.new work.new ≡ adding_by (asking_coded how) catalogue.old bytes.now work.old }
{
    let Some(kept) = catalogue_form::find(catalogue) else {
        return Err(AddError::NoCatalogue);
    };
    let new = read_rule::read(bytes)?;
    if new.foreign {
        return Err(AddError::ForeignField);
    }
    if is_full(&kept, bytes.len(), catalogue.len()) {
        return Err(AddError::Full);
    }
    enter(how, catalogue, &kept, bytes, &new, work)
}

// "32 if 32 rules stand or the record's bytes don't fit"
fn is_full(kept: &Kept, bytes: usize, room: usize) -> bool
    ensures { result ≡ full_of kept.now bytes room }
{
    CATALOGUE_RULES <= kept.rules || room < bytes || room - bytes < kept.used
}

// "A new rule is entered exactly if its pair with every rule present gives answer 1."
fn enter(
    how: Asking,
    catalogue: &mut [u8],
    kept: &Kept,
    bytes: &[u8],
    new: &Rule,
    work: &mut [u8],
) -> Result<(), AddError>
    requires { Ready catalogue.old bytes.now kept.now new.now }
    ensures { told_added_by result catalogue.new work.new ≡ adding_by (asking_coded how) catalogue.old bytes.now work.old }
{
    ask_all(how, catalogue, kept, bytes, new, work)?;
    catalogue_bytes::put(catalogue, kept.used, bytes);
    Ok(())
}

// Asks the pairs of the rules present with a new one, by rising number, up to the first that is not answered 1.
fn ask_all(
    how: Asking,
    catalogue: &[u8],
    kept: &Kept,
    bytes: &[u8],
    new: &Rule,
    work: &mut [u8],
) -> Result<(), NotApart>
    requires { ReadyToAsk catalogue.now bytes.now kept.now new.now }
    ensures { (x : ReadyToAsk catalogue.now bytes.now kept.now new.now) → PairsAsked (asking_coded how) x.standing.rules_present x.rule work.old work.new result }
{
    for i in 0..kept.rules {
        let at = kept.begins[i];
        let present = catalogue_form::rule_at(catalogue, at).unwrap();
        let pair = catalogue_pair::ask(how, &present, new, &catalogue[at..], bytes, work);
        if !catalogue_question::is_apart(pair) {
            return Err(NotApart { rule: i, pair });
        }
    }
    Ok(())
}

// Withdraws the rule with this number: "withdrawing closes the gap".
pub fn withdraw(catalogue: &mut [u8], number: usize) -> Result<(), WithdrawError>
    ensures { told_withdrawn result catalogue.new ≡ withdrawing catalogue.old number }
{
    let Some(kept) = catalogue_form::find(catalogue) else {
        return Err(WithdrawError::NoCatalogue);
    };
    if kept.rules <= number {
        return Err(WithdrawError::NoRule);
    }
    let at = kept.begins[number];
    let next = kept.begins[number + 1];
    catalogue_bytes::close(catalogue, at, next - at);
    Ok(())
}
