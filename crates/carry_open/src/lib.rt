// Old sheets, rules and catalogues carried over: "Sheets and catalogue rules that relied on the old meaning must carry 68 65 0 42 written out", behind
// `ED` "196 193 0 127" (request K10).
#![tactic(auto)]

ghost use Rattle.std.specs.Prelude.{◌≡◌};
ghost use Rattle.paper_carry.specs.Spelling.{spelling, rule_spelling, carrying_over, CarryPromised, RulePromised, CataloguePromised};
ghost use Rattle.carry_anew.specs.Anew.{told_spelt};
ghost use Rattle.carry_open.specs.CarriedOver.{told_carried};

use base_editions::Edition;
use carry_anew::RewriteError;
use carry_put::{no_bytes, put_rules};
use carry_records::Change;

// Why a catalogue is not carried over in its own buffer.
#[derive(Clone, Copy)]
pub enum CarryError {
    // 32: the records would no longer fit
    Full,
    // 34: the buffer is no catalogue
    NoCatalogue,
}

// Kept: (a) `carry_strays` has these three with another reader and another change: each has its own theorem (`CarryPromised`, `DropPromised` and those of
// a rule and of a catalogue), and what they share is in `carry_anew` and `carry_put`.
// Writes the sheet, in its edition, with 68 65 0 42, behind `ED` 196 193 0 127, for every standing field without a pattern.
pub fn sheet(sheet: &[u8], out: &mut [u8]) -> Result<usize, RewriteError>
    ensures whole { told_spelt result out.new ≡ spelling sheet.now out.old }
    ensures promised { CarryPromised sheet.now out.old (told_spelt result out.new) }
{
    let read = read_sheet::read(sheet);
    let edition = read.as_ref().map_or(Edition::First, |sheet| sheet.edition);
    carry_anew::sheet(sheet, read, Change::Open(edition), out)
}

// Writes the rule likewise.
pub fn rule(rule: &[u8], out: &mut [u8]) -> Result<usize, RewriteError>
    ensures whole { told_spelt result out.new ≡ rule_spelling rule.now out.old }
    ensures promised { RulePromised rule.now out.old (told_spelt result out.new) }
{
    let read = read_rule::read(rule);
    carry_anew::rule(rule, read, Change::Open(Edition::First), out)
}

// Carries every rule of the catalogue over, in its own buffer.
pub fn catalogue(catalogue: &mut [u8]) -> Result<(), CarryError>
    ensures whole { told_carried result catalogue.new ≡ carrying_over catalogue.old }
    ensures promised { CataloguePromised catalogue.old (told_carried result catalogue.new) }
{
    let Some(kept) = catalogue_form::find(catalogue) else {
        return Err(CarryError::NoCatalogue);
    };
    let mut bytes = no_bytes();
    let n = put_rules(
        &mut bytes,
        catalogue,
        kept.rules,
        Change::Open(Edition::First),
    );
    if catalogue.len() < n {
        return Err(CarryError::Full);
    }
    catalogue_bytes::put(catalogue, 0, &bytes[0..n]);
    Ok(())
}
