// Stray patterns taken out of old sheets, rules and catalogues (request K13): read "by the old rule", and written without the patterns of fields that
// stand in neither side, "`ED` and everything else byte for byte as it was".
#![tactic(auto)]

ghost use Rattle.std.specs.Prelude.{◌≡◌};
ghost use Rattle.paper_strays.specs.Dropping.{dropping, rule_dropping, catalogue_dropping, DropPromised, RuleDropPromised, CatalogueDropPromised};
ghost use Rattle.carry_anew.specs.Anew.{told_spelt};
ghost use Rattle.carry_strays.specs.StraysDropped.{told_dropped};

use carry_anew::RewriteError;
use carry_put::{no_bytes, put_rules};
use carry_records::Change;

// The buffer is no catalogue: 34.
#[derive(Clone, Copy)]
pub struct NoCatalogue;

// Writes the sheet, in its edition, without its stray patterns.
pub fn sheet(sheet: &[u8], out: &mut [u8]) -> Result<usize, RewriteError>
    ensures whole { told_spelt result out.new ≡ dropping sheet.now out.old }
    ensures promised { DropPromised sheet.now out.old (told_spelt result out.new) }
{
    let read = read_sheet::read_before(sheet);
    carry_anew::sheet(sheet, read, Change::Drop, out)
}

// Writes the rule likewise.
pub fn rule(rule: &[u8], out: &mut [u8]) -> Result<usize, RewriteError>
    ensures whole { told_spelt result out.new ≡ rule_dropping rule.now out.old }
    ensures promised { RuleDropPromised rule.now out.old (told_spelt result out.new) }
{
    let read = read_rule::read_before(rule);
    carry_anew::rule(rule, read, Change::Drop, out)
}

// Takes the strays out of every rule of the catalogue, in its own buffer. The new records are put before zeros, and as many bytes as the old ones had
// are copied: "the freed bytes at the end are zero".
pub fn catalogue(catalogue: &mut [u8]) -> Result<(), NoCatalogue>
    ensures whole { told_dropped result catalogue.new ≡ catalogue_dropping catalogue.old }
    ensures promised { CatalogueDropPromised catalogue.old (told_dropped result catalogue.new) }
{
    let Some(kept) = catalogue_form::find_before(catalogue) else {
        return Err(NoCatalogue);
    };
    let mut bytes = no_bytes();
    put_rules(&mut bytes, catalogue, kept.rules, Change::Drop);
    let used = kept.used;
    catalogue_bytes::put(catalogue, 0, &bytes[0..used]);
    Ok(())
}
