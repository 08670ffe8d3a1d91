// Sheets, rules and catalogues without their stray patterns, in numbers: what a caller in another language is told.
#![tactic(auto)]

ghost use Rattle.std.specs.Prelude.{◌≡◌};
ghost use Rattle.paper_strays.specs.Dropping.{dropping, rule_dropping, catalogue_dropping};
ghost use Rattle.c_carry.specs.Carried.{telling_spelt};

use c_carry::tell_spelt;

// The sheet without its stray patterns: the number; count (which is 0), place and written length go into the first three elements of `told`, as many
// as there is room for.
pub fn sheet(sheet: &[u8], out: &mut [u8], told: &mut [u64]) -> u32
    ensures number { result ≡ (dropping sheet.now out.old).number }
    ensures told { told.new ≡ telling_spelt told.old (dropping sheet.now out.old) }
    ensures out { out.new ≡ (dropping sheet.now out.old).out }
{
    let kept = carry_strays::sheet(sheet, out);
    tell_spelt(kept, told)
}

// The rule of a catalogue likewise.
pub fn rule(rule: &[u8], out: &mut [u8], told: &mut [u64]) -> u32
    ensures number { result ≡ (rule_dropping rule.now out.old).number }
    ensures told { told.new ≡ telling_spelt told.old (rule_dropping rule.now out.old) }
    ensures out { out.new ≡ (rule_dropping rule.now out.old).out }
{
    let its = carry_strays::rule(rule, out);
    tell_spelt(its, told)
}

// A whole catalogue, in its own buffer: the number.
pub fn catalogue(catalogue: &mut [u8]) -> u32
    ensures number { result ≡ (catalogue_dropping catalogue.old).number }
    ensures catalogue { catalogue.new ≡ (catalogue_dropping catalogue.old).catalogue }
{
    let dropped = carry_strays::catalogue(catalogue);
    carry_numbers::dropped(dropped) as u32
}
