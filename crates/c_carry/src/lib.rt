// Sheets, rules and catalogues carried over, in numbers: what a caller in another language is told.
#![tactic(auto)]

ghost use Rattle.std.specs.Prelude.{◌≡◌};
ghost use Rattle.paper_carry.specs.Spelling.{spelling, rule_spelling, carrying_over};
ghost use Rattle.carry_anew.specs.Anew.{spelt_numbers};
ghost use Rattle.c_tell.specs.ToldNumbers.{with_numbers};
ghost use Rattle.c_carry.specs.Carried.{telling_spelt};

use c_tell::tell;
use carry_anew::RewriteError;

// The sheet with 68 65 0 42 for every standing field without a pattern: the number; count (which is 0), place and written length go into the first
// three elements of `told`, as many as there is room for.
pub fn sheet(sheet: &[u8], out: &mut [u8], told: &mut [u64]) -> u32
    ensures number { result ≡ (spelling sheet.now out.old).number }
    ensures told { told.new ≡ telling_spelt told.old (spelling sheet.now out.old) }
    ensures out { out.new ≡ (spelling sheet.now out.old).out }
{
    let spelt = carry_open::sheet(sheet, out);
    tell_spelt(spelt, told)
}

// The rule of a catalogue likewise.
pub fn rule(rule: &[u8], out: &mut [u8], told: &mut [u64]) -> u32
    ensures number { result ≡ (rule_spelling rule.now out.old).number }
    ensures told { told.new ≡ telling_spelt told.old (rule_spelling rule.now out.old) }
    ensures out { out.new ≡ (rule_spelling rule.now out.old).out }
{
    let written = carry_open::rule(rule, out);
    tell_spelt(written, told)
}

// A whole catalogue, in its own buffer: the number.
pub fn catalogue(catalogue: &mut [u8]) -> u32
    ensures number { result ≡ (carrying_over catalogue.old).number }
    ensures catalogue { catalogue.new ≡ (carrying_over catalogue.old).catalogue }
{
    let carried = carry_open::catalogue(catalogue);
    carry_numbers::carried(carried) as u32
}

// What a sheet or a rule that was written anew is told as: the number, and the three elements.
pub fn tell_spelt(spelt: Result<usize, RewriteError>, told: &mut [u64]) -> u32
    ensures number { result ≡ (spelt_numbers spelt).number }
    ensures told { told.new ≡ with_numbers told.old 0 (spelt_numbers spelt).place (spelt_numbers spelt).written }
{
    let numbers = carry_numbers::in_numbers(spelt);
    tell(told, 0, numbers.place, numbers.written);
    numbers.number as u32
}
