// The catalogue's answers in numbers: what a caller in another language is told.
#![tactic(auto)]

ghost use Rattle.std.specs.Prelude.{◌≡◌};
ghost use Rattle.paper_catalogue.specs.Catalogue.{adding, withdrawing};
ghost use Rattle.paper_catalogue.specs.Recheck.{rechecking};
ghost use Rattle.c_catalogue.specs.Catalogued.{telling_numbers, telling_added, telling_totals, telling_rechecked};

use c_tell::{put, tell};
use catalogue_numbers::{Numbers, Totals};

// Enters a rule behind the last one, if its pair with every rule present is answered 1: the number; count, place, the rule's number and the pair's
// answer go into the first four elements of `told`, as many as there is room for.
pub fn add(catalogue: &mut [u8], rule: &[u8], work: &mut [u8], told: &mut [u64]) -> u32
    ensures number { result ≡ (adding catalogue.old rule.now work.old).number }
    ensures told { told.new ≡ telling_added told.old (adding catalogue.old rule.now work.old) }
    ensures catalogue { catalogue.new ≡ (adding catalogue.old rule.now work.old).catalogue }
    ensures work { work.new ≡ (adding catalogue.old rule.now work.old).work }
{
    let added = catalogue_add::add(catalogue, rule, work);
    let numbers = Numbers::from(added);
    tell_added(told, numbers);
    numbers.number as u32
}

// Count, place, the rule's number and the pair's answer.
pub fn tell_added(told: &mut [u64], numbers: Numbers)
    ensures { told.new ≡ telling_numbers told.old numbers }
{
    tell(told, numbers.count, numbers.place, numbers.rule);
    put(told, 3, numbers.answer);
}

// Withdraws the rule with this number and closes the gap: the number of the answer.
pub fn withdraw(catalogue: &mut [u8], number: usize) -> u32
    ensures number { result ≡ (withdrawing catalogue.old number).number }
    ensures catalogue { catalogue.new ≡ (withdrawing catalogue.old number).catalogue }
{
    let withdrawn = catalogue_add::withdraw(catalogue, number);
    catalogue_numbers::withdrawn(withdrawn) as u32
}

// Lists the pairs that are not answered 1: the number; how many they are and how many bytes they have go into the first two elements of `told`, as
// many as there is room for.
pub fn recheck(catalogue: &[u8], work: &mut [u8], list: &mut [u8], told: &mut [u64]) -> u32
    ensures number { result ≡ (rechecking catalogue.now work.old list.old).number }
    ensures told { told.new ≡ telling_rechecked told.old (rechecking catalogue.now work.old list.old) }
    ensures list { list.new ≡ (rechecking catalogue.now work.old list.old).list }
    ensures work { work.new ≡ (rechecking catalogue.now work.old list.old).work }
{
    let rechecked = catalogue_recheck::recheck(catalogue, work, list);
    let totals = Totals::from(rechecked);
    tell_rechecked(told, totals);
    totals.number as u32
}

// How many pairs are listed, and how many bytes they have.
pub fn tell_rechecked(told: &mut [u64], totals: Totals)
    ensures { told.new ≡ telling_totals told.old totals }
{
    put(told, 0, totals.pairs);
    put(told, 1, totals.written);
}
