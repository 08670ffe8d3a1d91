// The answers of a catalogue that decides, in numbers: what a caller in another language is told.
#![tactic(auto)]

ghost use Rattle.std.specs.Prelude.{◌≡◌};
ghost use Rattle.paper_catalogue_decide.specs.DecidedPairs.{adding_decided, rechecking_decided};
ghost use Rattle.c_catalogue.specs.Catalogued.{telling_rechecked};
ghost use Rattle.c_catalogue_decide.specs.CatalogueDecided.{telling_added_by};

use c_catalogue::{tell_added, tell_rechecked};
use c_tell::put;
use catalogue_numbers::{Numbers, Totals};

// Enters a rule behind the last one, if its pair with every rule present is decided 1: the number; count, place, the rule's number, the pair's answer
// and the attempt that gave it go into the first five elements of `told`, as many as there is room for.
pub fn add_decided(catalogue: &mut [u8], rule: &[u8], work: &mut [u8], told: &mut [u64]) -> u32
    ensures number { result ≡ (adding_decided catalogue.old rule.now work.old).added.number }
    ensures told { told.new ≡ telling_added_by told.old (adding_decided catalogue.old rule.now work.old) }
    ensures catalogue { catalogue.new ≡ (adding_decided catalogue.old rule.now work.old).added.catalogue }
    ensures work { work.new ≡ (adding_decided catalogue.old rule.now work.old).added.work }
{
    let added = catalogue_add::add_decided(catalogue, rule, work);
    let numbers = Numbers::from(added);
    tell_added(told, numbers);
    put(told, 4, numbers.search);
    numbers.number as u32
}

// Lists the pairs that are not decided 1: the number; how many they are and how many bytes they have go into the first two elements of `told`, as
// many as there is room for.
pub fn recheck_decided(catalogue: &[u8], work: &mut [u8], list: &mut [u8], told: &mut [u64]) -> u32
    ensures number { result ≡ (rechecking_decided catalogue.now work.old list.old).number }
    ensures told { told.new ≡ telling_rechecked told.old (rechecking_decided catalogue.now work.old list.old) }
    ensures list { list.new ≡ (rechecking_decided catalogue.now work.old list.old).list }
    ensures work { work.new ≡ (rechecking_decided catalogue.now work.old list.old).work }
{
    let rechecked = catalogue_recheck::recheck_decided(catalogue, work, list);
    let totals = Totals::from(rechecked);
    tell_rechecked(told, totals);
    totals.number as u32
}
