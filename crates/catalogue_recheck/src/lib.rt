// A kept catalogue checked again: its pairs are all asked, and those not answered 1 are listed.
#![tactic(auto)]

ghost use Rattle.std.specs.Prelude.{◌≡◌, length, replicate};
ghost use Rattle.paper_catalogue.specs.Recheck.{rechecking, rechecking_by};
ghost use Rattle.paper_catalogue_decide.specs.DecidedPairs.{rechecking_decided};
ghost use Rattle.catalogue_question.specs.AskedBy.{asking_coded};
ghost use Rattle.print_lines.specs.Writing.{Puts};
ghost use Rattle.catalogue_recheck.specs.PairList.{told_rechecked, pair_bytes_of, PairFits, ReadyToList, WithListed, longest_list, AllListed};
ghost use Rattle.catalogue_form.specs.Kept.{OfForm};

use catalogue_form::Kept;
use catalogue_question::{Asking, Pair};
use read_rule::Rule;

// The lower number, the higher, the answer, the count in two bytes.
pub const PAIR_BYTES: usize = 5;

// The same, the count in three bytes, and the search that gave the answer.
pub const DECIDED_BYTES: usize = 7;

// The 496 pairs of 32 rules.
const LONGEST_LIST: usize = 496 * DECIDED_BYTES;

// So many pairs stand in front of the list, in so many bytes.
#[derive(Clone, Copy)]
pub struct Listed {
    pub pairs: usize,
    pub written: usize,
}

// Why no pair is listed. specs/PairList.antt gives each its number.
#[derive(Clone, Copy)]
pub enum RecheckError {
    // 35: the list is too short for all of them
    TooShort,
    // 34: the buffer is no catalogue
    NoCatalogue,
}

// Lists the pairs that are not answered 1, by lower, then higher number, each in five bytes.
pub fn recheck(catalogue: &[u8], work: &mut [u8], list: &mut [u8]) -> Result<Listed, RecheckError>
    ensures { told_rechecked result list.new work.new ≡ rechecking catalogue.now work.old list.old }
{
    recheck_by(Asking::Search, catalogue, work, list)
}

// As `recheck`, but each pair is asked as `decide` asks, and has seven bytes.
// Kept: (a) both are called for C, with a clause each (`rechecking`, `rechecking_decided`), and are one call of `recheck_by`.
pub fn recheck_decided(
    catalogue: &[u8],
    work: &mut [u8],
    list: &mut [u8],
) -> Result<Listed, RecheckError>
    ensures { told_rechecked result list.new work.new ≡ rechecking_decided catalogue.now work.old list.old }
{
    recheck_by(Asking::Decide, catalogue, work, list)
}

fn recheck_by(
    how: Asking,
    catalogue: &[u8],
    work: &mut [u8],
    list: &mut [u8],
) -> Result<Listed, RecheckError>
    ensures { told_rechecked result list.new work.new ≡ rechecking_by (asking_coded how) catalogue.now work.old list.old }
{
    let Some(kept) = catalogue_form::find(catalogue) else {
        return Err(RecheckError::NoCatalogue);
    };
    let mut bytes = no_bytes();
    let n = list_all(how, catalogue, &kept, work, &mut bytes);
    if list.len() < n {
        return Err(RecheckError::TooShort);
    }
    catalogue_bytes::put(list, 0, &bytes[0..n]);
    Ok(Listed {
        pairs: n / pair_bytes(how),
        written: n,
    })
}

// The bytes of a listed pair.
fn pair_bytes(how: Asking) -> usize
    ensures { result ≡ (asking_coded how).pair_bytes }
{
    match how {
        Asking::Search => PAIR_BYTES,
        Asking::Decide => DECIDED_BYTES,
    }
}

fn no_bytes() -> [u8; LONGEST_LIST]
    ensures { result ≡ replicate longest_list 0 }
{
    [0; LONGEST_LIST]
}

// Puts every pair of the rules that is not answered 1 in front of the bytes, and tells how many bytes that makes.
fn list_all(how: Asking, catalogue: &[u8], kept: &Kept, work: &mut [u8], bytes: &mut [u8]) -> usize
    requires catalogue { OfForm catalogue.now kept.now }
    requires bytes { length bytes.old ≡ longest_list }
    ensures { (x : OfForm catalogue.now kept.now) → AllListed (asking_coded how) x.rules_present work.old work.new bytes.old bytes.new result }
{
    let mut n = 0;
    for i in 0..kept.rules {
        let at = kept.begins[i];
        let rule = catalogue_form::rule_at(catalogue, at).unwrap();
        n = list_with(how, catalogue, kept, i, &rule, work, bytes, n);
    }
    n
}

// Puts the pairs of a rule with those behind it behind the first n bytes.
fn list_with(
    how: Asking,
    catalogue: &[u8],
    kept: &Kept,
    lower: usize,
    rule: &Rule,
    work: &mut [u8],
    bytes: &mut [u8],
    n: usize,
) -> usize
    requires { ReadyToList (asking_coded how) catalogue.now kept.now lower rule.now work.old bytes.old n }
    ensures { (x : ReadyToList (asking_coded how) catalogue.now kept.now lower rule.now work.old bytes.old n) → WithListed (asking_coded how) x.standing.rules_present lower work.old work.new bytes.old bytes.new n result }
{
    let from = kept.begins[lower];
    let mut end = n;
    for j in lower + 1..kept.rules {
        let at = kept.begins[j];
        let other = catalogue_form::rule_at(catalogue, at).unwrap();
        let pair = catalogue_pair::ask(
            how,
            rule,
            &other,
            &catalogue[from..],
            &catalogue[at..],
            work,
        );
        end = put_pair(how, bytes, end, lower, j, pair);
    }
    end
}

// Puts a pair that is not answered 1 behind the first n bytes, and tells how many there are then.
fn put_pair(
    how: Asking,
    bytes: &mut [u8],
    n: usize,
    lower: usize,
    higher: usize,
    pair: Pair,
) -> usize
    requires { PairFits how bytes.old n lower higher pair }
    ensures { Puts bytes.old bytes.new n result (pair_bytes_of (asking_coded how) lower higher pair) }
{
    if catalogue_question::is_apart(pair) {
        return n;
    }
    let answer = pair.answer;
    let count = pair.count;
    let search = pair.search;
    bytes[n] = lower as u8;
    bytes[n + 1] = higher as u8;
    bytes[n + 2] = answer as u8;
    bytes[n + 3] = (count % 256) as u8;
    match how {
        Asking::Search => {
            bytes[n + 4] = (count / 256) as u8;
            n + PAIR_BYTES
        }
        Asking::Decide => {
            bytes[n + 4] = (count / 256 % 256) as u8;
            bytes[n + 5] = (count / 65536) as u8;
            bytes[n + 6] = search;
            n + DECIDED_BYTES
        }
    }
}
