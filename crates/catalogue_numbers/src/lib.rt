// The answers of a catalogue in the numbers of requests K1 and K3; those of a catalogue that decides are the same.
#![tactic(auto)]

ghost use Rattle.std.specs.Prelude.{◌≡◌};
ghost use Rattle.catalogue_numbers.specs.CatalogueNumbers.{numbers_of_added, number_of_withdrawn, as_totals};

use base_answers::{
    CATALOGUE_FULL, FOREIGN_FIELD, LIST_TOO_SHORT, NO_CATALOGUE, NO_RULE, NOT_APART,
};
use catalogue_add::{AddError, NotApart, WithdrawError};
use catalogue_recheck::{Listed, RecheckError};

// What adding a rule tells. Each is 0 where nothing is said of it.
#[derive(Clone, Copy)]
pub struct Numbers {
    pub number: usize,
    pub count: usize,
    pub place: usize,
    // the number of the rule whose pair is not answered 1, and that pair's answer
    pub rule: usize,
    pub answer: usize,
    // the search that gave it
    pub search: usize,
}

impl From<Result<(), AddError>> for Numbers {
    ghost from_gives = { λ a n. n ≡ numbers_of_added a };

    fn from(a: Result<(), AddError>) -> Self
        ensures { result ≡ numbers_of_added a }
    {
        match a {
            Ok(()) => refusal(0, 0),
            Err(AddError::Refused(it)) => refusal(it.fault.number() as usize, it.place),
            Err(AddError::NotApart(NotApart { rule, pair })) => Numbers {
                number: NOT_APART,
                count: pair.count,
                place: 0,
                rule,
                answer: pair.answer,
                search: pair.search as usize,
            },
            Err(AddError::ForeignField) => refusal(FOREIGN_FIELD, 0),
            Err(AddError::Full) => refusal(CATALOGUE_FULL, 0),
            Err(AddError::NoCatalogue) => refusal(NO_CATALOGUE, 0),
        }
    }
}

fn refusal(number: usize, place: usize) -> Numbers
    ensures { result ≡ record { number = number; count = 0; place = place; rule = 0; answer = 0; search = 0 } }
{
    Numbers {
        number,
        count: 0,
        place,
        rule: 0,
        answer: 0,
        search: 0,
    }
}

// Kept: (d) an impl of `From` needs a type of its own crate, and neither this result nor the number is of this one.
pub fn withdrawn(w: Result<(), WithdrawError>) -> usize
    ensures { result ≡ number_of_withdrawn w }
{
    match w {
        Ok(()) => 0,
        Err(WithdrawError::NoRule) => NO_RULE,
        Err(WithdrawError::NoCatalogue) => NO_CATALOGUE,
    }
}

// What checking again tells. Both totals are 0 where nothing is listed.
#[derive(Clone, Copy)]
pub struct Totals {
    pub number: usize,
    // the pairs listed, and the bytes of their records
    pub pairs: usize,
    pub written: usize,
}

impl From<Result<Listed, RecheckError>> for Totals {
    ghost from_gives = { λ r t. t ≡ as_totals r };

    fn from(r: Result<Listed, RecheckError>) -> Self
        ensures { result ≡ as_totals r }
    {
        match r {
            Ok(Listed { pairs, written }) => Totals {
                number: 0,
                pairs,
                written,
            },
            Err(RecheckError::TooShort) => none_listed(LIST_TOO_SHORT),
            Err(RecheckError::NoCatalogue) => none_listed(NO_CATALOGUE),
        }
    }
}

fn none_listed(number: usize) -> Totals
    ensures { result ≡ record { number = number; pairs = 0; written = 0 } }
{
    Totals {
        number,
        pairs: 0,
        written: 0,
    }
}
