// What stands in a side: how often each field, and how many of its characters count.
ghost use Rattle.std.specs.Prelude.{◌≡◌, ◌&&◌, ◌≤◌};
ghost use Rattle.paper.specs.Numbers.{longest_side};
ghost use Rattle.paper_decide.specs.Letters.{one_if};
ghost use Rattle.base_codes.specs.Inner.{is_char, tokens};
ghost use Rattle.decide_letters.specs.PatternStack.{counted};
ghost use Rattle.decide_letters.specs.SideCoded.{weight_coded, times_listed};

use crate::weights::{Counting, counts, one_if};
use base_codes::{CodedSide, FIELD_CODE, SHEET_FIELDS, tokens_of};

// How often each field stands.
pub fn field_times(side: CodedSide) -> [u64; SHEET_FIELDS]
    ensures { result ≡ times_listed (tokens side) }
{
    let mut times: [u64; SHEET_FIELDS] = [0; SHEET_FIELDS];
    for &b in tokens_of(&side) {
        if FIELD_CODE <= b {
            let f = base_codes::field_of(b);
            if f < SHEET_FIELDS {
                times[f] += 1;
            }
        }
    }
    times
}

// How many of its characters count.
pub fn fixed_weight(counting: Counting, side: CodedSide) -> u64
    ensures { (result ≤ longest_side) × (result ≡ weight_coded (counted counting) (tokens side)) }
{
    tokens_of(&side).iter().map(|&b| weight(counting, b)).sum()
}

// 1 for a character that counts, 0 for any other token.
fn weight(counting: Counting, b: u8) -> u64
    ensures { (result ≤ 1) × (result ≡ one_if (is_char b && counted counting b)) }
{
    if FIELD_CODE <= b {
        return 0;
    }
    one_if(counts(counting, b))
}
