// A sheet, a rule and the rules of a catalogue put anew: the bytes in front of their records, then the records, each changed by whether its field
// stands (`carry_records`).
#![tactic(auto)]

ghost use Rattle.std.specs.Prelude.{◌≡◌, [], take, replicate};
ghost use Rattle.paper_carry.specs.Spelling.{longest_rules};
ghost use Rattle.base_codes.specs.Inner.{padded};
ghost use Rattle.base_put.specs.Counted.{Counted};
ghost use Rattle.base_question.specs.Standings.{standing_times};
ghost use Rattle.carry_put.specs.Putting.{put_whole, rules_put};

use base_codes::{CodedSide, FIELDS, LONGEST_SIDE, NO_TOKEN, SHEET_FIELDS};
use base_put::put_all;
use base_question::Body;
use carry_records::Change;
use catalogue_form::CATALOGUE_RULES;

// "the mark `RU`"
pub const RULE_MARK: usize = 2;

// the most bytes that the rules of a catalogue have: 32 times a mark, four patterns of 192 bytes and a side of 24 tokens
pub const LONGEST_RULES: usize = CATALOGUE_RULES * (RULE_MARK + 4 * 196 + 27);

// The bytes in front of an offset.
fn put_front(out: &mut [u8], at: usize, s: &[u8], from: usize) -> usize
    ensures { Counted out.old out.new at result (take from s.now) }
{
    put_all(out, at, s.get(..from).unwrap_or(s))
}

// The bytes in front of the patterns, then the records: as far as there is room, and the place behind them.
pub fn put_whole(
    out: &mut [u8],
    at: usize,
    s: &[u8],
    from: usize,
    bodies: [Body; SHEET_FIELDS],
    counts: [usize; FIELDS],
    change: Change,
) -> usize
    ensures { Counted out.old out.new at result (put_whole change s.now from bodies counts) }
{
    let behind = put_front(out, at, s, from);
    carry_records::put_from(out, behind, s, from, bodies, counts, change)
}

// How often each field stands in the side of a rule.
pub fn rule_counts(side: CodedSide) -> [usize; FIELDS]
    ensures { result ≡ standing_times side (padded []) }
{
    let none = no_side();
    base_question::standings(side, none)
}

fn no_side() -> CodedSide
    ensures { result ≡ padded [] }
{
    [NO_TOKEN; LONGEST_SIDE]
}

// Room for the rules of any catalogue.
pub fn no_bytes() -> [u8; LONGEST_RULES]
    ensures { result ≡ replicate longest_rules 0 }
{
    [0; LONGEST_RULES]
}

// So many rules of a catalogue, one behind the other.
pub fn put_rules(bytes: &mut [u8], catalogue: &[u8], rules: usize, change: Change) -> usize
    ensures { Counted bytes.old bytes.new 0 result (rules_put change rules catalogue.now) }
{
    let mut end = 0;
    let mut at = 0;
    for _ in 0..rules {
        if let Ok(rule) = catalogue_form::rule_at(catalogue, at) {
            let next = at + rule.bytes;
            let counts = rule_counts(rule.side);
            end = put_whole(
                bytes,
                end,
                &catalogue[at..next],
                RULE_MARK,
                rule.bodies,
                counts,
                change,
            );
            at = next;
        }
    }
    end
}
