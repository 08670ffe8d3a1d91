// The texts at the end of a way: the records of what its steps put before each field that stands, each directly behind the one before. No
// working buffer is lent: for each field the steps are made again.
#![tactic(auto)]

ghost use Rattle.std.specs.Prelude.{◌∷◌, [], ◌≡◌, ◌/◌, ◌%◌};
ghost use Rattle.paper.specs.Outcome.{value_record};
ghost use Rattle.base_codes.specs.Coded.{denoted};
ghost use Rattle.base_put.specs.Counted.{Counted};
ghost use Rattle.search_children.specs.Laid.{tables_lent};
ghost use Rattle.play_walk.specs.WalkCoded.{text_walked};
ghost use Rattle.play_texts.specs.WayRecords.{way_records, WayAnswered};

use base_codes::{SHEET_FIELDS, Situation};
use base_put::put_all;
use play_walk::put_text;
use search_children::Tables;

// "`VA`, field byte, length in two bytes (low first)"
const HEAD: usize = 5;

fn head(f: u8, n: usize) -> [u8; HEAD]
    ensures { result ≡ 86 ∷ 65 ∷ f ∷ n % 256 ∷ n / 256 % 256 ∷ [] }
{
    [b'V', b'A', f, (n % 256) as u8, (n / 256 % 256) as u8]
}

// The record of the field f.
fn put_record(
    out: &mut [u8],
    at: usize,
    first: Situation,
    steps: &[u8],
    f: u8,
    tables: &Tables,
) -> usize
    ensures { Counted out.old out.new at result (value_record f (text_walked (tables_lent tables.now) f (denoted first) steps.now)) }
{
    let n = put_text(&mut out[0..0], 0, first, steps, f, tables);
    let begun = put_all(out, at, &head(f, n));
    put_text(out, begun, first, steps, f, tables)
}

// "for each field standing in the sides, by rising number": those with a first place set
fn put_records(out: &mut [u8], first: Situation, steps: &[u8], tables: &Tables) -> usize
    ensures { Counted out.old out.new 0 result (way_records (tables_lent tables.now) (denoted first) steps.now) }
{
    let mut end = 0;
    for f in 0..SHEET_FIELDS {
        let set = first.sets[f];
        if set != 0 {
            end = put_record(out, end, first, steps, f as u8, tables);
        }
    }
    end
}

// The records into the front of the answer buffer. Where they don't fit, nothing is written.
pub fn answer_way(
    answer: &mut [u8],
    first: Situation,
    steps: &[u8],
    tables: &Tables,
) -> Option<usize>
    ensures { WayAnswered (way_records (tables_lent tables.now) (denoted first) steps.now) answer.old answer.new result }
{
    let length = put_records(&mut answer[0..0], first, steps, tables);
    if answer.len() < length {
        return None;
    }
    Some(put_records(answer, first, steps, tables))
}
