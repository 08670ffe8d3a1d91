// Texts spelt out: the steps that they want are made one after the other, and their records put.
#![tactic(auto)]

ghost use Rattle.base_put.specs.Counted.{Counted};
ghost use Rattle.base_codes.specs.Coded.{denoted};
ghost use Rattle.search_children.specs.Laid.{tables_lent};
ghost use Rattle.way_walk.specs.SpellCoded.{code_bytes, spelled_coded, SpelledInto};

use base_codes::{FIELDS, LEFT_STRUCK, RIGHT_STRUCK, Situation};
use base_put::put_all;
use play_walk::{Stop, is_finished, made};
use search_children::Tables;

// "50 if it is past the 65,534th"
const MOST_STEPS: usize = 65534;

// Spelling stops before the finish: why, and how many bytes the records of the steps before have.
#[derive(Clone, Copy)]
pub struct Halt {
    pub why: Stop,
    pub bytes: usize,
}

// The record of a step, by its inner code.
#[tactic(auto, unfolding(crate::specs::SpellCoded::code_bytes))]
fn put_step(out: &mut [u8], at: usize, step: u8) -> usize
    ensures { Counted out.old out.new at result (code_bytes step) }
{
    match step {
        LEFT_STRUCK => put_all(out, at, &[b'S', b'T', 0]),
        RIGHT_STRUCK => put_all(out, at, &[b'S', b'T', 1]),
        value => put_all(out, at, &[b'S', b'T', 2, value]),
    }
}

// Spells the texts out from this situation on: how many bytes the records of the steps have, also where it stops. The texts end at these places of the
// bytes, and so many characters of each are left.
pub fn walk(
    out: &mut [u8],
    texts: &[u8],
    ends: [usize; FIELDS],
    left: [usize; FIELDS],
    space: usize,
    first: Situation,
    tables: &Tables,
) -> Result<usize, Halt>
    ensures { SpelledInto (spelled_coded (tables_lent tables.now) space texts.now ends (denoted first) left) out.old out.new result }
{
    let mut end = 0;
    let mut s = first;
    let mut counts = left;
    for _ in 0..MOST_STEPS {
        if is_finished(s) {
            return Ok(end);
        }
        let step = way_step::next_step(texts, ends, counts, space, s, tables.characters);
        let child = play_step::step(s, step, tables);
        let next = match made(child) {
            Ok(next) => next,
            Err(why) => return Err(Halt { why, bytes: end }),
        };
        end = put_step(out, end, step);
        let behind = way_step::behind(counts, s, step);
        counts = behind;
        s = next;
    }
    if is_finished(s) {
        Ok(end)
    } else {
        Err(Halt {
            why: Stop::PastMost,
            bytes: end,
        })
    }
}
