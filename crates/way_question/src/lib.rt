// A question, and the way of given texts on it: its hidden fields, the tables of its fields, the records of the texts, and the steps that spell them.
#![tactic(auto)]

ghost use Rattle.std.specs.Prelude.{◌≡◌};
ghost use Rattle.base_codes.specs.Coded.{denoted};
ghost use Rattle.search_children.specs.Laid.{tables_lent};
ghost use Rattle.way_walk.specs.SpellCoded.{spelled_coded};
ghost use Rattle.way_question.specs.WaySpelt.{SpeltBy, WayOn};
ghost use Rattle.way_records.specs.declared.Spans.{Spans};
ghost use Rattle.way_question.specs.declared.WayStop.TheVariants.{Stopped};

use base_codes::{HIDDEN_LEFT, HIDDEN_RIGHT, Situation};
use base_question::Question;
use play_walk::Stop;
use search_children::Tables;
use way_records::Spans;
use way_walk::Halt;

// Why no steps are written.
// Kept: (d) beside `play_question::PlayStop`, and `WayError` beside `PlayError`: a short buffer has another number here, 51 and not 20.
#[derive(Clone, Copy)]
pub enum WayStop {
    // 51: the texts solve the question, but the steps buffer is too short
    StepsTooShort,
    // 47, 48, 19 and 50
    Stopped(Stop),
}

impl From<Stop> for WayStop {
    ghost from_gives = { λ why stop. stop ≡ Stopped why };

    fn from(why: Stop) -> Self
        ensures { result ≡ Stopped why }
    {
        WayStop::Stopped(why)
    }
}

impl From<Halt> for WayStop {
    ghost from_gives = { λ halt stop. stop ≡ Stopped halt.why };

    fn from(halt: Halt) -> Self
        ensures { result ≡ Stopped halt.why }
    {
        WayStop::Stopped(halt.why)
    }
}

// From this situation on, with so many characters and these tables. The steps are made twice: first they are only counted.
fn spell_from(
    spans: Option<Spans>,
    texts: &[u8],
    steps: &mut [u8],
    space: usize,
    first: Situation,
    tables: &Tables,
) -> Result<usize, WayStop>
    ensures { SpeltBy (λ (s : Spans). spelled_coded (tables_lent tables.now) space texts.now s.ends (denoted first) s.left) steps.old steps.new result spans }
{
    let spans = spans.ok_or(Stop::NoRecord)?;
    let ends = spans.ends;
    let left = spans.left;
    let bytes = way_walk::walk(&mut steps[0..0], texts, ends, left, space, first, tables)?;
    if steps.len() < bytes {
        return Err(WayStop::StepsTooShort);
    }
    Ok(way_walk::walk(steps, texts, ends, left, space, first, tables)?)
}

// The way of the texts whose records these are: how many bytes its steps have.
pub fn way(question: Question, texts: &[u8], steps: &mut [u8]) -> Result<usize, WayStop>
    ensures { WayOn question texts.now steps.old steps.new result }
{
    let own_left = question.left;
    let own_right = question.right;
    let alphabet = question.alphabet;
    let characters = alphabet.characters;
    let space = alphabet.space;
    let left = search_hidden::side(own_left, HIDDEN_LEFT);
    let right = search_hidden::side(own_right, HIDDEN_RIGHT);
    let first = search_trim::question(left, right);
    let hidden = search_hidden::spaces(space);
    let own_fields = question.fields;
    let follow = search_tables::follow_behind(own_fields, hidden);
    let last = search_tables::last_behind(own_fields, hidden);
    let taking = search_tables::taking_behind(own_fields, hidden);
    let sets = first.sets;
    let spans = way_records::read(texts, own_left, own_right, sets, characters);
    let tables = Tables {
        characters,
        follow: &follow,
        taking: &taking,
        last,
    };
    spell_from(spans, texts, steps, space, first, &tables)
}
