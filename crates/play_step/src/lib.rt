// One step from a situation, by the three functions that make the search's children.
#![tactic(auto)]

ghost use Rattle.std.specs.Prelude.{◌≡◌};
ghost use Rattle.base_codes.specs.Coded.{denoted};
ghost use Rattle.search_children.specs.Laid.{child_of, tables_lent};
ghost use Rattle.play_step.specs.StepCoded.{put_step, step_coded};

use base_codes::{LEFT_STRUCK, RIGHT_STRUCK, Situation};
use base_places::CHARACTERS;
use search_children::{Child, Tables};

// "a character": the child by putting c, where both fronts take it. A byte that a table has no room for is never taken.
#[tactic(auto, unfolding(crate::specs::StepCoded::put_step))]
fn put_step(s: Situation, c: u8, tables: &Tables) -> Child
    ensures { result ≡ child_of (put_step tables.now.follow.now tables.now.taking.now (denoted s) c) }
{
    let value = usize::from(c);
    if CHARACTERS <= value {
        return Child::Dropped;
    }
    let left = search_fronts::front_with(s.left[0], s.sets, tables.follow);
    let right = search_fronts::front_with(s.right[0], s.sets, tables.follow);
    let taking = tables.taking;
    let m = left.followers & taking[left.row][value];
    let n = right.followers & taking[right.row][value];
    if search_fronts::both_take(left.token, m, right.token, n, c) {
        search_children::put(s, c, m, n)
    } else {
        Child::Dropped
    }
}

// The child by the step with this inner code, however many characters there are. It is dropped where the step is not allowed or the child dead.
#[tactic(auto, unfolding(crate::specs::StepCoded::step_coded))]
pub fn step(s: Situation, code: u8, tables: &Tables) -> Child
    ensures { result ≡ child_of (step_coded (tables_lent tables.now) (denoted s) code) }
{
    match code {
        LEFT_STRUCK => search_children::strike_left(s, tables.last),
        RIGHT_STRUCK => search_children::strike_right(s, tables.last),
        character => put_step(s, character, tables),
    }
}
