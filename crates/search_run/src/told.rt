// What a search tells at its end, without its way or with it.
ghost use Rattle.std.specs.Prelude.{ℕ};
ghost use Rattle.base_codes.specs.Coded.{Coded};
ghost use Rattle.search_children.specs.Children.{Tables};
ghost use Rattle.search_run.specs.Ended.{SearchedSo};
ghost use Rattle.search_run.specs.Telling.{Telling, TellsEnd, TellsWay};

use crate::{Over, conclude, conclude_steps};
use base_answers::Ended;
use base_steps::StepsEnded;

pub trait Told {
    // Of a search by such tables, in such a room, from such a situation on: what is told of it, with both buffers before and afterwards.
    ghost told_by: { Telling Self };

    fn of(over: Over, work: &[u8], answer: &mut [u8], steps: &mut [u8]) -> Self
        requires { (T : Tables) × (room : ℕ) × (k : Coded) × SearchedSo T room k work.now over.run over.sets }
        ensures { (T : Tables) (room : ℕ) (k : Coded) → SearchedSo T room k work.now over.run over.sets → told_by T room k answer.old steps.old answer.new steps.new result };
}

impl Told for Ended {
    ghost told_by = { TellsEnd };

    fn of(over: Over, work: &[u8], answer: &mut [u8], steps: &mut [u8]) -> Ended {
        let how = conclude(answer, work, over);
        Ended {
            how,
            count: over.run.entered,
        }
    }
}

impl Told for StepsEnded {
    ghost told_by = { TellsWay };

    fn of(over: Over, work: &[u8], answer: &mut [u8], steps: &mut [u8]) -> StepsEnded {
        let how = conclude_steps(answer, steps, work, over);
        StepsEnded {
            how,
            count: over.run.entered,
        }
    }
}
