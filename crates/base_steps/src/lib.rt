// What the search that writes its way answers: how it ended, the whole answer, and its numbers.
#![tactic(auto)]

ghost use Rattle.std.specs.Prelude.{◌≡◌};
ghost use Rattle.base_steps.specs.StepsNumbered.{bare_numbers, end_numbers, steps_numbers};

use base_answers::{Refusal, STEPS_TOO_SHORT};

// How a search ends that writes its way.
#[derive(Clone, Copy)]
pub enum StepsHow {
    // 0: the answer buffer holds the texts, the third buffer the steps
    Clash { written: usize, steps: usize },
    // 1, 18, 19, 20: as the search without steps
    NoClash,
    NoRoom,
    SideTooLong,
    AnswerTooShort,
    // 51: a clash, and the texts would fit, but the third buffer is too short for the steps
    StepsTooShort,
}

// How it ended, and the situations entered.
#[derive(Clone, Copy)]
pub struct StepsEnded {
    pub how: StepsHow,
    pub count: usize,
}

// The answer to a sheet: how its search ended, or what it is refused for.
pub type StepsAnswer = Result<StepsEnded, Refusal>;

// An answer in numbers.
#[derive(Clone, Copy)]
pub struct StepsNumbers {
    pub number: usize,
    pub count: usize,
    pub place: usize,
    pub written: usize,
    pub steps: usize,
}

// Where no byte is written.
fn bare(number: usize, count: usize, place: usize) -> StepsNumbers
    ensures { result ≡ bare_numbers number count place }
{
    StepsNumbers {
        number,
        count,
        place,
        written: 0,
        steps: 0,
    }
}

fn of_end(how: StepsHow, count: usize) -> StepsNumbers
    ensures { result ≡ end_numbers how count }
{
    match how {
        StepsHow::Clash { written, steps } => StepsNumbers {
            number: 0,
            count,
            place: 0,
            written,
            steps,
        },
        StepsHow::NoClash => bare(1, count, 0),
        StepsHow::NoRoom => bare(18, count, 0),
        StepsHow::SideTooLong => bare(19, count, 0),
        StepsHow::AnswerTooShort => bare(20, count, 0),
        StepsHow::StepsTooShort => bare(STEPS_TOO_SHORT, count, 0),
    }
}

impl From<StepsAnswer> for StepsNumbers {
    ghost from_gives = { λ a n. n ≡ steps_numbers a };

    fn from(a: StepsAnswer) -> Self
        ensures { result ≡ steps_numbers a }
    {
        match a {
            Ok(ended) => of_end(ended.how, ended.count),
            Err(refusal) => bare(refusal.fault.number() as usize, 0, refusal.place),
        }
    }
}
