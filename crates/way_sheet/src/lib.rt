// A way for texts: reads a sheet, and writes the steps that spell given texts on it.
#![tactic(auto)]

ghost use Rattle.std.specs.Prelude.{◌≡◌};
ghost use Rattle.paper.specs.Sheet.{read_sheet};
ghost use Rattle.paper_way.specs.WayOutcome.{way as way_of};
ghost use Rattle.paper_way.specs.WayPromised.{WayPromised};
ghost use Rattle.way_sheet.specs.WayNumbers.{error_numbers, told_way};
ghost use Rattle.way_sheet.specs.declared.WayError.TheVariants.{Refused as refused, Stopped as stopped};

use base_answers::{Numbers, Refusal, STEPS_TOO_SHORT};
use way_question::WayStop;

// Why no steps are written.
#[derive(Clone, Copy)]
pub enum WayError {
    // 11 to 17, 22 and 44: the sheet is at fault
    Refused(Refusal),
    // 47, 48, 19, 50 and 51
    Stopped(WayStop),
}

impl From<Refusal> for WayError {
    ghost from_gives = { λ refusal e. e ≡ refused refusal };

    fn from(refusal: Refusal) -> Self {
        WayError::Refused(refusal)
    }
}

impl From<WayStop> for WayError {
    ghost from_gives = { λ stop e. e ≡ stopped stop };

    fn from(stop: WayStop) -> Self {
        WayError::Stopped(stop)
    }
}

impl From<WayError> for Numbers {
    ghost from_gives = { λ e n. n ≡ error_numbers e };

    fn from(e: WayError) -> Self
        ensures { result ≡ error_numbers e }
    {
        match e {
            WayError::Refused(fault) => Numbers::from(fault),
            WayError::Stopped(WayStop::StepsTooShort) => Numbers::of_number(STEPS_TOO_SHORT),
            WayError::Stopped(WayStop::Stopped(why)) => Numbers::of_number(why.number()),
        }
    }
}

// The answer to a sheet and the records of texts: how many bytes the steps have.
pub type WayAnswer = Result<usize, WayError>;

// The steps by 01's rules that spell the texts: "strike a front field whose text is used up, the left one first; otherwise put the next character"
pub fn way(sheet: &[u8], texts: &[u8], steps: &mut [u8]) -> WayAnswer
    ensures whole { told_way result steps.new ≡ way_of sheet.now texts.now steps.old }
    ensures promised { WayPromised (read_sheet sheet.now) texts.now steps.old (told_way result steps.new) }
{
    let mut question = read_sheet::unread!();
    read_sheet::read_into(sheet, &mut question)?;
    Ok(way_question::way(question, texts, steps)?)
}
