// The player's entry: reads a sheet, and plays the records of steps on it.
#![tactic(auto)]

ghost use Rattle.std.specs.Prelude.{◌≡◌};
ghost use Rattle.paper.specs.Sheet.{read_sheet};
ghost use Rattle.paper_steps.specs.Player.{play as play_of};
ghost use Rattle.paper_steps.specs.PlayPromised.{PlayPromised};
ghost use Rattle.play_sheet.specs.PlayNumbers.{error_numbers, told_play};
ghost use Rattle.play_sheet.specs.declared.PlayError.TheVariants.{Refused as refused, Stopped as stopped};

use base_answers::{ANSWER_TOO_SHORT, Numbers, Refusal};
use play_question::PlayStop;

// Why no texts are written.
#[derive(Clone, Copy)]
pub enum PlayError {
    // 11 to 17, 22 and 44: the sheet is at fault
    Refused(Refusal),
    // 47 to 50, 19 and 20
    Stopped(PlayStop),
}

impl From<Refusal> for PlayError {
    ghost from_gives = { λ refusal e. e ≡ refused refusal };

    fn from(refusal: Refusal) -> Self {
        PlayError::Refused(refusal)
    }
}

impl From<PlayStop> for PlayError {
    ghost from_gives = { λ stop e. e ≡ stopped stop };

    fn from(stop: PlayStop) -> Self {
        PlayError::Stopped(stop)
    }
}

impl From<PlayError> for Numbers {
    ghost from_gives = { λ e n. n ≡ error_numbers e };

    fn from(e: PlayError) -> Self
        ensures { result ≡ error_numbers e }
    {
        match e {
            PlayError::Refused(fault) => Numbers::from(fault),
            PlayError::Stopped(PlayStop::AnswerTooShort) => Numbers::of_number(ANSWER_TOO_SHORT),
            PlayError::Stopped(PlayStop::Stopped(why)) => Numbers::of_number(why.number()),
        }
    }
}

// The answer to a sheet and records of steps: how many bytes the texts have.
pub type Playing = Result<usize, PlayError>;

// "given a sheet and such records from anywhere, it makes each step by 01's rules and gives the texts at the end"
pub fn play(sheet: &[u8], steps: &[u8], answer: &mut [u8]) -> Playing
    ensures whole { told_play result answer.new ≡ play_of sheet.now steps.now answer.old }
    ensures promised { PlayPromised (read_sheet sheet.now) steps.now answer.old (told_play result answer.new) }
{
    let asked = read_sheet::read(sheet)?;
    Ok(play_question::play(asked.question, steps, answer)?)
}
