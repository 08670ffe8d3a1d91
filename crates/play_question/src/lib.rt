// A question, played: its hidden fields, the tables of its fields, the steps made from the trimmed question, and the texts at the end. The number of
// characters is that of its alphabet.
#![tactic(auto)]

ghost use Rattle.std.specs.Prelude.{◌≡◌};
ghost use Rattle.play_question.specs.QuestionPlayed.{question_tables, question_first, PartOf, PlayedFrom};
ghost use Rattle.play_question.specs.declared.PlayStop.TheVariants.{Stopped};

use base_codes::{HIDDEN_LEFT, HIDDEN_RIGHT};
use base_question::Question;
use play_walk::Stop;
use search_children::Tables;

// Why no texts are written.
#[derive(Clone, Copy)]
pub enum PlayStop {
    // 20: the finish, but the answer buffer is too short for the texts
    AnswerTooShort,
    // 47 to 50, and 19
    Stopped(Stop),
}

impl From<Stop> for PlayStop {
    ghost from_gives = { λ why stop. stop ≡ Stopped why };

    fn from(why: Stop) -> Self
        ensures { result ≡ Stopped why }
    {
        PlayStop::Stopped(why)
    }
}

// Plays the records of steps from the trimmed question on: the steps are walked, and where they arrive the texts are put. It tells how many bytes they have.
pub fn play(question: Question, steps: &[u8], answer: &mut [u8]) -> Result<usize, PlayStop>
    ensures { PlayedFrom (question_tables question) (question_first question) steps.now answer.old answer.new result }
{
    play_part(question, steps, &mut [], false)?;
    play_part(question, steps, answer, true)
}

// The walk, or the texts where they are wanted.
// Kept: (a) the stack: as it has two callers, its tables are there only after the sheet is read; a closure for each part would be one caller each.
fn play_part(
    question: Question,
    steps: &[u8],
    answer: &mut [u8],
    wanted: bool,
) -> Result<usize, PlayStop>
    ensures { PartOf wanted (question_tables question) (question_first question) steps.now answer.old answer.new result }
{
    let alphabet = question.alphabet;
    let characters = alphabet.characters;
    let space = alphabet.space;
    let own_left = question.left;
    let own_right = question.right;
    let left = search_hidden::side(own_left, HIDDEN_LEFT);
    let right = search_hidden::side(own_right, HIDDEN_RIGHT);
    let first = search_trim::question(left, right);
    let hidden = search_hidden::spaces(space);
    let own_fields = question.fields;
    let follow = search_tables::follow_behind(own_fields, hidden);
    let last = search_tables::last_behind(own_fields, hidden);
    let taking = search_tables::taking_behind(own_fields, hidden);
    let tables = Tables {
        characters,
        follow: &follow,
        taking: &taking,
        last,
    };
    if wanted {
        return play_texts::answer_way(answer, first, steps, &tables).ok_or(
            PlayStop::AnswerTooShort,
        );
    }
    play_walk::walk(first, steps, &tables)?;
    Ok(0)
}
