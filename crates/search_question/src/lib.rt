// A question, searched: its hidden fields, the tables of its fields, and the search over them. A sheet asks one, a pair of rules, or a question with
// each standing apart.
#![tactic(auto)]

ghost use Rattle.std.specs.Prelude.{◌≡◌, length, replicate};
ghost use Rattle.search_run.specs.Ended.{room_for};
ghost use Rattle.search_run.specs.StepsEnded.{steps_run};
ghost use Rattle.search_question.specs.Over.{ended_over, buffer_over, tables_all, first_of, ended_all, buffer_all, steps_all};

use base_answers::Ended;
use base_codes::{HIDDEN_LEFT, HIDDEN_RIGHT};
use base_places::CHARACTERS;
use base_question::Question;
use base_steps::StepsEnded;
use search_children::Tables;
use search_run::Told;

// Kept: (a) fixed memory: apart from `search_told`, as one function for both tables would copy the question once more on the stack of each attempt.
// Searches the question over these characters. The working buffer is all zero afterwards.
pub fn search(
    question: Question,
    among: [bool; CHARACTERS],
    work: &mut [u8],
    answer: &mut [u8],
) -> Ended
    ensures ended { result ≡ ended_over among question (length work.old) answer.old }
    ensures answer { answer.new ≡ buffer_over among question (length work.old) answer.old }
    ensures work { work.new ≡ replicate (length work.old) 0 }
{
    let alphabet = question.alphabet;
    let characters = alphabet.characters;
    let space = alphabet.space;
    let hidden = search_hidden::spaces(space);
    let own_fields = question.fields;
    let follow = search_tables::follow_behind(own_fields, hidden);
    let last = search_tables::last_behind(own_fields, hidden);
    let taking = search_tables::taking_among(own_fields, hidden, among, characters);
    let own_left = question.left;
    let left = search_hidden::side(own_left, HIDDEN_LEFT);
    let own_right = question.right;
    let right = search_hidden::side(own_right, HIDDEN_RIGHT);
    let mut none = [0; 1];
    let tables = Tables {
        characters,
        follow: &follow,
        taking: &taking,
        last,
    };
    search_run::run(left, right, &tables, work, answer, &mut none[0..0])
}

// The same over every character, whose tables need no cut.
pub fn search_all(question: Question, work: &mut [u8], answer: &mut [u8]) -> Ended
    ensures ended { result ≡ ended_all question (length work.old) answer.old }
    ensures answer { answer.new ≡ buffer_all question (length work.old) answer.old }
    ensures work { work.new ≡ replicate (length work.old) 0 }
{
    let mut none = [0; 1];
    search_told(question, work, answer, &mut none[0..0])
}

// And after a clash the way is written into a third buffer.
pub fn search_steps(
    question: Question,
    work: &mut [u8],
    answer: &mut [u8],
    steps: &mut [u8],
) -> StepsEnded
    ensures ended { steps_run result answer.new steps.new ≡ steps_all question (length work.old) answer.old steps.old }
    ensures work { work.new ≡ replicate (length work.old) 0 }
{
    search_told(question, work, answer, steps)
}

// Both of these, by what is to be told. It is not put into its callers, so that its tables are on the stack only after the sheet is read. Who has a
// question lent and hands it on calls it directly: each call between copies the question once more.
#[inline(never)]
pub fn search_told<T: Told>(
    question: Question,
    work: &mut [u8],
    answer: &mut [u8],
    steps: &mut [u8],
) -> T
    ensures told { T.told_by (tables_all question) (room_for (length work.old)) (first_of question) answer.old steps.old answer.new steps.new result }
    ensures work { work.new ≡ replicate (length work.old) 0 }
{
    let alphabet = question.alphabet;
    let characters = alphabet.characters;
    let space = alphabet.space;
    let hidden = search_hidden::spaces(space);
    let own_fields = question.fields;
    let follow = search_tables::follow_behind(own_fields, hidden);
    let last = search_tables::last_behind(own_fields, hidden);
    let taking = search_tables::taking_behind(own_fields, hidden);
    let own_left = question.left;
    let left = search_hidden::side(own_left, HIDDEN_LEFT);
    let own_right = question.right;
    let right = search_hidden::side(own_right, HIDDEN_RIGHT);
    let tables = Tables {
        characters,
        follow: &follow,
        taking: &taking,
        last,
    };
    search_run::run(left, right, &tables, work, answer, steps)
}
