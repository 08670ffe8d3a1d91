// Deciding more than the search alone: attempts one after the other in the same working buffer. A question sheet and two lent buffers in; an answer,
// and which attempt gave it, out.
#![tactic(auto)]

ghost use Rattle.std.specs.Prelude.{◌≡◌};
ghost use Rattle.paper.specs.Sheet.{read_sheet};
ghost use Rattle.paper_decide.specs.Deciding.{decision};
ghost use Rattle.paper_decide.specs.DecidePromised.{Decided};
ghost use Rattle.decide_sheet.specs.Decision.{told_decision};

use base_answers::Answer;

// An answer, and the attempt that decided: 1 to 7; 0 where none did.
// Kept: (d) no `Result` round both. What is told of a refused sheet is an attempt too, 0, and each caller asks for the answer and for the attempt.
#[derive(Clone, Copy)]
pub struct Decision {
    pub answer: Answer,
    pub search: u8,
}

// Can the two rules of the sheet make the same label?
pub fn decide(sheet: &[u8], work: &mut [u8], answer: &mut [u8]) -> Decision
    ensures whole { told_decision result answer.new work.new ≡ decision sheet.now work.old answer.old }
    ensures decided { Decided (read_sheet sheet.now) work.old answer.old (told_decision result answer.new work.new) }
{
    let mut question = read_sheet::unread!();
    match read_sheet::read_into(sheet, &mut question) {
        Err(refusal) => Decision {
            answer: Err(refusal),
            search: 0,
        },
        Ok(_) => {
            let settled = decide_question::decide(question, sheet, sheet, work, answer);
            Decision {
                answer: Ok(settled.ended),
                search: settled.search,
            }
        }
    }
}
