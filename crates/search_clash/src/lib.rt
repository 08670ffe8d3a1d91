// Do two label rules clash? A question sheet and two lent buffers in, an answer out.
#![tactic(auto)]

ghost use Rattle.std.specs.Prelude.{◌≡◌};
ghost use Rattle.paper.specs.Buffers.{Demand1};
ghost use Rattle.paper.specs.Demands.{Demand2, Demand3};
ghost use Rattle.paper.specs.Outcome.{outcome};
ghost use Rattle.paper.specs.Sheet.{read_sheet};
ghost use Rattle.base_answers.specs.AnswerNumbers.{told};

use base_answers::Answer;

// Can the two rules of the sheet make the same label?
pub fn clash(sheet: &[u8], work: &mut [u8], answer: &mut [u8]) -> Answer
    ensures whole { told result answer.new work.new ≡ outcome sheet.now work.old answer.old }
    ensures demand1 { Demand1 (read_sheet sheet.now) work.old answer.old (told result answer.new work.new) }
    ensures demand2 { Demand2 (read_sheet sheet.now) work.old answer.old (told result answer.new work.new) }
    ensures demand3 { Demand3 (read_sheet sheet.now) work.old (told result answer.new work.new) }
{
    match read_sheet::read(sheet) {
        Err(refusal) => Err(refusal),
        Ok(read) => Ok(search_question::search_all(read.question, work, answer)),
    }
}
