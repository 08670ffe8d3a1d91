// Do two label rules clash, and by which way? A question sheet and three lent buffers in, an answer out.
#![tactic(auto)]

ghost use Rattle.std.specs.Prelude.{◌≡◌};
ghost use Rattle.paper.specs.Sheet.{read_sheet};
ghost use Rattle.paper_steps.specs.StepsOutcome.{steps_outcome};
ghost use Rattle.paper_steps.specs.StepsPromised.{StepsPromised};
ghost use Rattle.base_steps.specs.StepsNumbered.{told_steps};

use base_steps::StepsAnswer;

// Can the two rules of the sheet make the same label? After a clash the way found is written into `steps`.
pub fn steps(sheet: &[u8], work: &mut [u8], answer: &mut [u8], steps: &mut [u8]) -> StepsAnswer
    ensures whole { told_steps result answer.new work.new steps.new ≡ steps_outcome sheet.now work.old answer.old steps.old }
    ensures promised { StepsPromised (read_sheet sheet.now) work.old answer.old steps.old (told_steps result answer.new work.new steps.new) }
{
    let question = read_sheet::read(sheet)?.question;
    Ok(search_question::search_steps(question, work, answer, steps))
}
