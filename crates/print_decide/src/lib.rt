// What the program `decide` prints, made in a lent buffer.
#![tactic(auto)]

ghost use Rattle.std.specs.Prelude.{◌≡◌};
ghost use Rattle.paper_print.specs.DecideProgram.{printed_decided};
ghost use Rattle.print_lines.specs.Lines.{Prints};
ghost use Rattle.print_clash.specs.ClashPrinted.{lined_as};
ghost use Rattle.print_decide.specs.DecisionPrinted.{lined_decided};

use base_answers::Numbers;
pub use print_clash::INPUT;
use print_clash::{ANSWER, program_part, zeroed_answer, zeroed_work};
pub use print_lines::DECIDED_LINE;

// No later line is longer than two of its records.
pub const PRINTED: usize = DECIDED_LINE + 2 * ANSWER;

// The lines for a sheet and two lent buffers, and how many bytes they are. Where `out` has no room for the longest, nothing is asked and nothing changed.
// Kept: (d) beside `print_clash::lines`, of which each call is another: what is asked, how much room that needs and which lines are put.
pub fn lines(sheet: &[u8], work: &mut [u8], answer: &mut [u8], out: &mut [u8]) -> Option<usize>
    ensures { lined_as result out.new answer.new work.new ≡ lined_decided sheet.now work.old answer.old out.old }
{
    if !print_lines::has_decided_room(out.len(), answer.len()) {
        return None;
    }
    let edition = print_signs::edition(sheet);
    let made = decide_sheet::decide(sheet, work, answer);
    let told = Numbers::from(made.answer);
    print_lines::put_decided(out, edition, told, made.search as usize, answer)
}

// What `decide` prints for an input, in front of `out`. How many bytes that is.
// Kept: (a) beside `print_clash::printed`: each has its own theorem and its own array, and what they share is `program_part`.
pub fn printed(input: &[u8], out: &mut [u8; PRINTED]) -> usize
    ensures { Prints (printed_decided input.now) out.old out.new result }
{
    let mut work = zeroed_work();
    let mut answer = zeroed_answer();
    lines(program_part(input), &mut work, &mut answer, out).unwrap_or(0)
}
