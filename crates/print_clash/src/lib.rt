// What the program `clash` prints, made in a lent buffer.
#![tactic(auto)]

ghost use Rattle.std.specs.Prelude.{◌≡◌, take};
ghost use Rattle.paper.specs.Numbers.{program_input};
ghost use Rattle.paper_print.specs.ClashProgram.{printed as printed-for};
ghost use Rattle.print_lines.specs.Lines.{Prints};
ghost use Rattle.print_clash.specs.ClashPrinted.{no_work, no_answer, lined_as, lined};

use base_answers::Numbers;
pub use print_lines::FIRST_LINE;

// "`clash` reads the first" 2,048 "bytes of standard input, lends 65,520 bytes of work" (356 situations) "and 4,096 of answer."
pub const INPUT: usize = 2048;

pub const WORK: usize = 65520;

pub const ANSWER: usize = 4096;

// No later line is longer than two of its records.
pub const PRINTED: usize = FIRST_LINE + 2 * ANSWER;

// The lines for a sheet and two lent buffers, and how many bytes they are. Where `out` has no room for the longest, nothing is asked and nothing changed.
pub fn lines(sheet: &[u8], work: &mut [u8], answer: &mut [u8], out: &mut [u8]) -> Option<usize>
    ensures { lined_as result out.new answer.new work.new ≡ lined sheet.now work.old answer.old out.old }
{
    if !print_lines::has_room(out.len(), answer.len()) {
        return None;
    }
    let edition = print_signs::edition(sheet);
    let told = Numbers::from(search_clash::clash(sheet, work, answer));
    print_lines::put_lines(out, edition, told, answer)
}

// The part of an input that a program reads.
pub fn program_part(input: &[u8]) -> &[u8]
    ensures { result.now ≡ take program_input input.now }
{
    &input[..INPUT.min(input.len())]
}

// The program's working buffer.
pub fn zeroed_work() -> [u8; WORK]
    ensures { result ≡ no_work }
{
    [0; WORK]
}

// The program's answer buffer.
pub fn zeroed_answer() -> [u8; ANSWER]
    ensures { result ≡ no_answer }
{
    [0; ANSWER]
}

// What `clash` prints for an input, in front of `out`. How many bytes that is.
pub fn printed(input: &[u8], out: &mut [u8; PRINTED]) -> usize
    ensures { Prints (printed-for input.now) out.old out.new result }
{
    let mut work = zeroed_work();
    let mut answer = zeroed_answer();
    lines(program_part(input), &mut work, &mut answer, out).unwrap_or(0)
}
