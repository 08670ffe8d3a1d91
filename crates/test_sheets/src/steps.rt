// A sheet answered with its steps, a way that is played, and the way of given texts. Behind the sheet of a case stands a length in two bytes, low
// first: that of the steps buffer, or that of the steps or of the texts, which stand behind it.
use crate::written::read_bytes;
use crate::{print_answered, print_line};
use base_answers::Numbers;
use base_steps::StepsNumbers;
use print_out::{Failure, Streams, fill, print, print_answer, print_number, read_number};

// more than the longest way in the program's room
const STEPS: usize = 2048;

// as many bytes of texts as two bytes say
const TEXTS: usize = 65535;

// The byte with which the steps buffer is filled before each case.
const STEPS_FILL: u8 = 195;

pub fn show_steps(
    rt: &impl Streams,
    sheet: &[u8],
    work: &mut [u8],
    answer: &mut [u8],
) -> Result<(), Failure> {
    let mut steps = [0u8; STEPS];
    let n = read_number(rt, 2, STEPS)?;
    show_way(rt, sheet, work, answer, &mut steps[..n])
}

// A line: number, count, place and written length, every byte of the answer buffer and of the working buffer, and of the steps buffer.
fn show_way(
    rt: &impl Streams,
    sheet: &[u8],
    work: &mut [u8],
    answer: &mut [u8],
    steps: &mut [u8],
) -> Result<(), Failure> {
    fill(steps, STEPS_FILL);
    let told = StepsNumbers::from(steps_sheet::steps(sheet, work, answer, steps));
    let numbers = Numbers {
        number: told.number,
        count: told.count,
        place: told.place,
        written: told.written,
    };
    print_answered(rt, numbers, work, answer)?;
    print(rt, b", steps ")?;
    print_number(rt, told.steps)?;
    print_answer(rt, steps, told.steps, STEPS_FILL)?;
    print(rt, b"\n")
}

// A line: number, count, place and written length, and every byte of the answer buffer.
pub fn show_played(rt: &impl Streams, sheet: &[u8], answer: &mut [u8]) -> Result<(), Failure> {
    let mut steps = [0u8; STEPS];
    let n = read_bytes(rt, &mut steps)?;
    let told = Numbers::from(play_sheet::play(sheet, &steps[..n], answer));
    print_line(rt, told, answer)
}

// A line: number, count, place and written length, and every byte of the steps buffer.
pub fn show_way_of_texts(rt: &impl Streams, sheet: &[u8], steps: &mut [u8]) -> Result<(), Failure> {
    let mut texts = [0u8; TEXTS];
    let n = read_bytes(rt, &mut texts)?;
    let told = Numbers::from(way_sheet::way(sheet, &texts[..n], steps));
    print_line(rt, told, steps)
}
