// What the programs share: reading, the numbers of a stream, the buffers that are lent, and what is printed.
#![tactic(auto)]

mod bytes;
mod failure;
mod input;
mod lent;
mod output;
mod streams;

pub use bytes::{changed, print_answer, print_buffer, print_work};
pub use failure::Failure;
pub use input::{answer_input, read_all, read_first, read_next, read_number};
pub use lent::{WORK, WORK_FILL, fill, low_first};
pub use output::{print, print_number, print_numbers, tell, tell_end};
pub use streams::Streams;
