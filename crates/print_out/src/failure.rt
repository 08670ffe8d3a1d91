// Why a program stops before the end of its input.
#[derive(Clone, Copy)]
pub enum Failure {
    // what comes next is cut short, has another mark or asks for more than is allowed
    NotAllowed,
    // standard input can't be read
    NotRead,
    // standard output can't be written
    NotWritten,
}
