// The marks of the operations on standard input, two letters each. Behind a mark come numbers, low byte first, and bytes.
use print_out::{Failure, Streams, read_next};

// The mark of the next operation.
#[derive(Clone, Copy)]
pub enum Mark {
    // `CA`
    Catalogue,
    // `WO`
    Work,
    // `SH`
    Show,
    // one of a call
    Call(Call),
}

// What is called.
#[derive(Clone, Copy)]
pub enum Call {
    // `AD`
    Add,
    // `AE`
    AddDecided,
    // `WI`
    Withdraw,
    // `RE`
    Recheck,
    // `RD`
    RecheckDecided,
    // `SO`
    Carry,
    // `DS`
    Drop,
}

// The next mark, where the input doesn't end.
pub fn read_mark(rt: &impl Streams) -> Result<Option<Mark>, Failure> {
    let mut letters = [0u8; 2];
    if !read_next(rt, &mut letters)? {
        return Ok(None);
    }
    let mark = mark_of(letters)?;
    Ok(Some(mark))
}

fn mark_of(letters: [u8; 2]) -> Result<Mark, Failure> {
    match letters {
        [b'C', b'A'] => Ok(Mark::Catalogue),
        [b'W', b'O'] => Ok(Mark::Work),
        [b'S', b'H'] => Ok(Mark::Show),
        [b'A', b'D'] => Ok(Mark::Call(Call::Add)),
        [b'A', b'E'] => Ok(Mark::Call(Call::AddDecided)),
        [b'W', b'I'] => Ok(Mark::Call(Call::Withdraw)),
        [b'R', b'E'] => Ok(Mark::Call(Call::Recheck)),
        [b'R', b'D'] => Ok(Mark::Call(Call::RecheckDecided)),
        [b'S', b'O'] => Ok(Mark::Call(Call::Carry)),
        [b'D', b'S'] => Ok(Mark::Call(Call::Drop)),
        _ => Err(Failure::NotAllowed),
    }
}
