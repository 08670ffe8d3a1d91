// A part of the input: a mark of two letters, the number of its cases in four bytes, low first, and so many cases.
use print_out::{Failure, Streams, low_first, read_next};

// What the cases of a part are.
#[derive(Clone, Copy)]
pub enum Kind {
    // sheets and the lengths of their buffers
    Sheets(Shown),
    // `WR`: what the writer of sheets is handed (written.rt). A line: number, count, place and written length, and every byte of the output buffer
    Written,
    // `WE`: the same with the edition in front. A line as of `WR`
    Edition,
    // `FA`: texts to be spelt and spelt texts to be read back (ascii.rt). A line as of `WR`
    Ascii,
    // `FR`: pairs of sides to be told apart (fronts.rt). A line: 1 or 0
    Fronts,
}

// What is done with a sheet, and what is printed of it.
#[derive(Clone, Copy)]
pub enum Shown {
    // `BY`: a line: number, count, place and written length, and every byte of the two buffers as they are afterwards
    Bytes,
    // `DE`: the same of the decision, and the search that decided
    Decided,
    // `LI`: the lines that the program `clash` prints
    Lines,
    // `SC`: a line: number, place and written length of the sheet's script. Behind number 0 the script, and a line: the number for a buffer of
    // just its length, the number for one that is a byte shorter, and how many of that one's bytes are changed
    Scripts,
    // `SP`: a line: number, place and written length of the sheet or rule carried over into the answer buffer, and every byte of that
    Spelt,
    // `DS`: the same of the sheet or rule without its stray patterns
    Dropped,
    // `PL`: a line: number, count and place of the engine for plain rules, and every byte of the bit buffer, which is the working buffer; then
    // number, place and bytes of what the sheet needs
    Plain,
    // `ST`: a line: that of `BY` for the sheet answered with its steps, and the bytes of steps and every byte of the steps buffer, whose length
    // stands behind the sheet in two bytes
    Steps,
    // `PY`: a line: number, count, place and written length of the way played, and every byte of the answer buffer. The steps stand behind the
    // sheet, with their length in two bytes before them
    Played,
    // `WA`: the same of the way of given texts, which stand behind the sheet; the answer buffer is the steps buffer
    WayOfTexts,
}

// What the cases of the part are, and how many there are.
#[derive(Clone, Copy)]
pub struct Part {
    pub kind: Kind,
    pub cases: usize,
}

const HEAD: usize = 6;

// Reads the head of the next part, where the input doesn't end.
pub fn next(rt: &impl Streams) -> Result<Option<Part>, Failure> {
    let mut head = [0u8; HEAD];
    if !read_next(rt, &mut head)? {
        return Ok(None);
    }
    let kind = kind_of([head[0], head[1]])?;
    let cases = low_first(head[2], head[3], head[4], head[5]);
    Ok(Some(Part { kind, cases }))
}

// By the mark's two letters.
fn kind_of(mark: [u8; 2]) -> Result<Kind, Failure> {
    match mark {
        [b'B', b'Y'] => Ok(Kind::Sheets(Shown::Bytes)),
        [b'D', b'E'] => Ok(Kind::Sheets(Shown::Decided)),
        [b'L', b'I'] => Ok(Kind::Sheets(Shown::Lines)),
        [b'S', b'C'] => Ok(Kind::Sheets(Shown::Scripts)),
        [b'S', b'P'] => Ok(Kind::Sheets(Shown::Spelt)),
        [b'D', b'S'] => Ok(Kind::Sheets(Shown::Dropped)),
        [b'P', b'L'] => Ok(Kind::Sheets(Shown::Plain)),
        [b'S', b'T'] => Ok(Kind::Sheets(Shown::Steps)),
        [b'P', b'Y'] => Ok(Kind::Sheets(Shown::Played)),
        [b'W', b'A'] => Ok(Kind::Sheets(Shown::WayOfTexts)),
        [b'W', b'R'] => Ok(Kind::Written),
        [b'W', b'E'] => Ok(Kind::Edition),
        [b'F', b'A'] => Ok(Kind::Ascii),
        [b'F', b'R'] => Ok(Kind::Fronts),
        _ => Err(Failure::NotAllowed),
    }
}
