// Reading standard input. A read that fails is never taken for the input's end.
ghost use Rattle.std.specs.Prelude.{◌≤◌, length, IfOk};

use crate::failure::Failure;
use crate::lent::low_first;
use crate::output::tell_end;
use crate::streams::Streams;
use std::io::Read;

// Reads until the buffer is full or the input ends. How many bytes came.
pub fn read_first(rt: &impl Streams, input: &mut [u8]) -> Result<usize, Failure>
    ensures { IfOk result (λ n. n ≤ length input.old) }
{
    let mut n = 0;
    while n < input.len() {
        let more = read_some(rt, &mut input[n..])?;
        if more == 0 {
            return Ok(n);
        }
        n += more;
    }
    Ok(n)
}

// Reads as much of the input as the buffer holds, hands it on, and tells at the end why the program could not go on.
pub fn answer_input<F: FnOnce(&mut [u8]) -> Result<(), Failure>>(
    rt: &impl Streams,
    program: &[u8],
    input: &mut [u8],
    answer: F,
)
    requires { F.IsAlwaysCallable answer }
{
    let ended = match read_first(rt, input) {
        Ok(n) => answer(&mut input[..n]),
        Err(failure) => Err(failure),
    };
    tell_end(rt, program, ended);
}

fn read_some(rt: &impl Streams, part: &mut [u8]) -> Result<usize, Failure>
    ensures { IfOk result (λ n. n ≤ length part.old) }
{
    rt.input().read(part).map_err(|_| Failure::NotRead)
}

// Reads all the bytes, where the input may end before the first: then it says no.
pub fn read_next(rt: &impl Streams, bytes: &mut [u8]) -> Result<bool, Failure> {
    let n = read_first(rt, bytes)?;
    if n == bytes.len() {
        return Ok(true);
    }
    if n == 0 {
        return Ok(false);
    }
    Err(Failure::NotAllowed)
}

// Reads all the bytes, where the input may not end.
pub fn read_all(rt: &impl Streams, bytes: &mut [u8]) -> Result<(), Failure> {
    if read_next(rt, bytes)? {
        return Ok(());
    }
    Err(Failure::NotAllowed)
}

// A number in so many bytes, low first, four at most, of this size at most.
pub fn read_number(rt: &impl Streams, bytes: usize, most: usize) -> Result<usize, Failure>
    ensures { IfOk result (λ n. n ≤ most) }
{
    let mut all = [0u8; 4];
    read_all(rt, &mut all[..bytes.min(4)])?;
    let number = low_first(all[0], all[1], all[2], all[3]);
    if most < number {
        return Err(Failure::NotAllowed);
    }
    Ok(number)
}
