// Bytes put one behind the other into a lent buffer, and counted: past its end nothing is stored, but the count goes on, so that the same
// functions tell how long what they put is. Each hands back the place behind what it put.
#![tactic(auto)]

ghost use Rattle.std.specs.Prelude.{[], ◌∷◌, ◌≡◌};
ghost use Rattle.paper.specs.Printed.{sign as sign_of};
ghost use Rattle.base_put.specs.Counted.{Counted, next_place};

// The characters by value.
const SIGNS: [u8; 43] = *b"0123456789ABCDEFGHIJKLMNOPQRSTUVWXYZ-. $/+%";

fn next_place(at: usize) -> usize
    ensures { result ≡ next_place at }
{
    at.saturating_add(1)
}

// One byte.
pub fn put(out: &mut [u8], at: usize, byte: u8) -> usize
    ensures { Counted out.old out.new at result (byte ∷ []) }
{
    if out.len() <= at {
        return next_place(at);
    }
    out[at] = byte;
    next_place(at)
}

// All of the bytes.
pub fn put_all(out: &mut [u8], at: usize, bytes: &[u8]) -> usize
    ensures { Counted out.old out.new at result bytes.now }
{
    let mut end = at;
    for &byte in bytes {
        end = put(out, end, byte);
    }
    end
}

// The sign of a character. A byte that is no character's value has none: 0 stands for it.
pub fn sign(value: u8) -> u8
    ensures { result ≡ sign_of value }
{
    SIGNS.get(value as usize).copied().unwrap_or(0)
}
