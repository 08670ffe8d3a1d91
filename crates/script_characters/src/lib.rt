// A character in a literal of a script for string solvers, put into a lent buffer and counted.
#![tactic(auto)]

ghost use Rattle.std.specs.Prelude.{◌≡◌, ◌<◌};
ghost use Rattle.paper.specs.Alphabet.{edition_2};
ghost use Rattle.paper_script.specs.Script.{hexadecimal_digit, hexadecimal, escaped, is_plain, character};
ghost use Rattle.base_put.specs.Counted.{Counted};
ghost use Rattle.base_editions.specs.Editions.{paper_edition};

use base_editions::Edition;
use base_put::{put, put_all, sign};

// In the first edition its sign, in the second its code point as the standard has it in a literal.
pub fn character(out: &mut [u8], at: usize, edition: Edition, c: u8) -> usize
    ensures { Counted out.old out.new at result (character (paper_edition edition) c) }
{
    match edition {
        Edition::First => put(out, at, sign(c)),
        Edition::Second => in_ascii(out, at, c),
    }
}

// "doubles a quotation mark and writes what can't stand plainly as its code"
fn in_ascii(out: &mut [u8], at: usize, c: u8) -> usize
    ensures { Counted out.old out.new at result (character edition_2 c) }
{
    if c == b'"' {
        return put_all(out, at, b"\"\"");
    }
    if is_plain(c) {
        return put(out, at, c);
    }
    escaped(out, at, c)
}

// "the backslash too": `\`, `u`, `{41}` side by side would be another character.
fn is_plain(c: u8) -> bool
    ensures { result ≡ is_plain c }
{
    if c < b' ' {
        return false;
    }
    if b'~' < c {
        return false;
    }
    c != b'\\'
}

// \u{X}
fn escaped(out: &mut [u8], at: usize, c: u8) -> usize
    ensures { Counted out.old out.new at result (escaped c) }
{
    let begun = put_all(out, at, b"\\u{");
    let behind = hexadecimal(out, begun, c);
    put(out, behind, b'}')
}

// The digits of a code, without zeros in front.
fn hexadecimal(out: &mut [u8], at: usize, c: u8) -> usize
    ensures { Counted out.old out.new at result (hexadecimal c) }
{
    if c < 16 {
        return put(out, at, hexadecimal_digit(c));
    }
    let behind = put(out, at, hexadecimal_digit(c / 16));
    put(out, behind, hexadecimal_digit(c % 16))
}

fn hexadecimal_digit(d: u8) -> u8
    requires { d < 16 }
    ensures { result ≡ hexadecimal_digit d }
{
    if d < 10 { b'0' + d } else { 87 + d }
}
