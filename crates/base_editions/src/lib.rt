// The editions of a sheet (request K10): the characters of each, and what its bytes say.
#![tactic(auto)]

ghost use Rattle.std.specs.Prelude.{◌≡◌};
ghost use Rattle.paper.specs.Alphabet.{alphabet_of, codes_from, code};
ghost use Rattle.base_editions.specs.Editions.{paper_edition, alphabet_code};

// A sheet without `ED`, and one that begins with `ED` and the byte 2.
#[derive(Clone, Copy)]
pub enum Edition {
    First,
    Second,
}

// The characters that labels are made of: how many there are, by value from 0 on, and which of them is the space.
#[derive(Clone, Copy)]
pub struct Alphabet {
    pub characters: usize,
    pub space: usize,
}

// "field byte 0 to 7"
const FIELDS: u8 = 8;

// the first code behind the characters, and no code
const FIRST_CODE: u8 = 192;

const NO_CODE: u8 = 255;

// "Code 39, by value"; "Characters are then 0 to 127, .. and the hidden space is 32."
pub fn alphabet_of(edition: Edition) -> Alphabet
    ensures { result ≡ alphabet_code (alphabet_of (paper_edition edition)) }
{
    match edition {
        Edition::First => Alphabet {
            characters: 43,
            space: 38,
        },
        Edition::Second => Alphabet {
            characters: 128,
            space: 32,
        },
    }
}

// The byte that stands for the first code: 64, behind `ED` 192.
pub fn codes_from(edition: Edition) -> u8
    ensures { result ≡ codes_from (paper_edition edition) }
{
    match edition {
        Edition::First => 64,
        Edition::Second => 192,
    }
}

// What a byte of a pattern or of a side says: a character is its value, the eight bytes from 64 on, behind `ED` from 192 on, are 192 to 199, and any
// other byte is 255.
pub fn code(edition: Edition, b: u8) -> u8
    ensures { result ≡ code (paper_edition edition) b }
{
    let own = alphabet_of(edition);
    let from = codes_from(edition);
    if (b as usize) < own.characters {
        return b;
    }
    if b < from {
        return NO_CODE;
    }
    if b - from < FIELDS {
        return FIRST_CODE + (b - from);
    }
    NO_CODE
}
