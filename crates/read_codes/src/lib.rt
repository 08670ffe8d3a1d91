// The codes of the bytes of a pattern or of a side (request K10): what each of them says in its edition, by one code for both.
#![tactic(auto)]

ghost use Rattle.std.specs.Prelude.{◌≡◌};
ghost use Rattle.base_editions.specs.Editions.{paper_edition};
ghost use Rattle.read_codes.specs.Laid.{laid_codes};

use base_editions::{Edition, code};

// "a pattern length up to 192"
pub const PATTERN_BYTES: usize = 192;

// no code
const NO_CODE: u8 = 255;

// The codes of the bytes, as many as there is room for, and 255s behind them.
pub fn codes_of<const N: usize>(edition: Edition, bytes: &[u8]) -> [u8; N]
    ensures { result ≡ laid_codes N (paper_edition edition) bytes.now }
{
    let mut codes = [NO_CODE; N];
    for (i, &byte) in bytes.iter().enumerate() {
        if i == N {
            return codes;
        }
        codes[i] = code(edition, byte);
    }
    codes
}
