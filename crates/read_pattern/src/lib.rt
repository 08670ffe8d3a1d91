// Patterns: a pattern's bytes are judged, each as its code (`base_editions::code`), and its places are worked out as masks.
#![tactic(auto)]

mod place_sets;
mod reader;

ghost use Rattle.std.specs.Prelude.{◌≡◌};
ghost use Rattle.paper.specs.Written.{judge};
ghost use Rattle.read_pattern.specs.Worked.{worked_of};

use base_answers::{Fault, Refusal};
use base_places::{CHARACTERS, PLACES, PlaceTables, place};
use place_sets::when;
use reader::{ReadPart, read};

// The tables of a good pattern, "judged by themselves, as exactly one pattern that uses them all", and worked out in the same walk; or "15 bytes are not
// one pattern", "16 more than 63 leaves", with the offset of the byte at fault.
pub fn tables(s: &[u8]) -> Result<PlaceTables, Refusal>
    ensures { result ≡ worked_of (judge s.now) }
{
    let mut follow = [0; PLACES];
    let mut taking = [0; CHARACTERS];
    let mut part = ReadPart::empty(s.len(), 1);
    if let Err(left) = read(s, &mut follow, &mut taking, &mut part) {
        return Err(Refusal {
            fault: Fault::NotOnePattern,
            place: s.len() - left,
        });
    }
    if 0 < part.left {
        return Err(Refusal {
            fault: Fault::NotOnePattern,
            place: s.len() - part.left,
        });
    }
    if PLACES < part.next {
        return Err(Refusal {
            fault: Fault::TooManyLeaves,
            place: s.len() - part.surplus,
        });
    }
    follow[0] = part.first;
    let last = part.last | when(part.empty, place(0));
    Ok(PlaceTables {
        follow,
        taking,
        last,
    })
}
