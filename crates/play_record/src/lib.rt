// The record in front of bytes of steps, which may be anything.
#![tactic(auto)]

ghost use Rattle.std.specs.Prelude.{◌≡◌, drop};
ghost use Rattle.paper_steps.specs.StepRecords.{front_of, with_value};
ghost use Rattle.play_record.specs.InFront.{record_of};

use base_codes::{LEFT_STRUCK, RIGHT_STRUCK};

// "mark `ST`, a kind byte (0 left front struck, 1 right front struck, 2 a character) and for kind 2 its value"
const STRIKE: usize = 3;

const PUT: usize = 4;

// A step by its inner code, and how many bytes its record has.
// Kept: (a) the step is a byte by its inner code, as the search's slots hold it and `play_step::step` takes it.
#[derive(Clone, Copy)]
pub struct Record {
    pub step: u8,
    pub bytes: usize,
}

// The record that the bytes begin with, where there are so many characters: "for kind 2 its value" is a character's.
fn in_front(s: &[u8], characters: usize) -> Option<Record>
    ensures { result ≡ record_of (front_of characters s.now) }
{
    match s {
        [b'S', b'T', 0, ..] => Some(Record {
            step: LEFT_STRUCK,
            bytes: STRIKE,
        }),
        [b'S', b'T', 1, ..] => Some(Record {
            step: RIGHT_STRUCK,
            bytes: STRIKE,
        }),
        [b'S', b'T', 2, value, ..] if usize::from(*value) < characters => {
            Some(Record {
                step: *value,
                bytes: PUT,
            })
        }
        _ => None,
    }
}

// The record that stands at this place, where there are so many characters.
pub fn front(s: &[u8], at: usize, characters: usize) -> Option<Record>
    ensures { result ≡ record_of (front_of characters (drop at s.now)) }
{
    in_front(s.get(at..)?, characters)
}
