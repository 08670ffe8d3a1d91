// A small engine for plain rules (request K9): a question sheet and a buffer for bits in, clash or no clash out. And how many bytes a sheet needs.
#![tactic(auto)]

ghost use Rattle.std.specs.Prelude.{◌≡◌};
ghost use Rattle.paper.specs.Sheet.{read_sheet};
ghost use Rattle.paper_plain.specs.Engine.{engine, needs};
ghost use Rattle.paper_plain.specs.EnginePromised.{EnginePromised, NeedsPromised};
ghost use Rattle.plain_answer.specs.EngineNumbers.{told_plain, told_needed};

use plain_answer::{answer_of, answered, needs};
pub use plain_answer::{Needed, NeededError, PlainAnswer, PlainError, Verdict, in_numbers};

// Can the two rules of the sheet make the same label? "the bit buffer ends all zero after every answer but the sheet's own refusals".
pub fn plain(sheet: &[u8], bits: &mut [u8]) -> PlainAnswer
    ensures whole { told_plain result bits.new ≡ engine sheet.now bits.old }
    ensures promised { EnginePromised (read_sheet sheet.now) bits.old (told_plain result bits.new) }
{
    let mut question = read_sheet::unread!();
    read_sheet::read_into(sheet, &mut question)?;
    let told = answered(question, bits.len());
    search_slots::clear(bits);
    answer_of(told)
}

// How many bytes must be lent for the sheet's bits? With no byte lent the engine goes through no pair.
pub fn bytes_needed(sheet: &[u8]) -> Needed
    ensures whole { told_needed result ≡ needs sheet.now }
    ensures promised { NeedsPromised (read_sheet sheet.now) (told_needed result) }
{
    let mut asked = read_sheet::unread!();
    read_sheet::read_into(sheet, &mut asked)?;
    needs(answered(asked, 0))
}
