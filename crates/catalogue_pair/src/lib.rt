// A pair of rules asked in a working buffer, by 01's search or as `decide` asks. No text is written.
#![tactic(auto)]

ghost use Rattle.std.specs.Prelude.{Bool, ◌≡◌, length, replicate};
ghost use Rattle.plain_question.specs.Reached.{Meets, Says};
ghost use Rattle.catalogue_question.specs.PairCoded.{rules_question};
ghost use Rattle.catalogue_pair.specs.Ask.{searched_pair, decided_pair, pair_by};

use base_question::Question;
use catalogue_question::{Asking, Pair};
use read_rule::Rule;

// Can the two rules make the same label? The rules as they were read, and the bytes of both, in which their patterns stand.
pub fn ask(
    how: Asking,
    present: &Rule,
    new: &Rule,
    present_bytes: &[u8],
    new_bytes: &[u8],
    work: &mut [u8],
) -> Pair
    ensures answer { (m : Bool) → Says m (Meets (rules_question present.now new.now)) → result ≡ pair_by how (rules_question present.now new.now) m present_bytes.now new_bytes.now (length work.old) }
    ensures work { work.new ≡ replicate (length work.old) 0 }
{
    let question = catalogue_question::asked(present, new);
    match how {
        Asking::Search => search(question, work),
        Asking::Decide => decide(question, present_bytes, new_bytes, work),
    }
}

// By 01's search, which is the first attempt.
fn search(question: Question, work: &mut [u8]) -> Pair
    ensures answer { result ≡ searched_pair question (length work.old) }
    ensures work { work.new ≡ replicate (length work.old) 0 }
{
    let mut none = [0; 1];
    let ended = search_question::search_all(question, work, &mut none[0..0]);
    let how = ended.how;
    catalogue_question::answered(how, ended.count, 1)
}

// By up to seven attempts.
fn decide(question: Question, present: &[u8], new: &[u8], work: &mut [u8]) -> Pair
    ensures answer { (m : Bool) → Says m (Meets question) → result ≡ decided_pair question m present.now new.now (length work.old) }
    ensures work { work.new ≡ replicate (length work.old) 0 }
{
    let mut none = [0; 1];
    let settled = decide_question::decide(question, present, new, work, &mut none[0..0]);
    let ended = settled.ended;
    let how = ended.how;
    catalogue_question::answered(how, ended.count, settled.search)
}
