// A pair of rules: "the present rule is the left side, the new one the right, with its fields as 4 to 7". What it asks, how it is asked, and what
// it is answered.
#![tactic(auto)]

ghost use Rattle.std.specs.Prelude.{◌≡◌, map, eqb, length};
ghost use Rattle.paper.specs.Numbers.{fields};
ghost use Rattle.base_answers.specs.AnswerNumbers.{number_in_pair};
ghost use Rattle.catalogue_question.specs.PairCoded.{moved_code, joined, rules_question};

use base_answers::How;
use base_codes::{CodedSide, FIELD_CODE, SHEET_FIELDS};
use base_editions::Edition;
use base_question::Question;
use read_rule::{RULE_FIELDS, Rule};

// How a pair is asked.
// Kept: (a) a switch, for the definitions and theorems of both ways take it (`asking_coded`, `pair_by`).
#[derive(Clone, Copy)]
pub enum Asking {
    // by 01's search
    Search,
    // by up to seven attempts, as `decide` asks
    Decide,
}

// What a pair is answered, the situations entered, and the attempt that gave it.
#[derive(Clone, Copy)]
pub struct Pair {
    pub answer: usize,
    pub count: usize,
    pub search: u8,
}

// The codes from that of field 0 on whose field can be moved up.
const MOVABLE: u8 = 251;

// What the pair asks: the two rules' sides by inner codes, what is worked out of their fields' patterns, and where these stand, each in its own rule's
// bytes. A rule is of the first edition, so a pair is in Code 39.
pub fn asked(present: &Rule, new: &Rule) -> Question
    ensures { result ≡ rules_question present.now new.now }
{
    let left = present.side;
    let right = moved_up(new.side);
    let fields = joined(present.fields, new.fields);
    let bodies = joined(present.bodies, new.bodies);
    let alphabet = base_editions::alphabet_of(Edition::First);
    Question {
        alphabet,
        left,
        right,
        fields,
        bodies,
    }
}

// "a pair's texts are not written, so it can't give 20"
pub fn answered(how: How, count: usize, search: u8) -> Pair
    ensures { result ≡ record { answer = number_in_pair how; count = count; search = search } }
{
    Pair {
        answer: how.pair_number(),
        count,
        search,
    }
}

// Whether it is answered 1. Given up, or not decided, is not apart.
pub fn is_apart(pair: Pair) -> bool
    ensures { result ≡ eqb pair.answer 1 }
{
    pair.answer == 1
}

// The side with its fields as 4 to 7.
fn moved_up(side: CodedSide) -> CodedSide
    ensures { result ≡ map moved_code side }
{
    side.map(moved_code)
}

// The code of a field 4 higher; a character stays, and so does no token.
fn moved_code(b: u8) -> u8
    ensures { result ≡ moved_code b }
{
    if b < FIELD_CODE {
        return b;
    }
    if MOVABLE <= b {
        return b;
    }
    b + RULE_FIELDS as u8
}

// What the first rule has for its fields, then the second's.
fn joined<T: Copy>(first: [T; SHEET_FIELDS], second: [T; SHEET_FIELDS]) -> [T; SHEET_FIELDS]
    ensures both { result ≡ joined first second }
    ensures each { (length first ≡ fields) × (length second ≡ fields) }
{
    let mut both = first;
    for f in 0..RULE_FIELDS {
        both[RULE_FIELDS + f] = second[f];
    }
    both
}
