// The step that texts want: a front field whose text is used up is struck, the left one first; otherwise the next character is put. And how many
// characters of each text are left behind it.
#![tactic(auto)]

ghost use Rattle.std.specs.Prelude.{◌≡◌, if◌then◌else◌, Some, None, get_or};
ghost use Rattle.paper_way.specs.TextSteps.{no_character};
ghost use Rattle.base_codes.specs.Inner.{is_field_code, field_of};
ghost use Rattle.base_codes.specs.Coded.{denoted};
ghost use Rattle.way_step.specs.NextCoded.{used_coded, character_coded, put_code, next_code, less_one, left_behind};

use base_codes::{
    FIELD_CODE, FIELDS, LEFT_STRUCK, NO_TOKEN, RIGHT_STRUCK, SHEET_FIELDS, Situation, field_of,
};
use base_places::CHARACTERS;

// No character of any edition.
// Kept: (a) the paper's `no_character`, which `character_coded` and the texts' law name.
const NO_CHARACTER: usize = 255;

// The code of no step that can be made.
// Kept: (d) `play_step::step` drops it as any byte that is no character, so an Option would only add a case.
const NO_STEP: u8 = 128;

// The field with this token, if it is a field's.
fn field(token: u8) -> Option<usize>
    ensures { result ≡ if is_field_code token then Some (field_of token) else None }
{
    (FIELD_CODE <= token && token < NO_TOKEN).then(|| field_of(token))
}

// How many characters are left of a field's text.
fn count(left: [usize; FIELDS], f: usize) -> usize
    ensures { result ≡ get_or left f 0 }
{
    left.get(f).copied().unwrap_or(0)
}

// Is the token a field's whose text is used up?
fn is_used_up(left: [usize; FIELDS], token: u8) -> bool
    ensures { result ≡ used_coded left token }
{
    field(token).is_some_and(|f| count(left, f) == 0)
}

// The value at a place; behind the end there is no character.
fn value_at(texts: &[u8], i: usize) -> usize
    ensures { result ≡ get_or texts.now i no_character }
{
    texts
        .get(i)
        .map_or(NO_CHARACTER, |&value| usize::from(value))
}

// "the next character" of a side with this token in front
fn character(
    texts: &[u8],
    ends: [usize; FIELDS],
    left: [usize; FIELDS],
    space: usize,
    token: u8,
) -> usize
    ensures { result ≡ character_coded space texts.now ends left token }
{
    if token < FIELD_CODE {
        return usize::from(token);
    }
    let f = field_of(token);
    if f < SHEET_FIELDS {
        return value_at(texts, ends[f].saturating_sub(left[f]));
    }
    if f < FIELDS {
        return space;
    }
    NO_CHARACTER
}

// The code of putting this character, which is next on the one side, where d is next on the other.
fn put_code(c: usize, d: usize, characters: usize) -> u8
    ensures { result ≡ put_code characters c d }
{
    if c == d && c < characters && c < CHARACTERS {
        c as u8
    } else {
        NO_STEP
    }
}

// The step that the texts want, by its inner code.
pub fn next_step(
    texts: &[u8],
    ends: [usize; FIELDS],
    left: [usize; FIELDS],
    space: usize,
    s: Situation,
    characters: usize,
) -> u8
    ensures { result ≡ next_code space texts.now ends left characters (denoted s) }
{
    let l = s.left[0];
    if is_used_up(left, l) {
        return LEFT_STRUCK;
    }
    let r = s.right[0];
    if is_used_up(left, r) {
        return RIGHT_STRUCK;
    }
    let c = character(texts, ends, left, space, l);
    let d = character(texts, ends, left, space, r);
    put_code(c, d, characters)
}

// One character less of the field with this token.
fn less_one(left: [usize; FIELDS], token: u8) -> [usize; FIELDS]
    ensures { result ≡ less_one left token }
{
    let mut less = left;
    if let Some(f) = field(token) {
        if f < FIELDS {
            less[f] = less[f].saturating_sub(1);
        }
    }
    less
}

// How many are left behind this step.
pub fn behind(left: [usize; FIELDS], s: Situation, step: u8) -> [usize; FIELDS]
    ensures { result ≡ left_behind left (denoted s) step }
{
    if CHARACTERS <= step as usize {
        return left;
    }
    let l = s.left[0];
    let r = s.right[0];
    let less = less_one(left, l);
    if r == l {
        return less;
    }
    less_one(less, r)
}
