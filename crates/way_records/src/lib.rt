// The answer records of texts, read in place: where each field's text stands, and how long it is; and how many spaces the hidden fields hold.
#![tactic(auto)]

ghost use Rattle.std.specs.Prelude.{ℕ, ◌≤◌, ◌<◌, ◌≡◌, not, List, ◌++◌, Some, IfSome, ltb, eqb, get_or};
ghost use Rattle.paper.specs.Lists.{all, only};
ghost use Rattle.paper.specs.Numbers.{fields};
ghost use Rattle.paper_way.specs.TextRecords.{text_front, values_front, texts_from, no_texts_yet};
ghost use Rattle.base_codes.specs.Inner.{tokens};
ghost use Rattle.search_records.specs.Records.{fields_with_sets};
ghost use Rattle.way_records.specs.Spans.{length_of, texts_of, Own, token_length, label_coded, read_on, TextsFound};

use base_codes::{CodedSide, FIELD_CODE, FIELDS, SHEET_FIELDS, field_of, length_of};
use base_places::PlaceSet;

// "`VA`, field byte, length in two bytes (low first)"
const HEAD: usize = 5;

// The hidden fields, by number.
const LEFT_SPACES: usize = SHEET_FIELDS;

const RIGHT_SPACES: usize = SHEET_FIELDS + 1;

// Where the next record begins, and of each field the place behind its text and how many of its characters are left.
#[derive(Clone, Copy)]
pub struct Spans {
    pub next: usize,
    pub ends: [usize; FIELDS],
    pub left: [usize; FIELDS],
}

// Is each of the values a character, where there are so many?
fn are_characters(values: &[u8], characters: usize) -> bool
    ensures { result ≡ all (λ (c : ℕ). ltb c characters) values.now }
{
    values.iter().all(|&value| usize::from(value) < characters)
}

// "the values": so many, each a character. It tells how many.
fn values_in_front(s: &[u8], length: usize, characters: usize) -> Option<usize>
    ensures value { result ≡ length_of (values_front characters length s.now) }
    ensures no_longer { IfSome result (λ n. n ≤ length) }
{
    let values = s.get(0..length)?;
    are_characters(values, characters).then_some(length)
}

// The record of the field f that the bytes begin with, where there are so many characters: how long its text is.
#[tactic(auto, unfolding(paper_way::specs::TextRecords::text_front))]
fn in_front(s: &[u8], f: u8, characters: usize) -> Option<usize>
    ensures value { result ≡ length_of (text_front characters f s.now) }
    ensures two_bytes { IfSome result (λ n. n ≤ 65535) }
{
    match s {
        [b'V', b'A', field, low, high, values @ ..] if *field == f => {
            values_in_front(
                values,
                usize::from(*low) + 256 * usize::from(*high),
                characters,
            )
        }
        _ => None,
    }
}

// With the record of the field f, whose first place set is this, if the field stands.
fn with_field(s: Spans, texts: &[u8], f: usize, set: PlaceSet, characters: usize) -> Option<Spans>
    requires { f < fields }
    ensures by_index { (x : ℕ) (fs : List ℕ) → read_on characters x texts.now (Some s) (only (not (eqb set 0)) f ++ fs) ≡ read_on characters x texts.now result fs }
    ensures own { Own texts.now s → IfSome result (Own texts.now) }
{
    if set == 0 {
        return Some(s);
    }
    let length = in_front(texts.get(s.next..)?, f as u8, characters)?;
    let mut with = s;
    with.next = s.next + HEAD + length;
    with.ends[f] = with.next;
    with.left[f] = length;
    Some(with)
}

// The records of the fields that stand, by rising number: those whose first place set is not 0. "nothing behind the last"
fn read_own(texts: &[u8], sets: [PlaceSet; FIELDS], characters: usize) -> Option<Spans>
    ensures by_index { (x : ℕ) → texts_of x texts.now result ≡ texts_from characters no_texts_yet (fields_with_sets sets) texts.now }
    ensures own { IfSome result (Own texts.now) }
{
    let mut s = Spans {
        next: 0,
        ends: [0; FIELDS],
        left: [0; FIELDS],
    };
    for f in 0..SHEET_FIELDS {
        s = with_field(s, texts, f, sets[f], characters)?;
    }
    if s.next < texts.len() {
        return None;
    }
    Some(s)
}

// How many characters a token stands for.
fn token_length(b: u8, left: [usize; FIELDS]) -> usize
    ensures { result ≡ token_length left b }
{
    if b < FIELD_CODE {
        return 1;
    }
    left.get(field_of(b)).copied().unwrap_or(0)
}

// How long the label of a side is.
fn label_length(side: CodedSide, left: [usize; FIELDS]) -> usize
    requires { (f : ℕ) → get_or left f 0 ≤ 65535 }
    ensures { result ≡ label_coded left (tokens side) }
{
    let mut total = 0;
    for &token in &side[0..length_of(side)] {
        total += token_length(token, left);
    }
    total
}

// Reads the records of the fields with a first place set. The hidden fields hold the spaces that the shorter of the sides' labels lacks.
pub fn read(
    texts: &[u8],
    left: CodedSide,
    right: CodedSide,
    sets: [PlaceSet; FIELDS],
    characters: usize,
) -> Option<Spans>
    ensures { TextsFound characters (fields_with_sets sets) texts.now (tokens left) (tokens right) result }
{
    let mut spans = read_own(texts, sets, characters)?;
    let l = label_length(left, spans.left);
    let r = label_length(right, spans.left);
    spans.left[LEFT_SPACES] = r.saturating_sub(l);
    spans.left[RIGHT_SPACES] = l.saturating_sub(r);
    Some(spans)
}
