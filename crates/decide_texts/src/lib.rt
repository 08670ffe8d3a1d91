// "A text for each field that stands twice": such a field holds one text alone. For a number of characters it is the least text of so many, by value.
#![tactic(auto)]

ghost use Rattle.std.specs.Prelude.{cond, [], ◌≡◌, ℕ, ◌^◌, ◌≤◌, ◌<◌, eqb, get_or};
ghost use Rattle.paper.specs.Numbers.{most_characters};
ghost use Rattle.paper_decide.specs.OneText.{longest_tried};
ghost use Rattle.base_places.specs.Masks.{places, mask_of};
ghost use Rattle.decide_texts.specs.TextsCoded.{meets, start, taken_by, leading_to, ending, EndingsSaid};
ghost use Rattle.decide_texts.specs.TextsCoded.{first_to, text_from, spelt_tables, text_tables, texts_coded};

use base_codes::SHEET_FIELDS;
use base_places::{CHARACTERS, PLACES, PlaceSet, PlaceTables, followers, place, within};
use base_question::{Question, standings};

// No text that is tried has more characters.
const LONGEST_TRIED: usize = 24;

// How many numbers of characters are tried: 0 to 24.
const LENGTHS: usize = LONGEST_TRIED + 1;

// The set that holds the start alone.
const START: PlaceSet = 1;

// A field that stands more often holds one text.
const ONCE: usize = 1;

// How many characters the text has, and for each smaller number the places from which a text of so many may end.
#[derive(Clone, Copy)]
struct Ends {
    length: usize,
    ends: [PlaceSet; LENGTHS],
}

// The question in which each field that stands twice holds one text: the least one of the least possible length of so many characters or more, or where
// there is none of the greatest below. It is not put into its caller, so that what it works with is no longer on the stack when the question is
// searched.
#[inline(never)]
pub fn with_texts(mut question: Question, asked: usize) -> Question
    ensures { result ≡ texts_coded question asked }
{
    let alphabet = question.alphabet;
    let n = within(alphabet.characters);
    let left = question.left;
    let right = question.right;
    let counts = standings(left, right);
    for f in 0..SHEET_FIELDS {
        if ONCE < counts[f] {
            let own = question.fields[f];
            let its = with_text(own, n, asked);
            question.fields[f] = its;
        }
    }
    question
}

// What is worked out of a field that holds one text; as it was, where it has none of at most 24 characters.
fn with_text(own: PlaceTables, n: usize, asked: usize) -> PlaceTables
    requires { n ≤ most_characters }
    ensures { result ≡ text_tables n asked own }
{
    match endings(&own.follow, taken(&own.taking, n), own.last, asked) {
        Some(its) => spelt(&own.follow, &own.taking, n, its.ends, its.length),
        None => own,
    }
}

// A set of a lent table. (Only a function that it is handed to knows that it has 64 bits.)
fn known(set: PlaceSet) -> PlaceSet
    ensures { (result ≡ set) × (set < 2 ^ places) }
{
    set
}

// The places that take some character.
fn taken(taking: &[PlaceSet; CHARACTERS], n: usize) -> PlaceSet
    requires { n ≤ most_characters }
    ensures { result ≡ taken_by n taking.now }
{
    let mut r = 0;
    for &its in &taking[..n] {
        r |= known(its);
    }
    r
}

// Have two sets a place in common?
fn meets(one: PlaceSet, other: PlaceSet) -> bool
    ensures { result ≡ meets one other }
{
    one & other != 0
}

// The place i, if a place of the set is among those that may come next; else no place.
fn place_if(next: PlaceSet, set: PlaceSet, i: usize) -> PlaceSet
    ensures { result ≡ cond (meets next set) (mask_of (λ (q : ℕ). eqb i q)) 0 }
{
    if meets(next, set) { place(i) } else { 0 }
}

// The places that some place of the set may follow.
fn leading_to(follow: &[PlaceSet; PLACES], set: PlaceSet) -> PlaceSet
    ensures { result ≡ leading_to follow.now set }
{
    let mut r = 0;
    for (i, &next) in follow.iter().enumerate() {
        r |= place_if(next, set, i);
    }
    r
}

// The length of the text, and the places from which texts shorter than that may end: the lengths rise, up to the first of so many characters or more.
// There is none where no text that is tried may end.
fn endings(
    follow: &[PlaceSet; PLACES],
    taken: PlaceSet,
    last: PlaceSet,
    asked: usize,
) -> Option<Ends>
    ensures { EndingsSaid (ending follow.now taken last) asked result }
{
    let mut ends = [0; LENGTHS];
    let mut length = None;
    let mut here = last;
    for k in 0..LENGTHS {
        if meets(START, here) {
            if asked <= k {
                return Some(Ends { length: k, ends });
            }
            length = Some(k);
        }
        ends[k] = here;
        here = leading_to(follow, taken & here);
    }
    Some(Ends {
        length: length?,
        ends,
    })
}

// The first character that leads from what may come next to a place of `ends`; 0, where none does.
fn first_to(taking: &[PlaceSet; CHARACTERS], n: usize, next: PlaceSet, ends: PlaceSet) -> usize
    requires { n ≤ most_characters }
    ensures { (result < most_characters) × (result ≡ first_to n taking.now next ends) }
{
    for c in 0..n {
        if meets(next & taking[c], ends) {
            return c;
        }
    }
    0
}

// The tables of the empty text: its start may be the last place.
fn no_text() -> PlaceTables
    ensures { result ≡ spelt_tables [] }
{
    PlaceTables {
        follow: [0; PLACES],
        taking: [0; CHARACTERS],
        last: START,
    }
}

// The tables of the text of so many characters, each the first that leads to where the rest may end.
fn spelt(
    follow: &[PlaceSet; PLACES],
    taking: &[PlaceSet; CHARACTERS],
    n: usize,
    ends: [PlaceSet; LENGTHS],
    length: usize,
) -> PlaceTables
    requires { (n ≤ most_characters) × (length ≤ longest_tried) }
    ensures { result ≡ spelt_tables (text_from n follow.now taking.now (λ (k : ℕ). get_or ends k 0) length start) }
{
    let mut tables = no_text();
    let mut set = START;
    for at in 0..length {
        let next = followers(follow, set);
        let c = first_to(taking, n, next, ends[length - 1 - at]);
        set = next & taking[c];
        let its = place(at + 1);
        tables.follow[at] = its;
        tables.taking[c] = tables.taking[c] | its;
        tables.last = its;
    }
    tables
}
