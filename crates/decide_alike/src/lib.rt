// Which characters of a question are searched: the least ones of those alike, and a few of these. The characters are those of its alphabet, of which
// there are n (request K10: Code 39 has 43, Full ASCII has 128).
#![tactic(auto)]

ghost use Rattle.std.specs.Prelude.{◌&&◌, ◌++◌, ◌≡◌, ◌≤◌, ◌<◌};
ghost use Rattle.paper.specs.Lists.{member};
ghost use Rattle.paper.specs.Numbers.{most_characters};
ghost use Rattle.base_places.specs.Masks.{in_mask};
ghost use Rattle.base_codes.specs.Inner.{tokens};
ghost use Rattle.decide_alike.specs.AlikeCoded.{fixed_coded, standing_coded, same_places, alike_coded, is_least_coded, least_from, ones_from, if_below};
ghost use Rattle.decide_alike.specs.AlikeCoded.{first_taken, free_coded, choice_coded, chosen_at, chosen_within, chosen_coded, some_coded, few_from, characters_coded};

use base_codes::{CodedSide, FIELD_CODE, FIELDS, HIDDEN_LEFT, HIDDEN_RIGHT, tokens_of};
use base_places::{CHARACTERS, PLACES, PlaceSet, when_holds, within};
use base_question::Question;
use std::array;

// Does the token stand in the side?
fn stands(side: CodedSide, token: u8) -> bool
    ensures { result ≡ member token (tokens side) }
{
    tokens_of(&side).contains(&token)
}

// Does it stand in either side?
fn stands_in_either(left: CodedSide, right: CodedSide, token: u8) -> bool
    ensures { result ≡ member token (tokens left ++ tokens right) }
{
    stands(left, token) || stands(right, token)
}

// The characters that stand fixed in a side.
fn fixed_ones(left: CodedSide, right: CodedSide, n: usize) -> [bool; CHARACTERS]
    ensures { result ≡ fixed_coded n (tokens left ++ tokens right) }
{
    array::from_fn(|c| c < n && stands_in_either(left, right, c as u8))
}

// The fields that stand.
fn standing_fields(left: CodedSide, right: CodedSide) -> [bool; FIELDS]
    ensures { result ≡ standing_coded (tokens left ++ tokens right) }
{
    array::from_fn(|f| stands_in_either(left, right, FIELD_CODE + f as u8))
}

// What tells the characters that are alike.
#[derive(Clone, Copy)]
struct Signs<'a> {
    // the characters that stand fixed in a side
    fixed: [bool; CHARACTERS],
    // the fields that stand
    standing: [bool; FIELDS],
    // what the places of each field take
    taking: &'a [[PlaceSet; CHARACTERS]; FIELDS],
}

impl<'a> Signs<'a> {
    // Does every leaf of every standing field take both or neither?
    fn same_places(&self, a: usize, b: usize) -> bool
        requires { (a < most_characters) × (b < most_characters) }
        ensures { result ≡ same_places self.now.standing self.now.taking.now a b }
    {
        (0..FIELDS).all(|f| !self.standing[f] || self.taking[f][a] == self.taking[f][b])
    }

    // "Two characters are alike on a sheet if neither is a fixed character of a side and every leaf of every standing field takes both or neither."
    #[tactic(auto, unfolding(crate::specs::AlikeCoded::alike_coded))]
    fn alike(&self, a: usize, b: usize) -> bool
        requires { (a < most_characters) × (b < most_characters) }
        ensures { result ≡ alike_coded self.now.fixed self.now.standing self.now.taking.now a b }
    {
        !self.fixed[a] && !self.fixed[b] && self.same_places(a, b)
    }

    // Is no smaller character alike?
    fn is_least(&self, c: usize) -> bool
        requires { c < most_characters }
        ensures { result ≡ is_least_coded self.now.fixed self.now.standing self.now.taking.now c }
    {
        !(0..c).any(|a| self.alike(a, c))
    }

    fn least(&self, n: usize) -> [bool; CHARACTERS]
        ensures { result ≡ least_from n self.now.fixed self.now.standing self.now.taking.now }
    {
        array::from_fn(|c| c < n && self.is_least(c))
    }
}

// The least ones of those alike, and what tells them.
#[derive(Clone, Copy)]
struct LeastOnes {
    // the characters that stand fixed in a side
    fixed: [bool; CHARACTERS],
    // the fields that stand
    standing: [bool; FIELDS],
    least: [bool; CHARACTERS],
}

// Of two sides, by what the places of each field take of n characters.
fn least_ones(
    left: CodedSide,
    right: CodedSide,
    taking: &[[PlaceSet; CHARACTERS]; FIELDS],
    n: usize,
) -> LeastOnes
    ensures { result ≡ ones_from n (tokens left ++ tokens right) taking.now }
{
    let fixed = fixed_ones(left, right, n);
    let standing = standing_fields(left, right);
    let signs = Signs {
        fixed,
        standing,
        taking,
    };
    let least = signs.least(n);
    LeastOnes {
        fixed,
        standing,
        least,
    }
}

// Is it one of these, and does the place p, one of its mask, take it?
fn is_taken(among: bool, mask: PlaceSet, p: usize) -> bool
    ensures { result ≡ (among && in_mask mask p) }
{
    among && when_holds(mask, p, 1) == 1
}

// The first of these that the place p takes.
fn first_taken(
    among: &[bool; CHARACTERS],
    row: &[PlaceSet; CHARACTERS],
    p: usize,
    n: usize,
) -> Option<usize>
    requires { n ≤ most_characters }
    ensures { result ≡ if_below n (first_taken n among.now row.now p) }
{
    (0..n).find(|&c| is_taken(among[c], row[c], p))
}

// The least ones that stand fixed in no side.
fn free_ones(fixed: [bool; CHARACTERS], least: [bool; CHARACTERS], n: usize) -> [bool; CHARACTERS]
    ensures { result ≡ free_coded n fixed least }
{
    array::from_fn(|c| c < n && least[c] && !fixed[c])
}

// What is chosen from: of the first `many` characters the least ones, and those of these that stand fixed in no side.
#[derive(Clone, Copy)]
struct Choices {
    many: usize,
    least: [bool; CHARACTERS],
    free: [bool; CHARACTERS],
    ghost in_room: { many ≤ most_characters },
}

impl Choices {
    // "the least of the least ones that it takes and that stands fixed in no side, or where there is none the least that it takes"
    fn choice(&self, row: &[PlaceSet; CHARACTERS], p: usize) -> Option<usize>
        ensures { result ≡ if_below self.now.many (choice_coded self.now.many self.now.free self.now.least row.now p) }
    {
        first_taken(&self.free, row, p, self.many).or_else(|| first_taken(
            &self.least,
            row,
            p,
            self.many,
        ))
    }

    // "for each leaf .. that takes none chosen so far"
    fn choose_at(&self, row: &[PlaceSet; CHARACTERS], p: usize, chosen: &mut [bool; CHARACTERS])
        ensures { chosen.new ≡ chosen_at self.now.many self.now.free self.now.least row.now p chosen.old }
    {
        if first_taken(chosen, row, p, self.many).is_some() {
            return;
        }
        if let Some(c) = self.choice(row, p) {
            chosen[c] = true;
        }
    }

    // With those chosen for the places of a field.
    fn choose_within(&self, row: &[PlaceSet; CHARACTERS], chosen: &mut [bool; CHARACTERS])
        ensures { chosen.new ≡ chosen_within self.now.many self.now.free self.now.least row.now chosen.old }
    {
        for p in 0..PLACES {
            self.choose_at(row, p, chosen);
        }
    }

    // "fields rising": of those that stand
    fn chosen_ones(
        &self,
        standing: [bool; FIELDS],
        taking: &[[PlaceSet; CHARACTERS]; FIELDS],
    ) -> [bool; CHARACTERS]
        ensures { result ≡ chosen_coded self.now.many self.now.free self.now.least standing taking.now }
    {
        let mut chosen = [false; CHARACTERS];
        for f in 0..FIELDS {
            if standing[f] {
                self.choose_within(&taking[f], &mut chosen);
            }
        }
        chosen
    }
}

// "where nothing is chosen, the least of all"
fn some(mut chosen: [bool; CHARACTERS], n: usize) -> [bool; CHARACTERS]
    requires { n ≤ most_characters }
    ensures { result ≡ some_coded n chosen }
{
    if !chosen[..n].contains(&true) {
        chosen[0] = true;
    }
    chosen
}

// A few of the least ones, one at least for each leaf of a standing field.
fn few(taking: &[[PlaceSet; CHARACTERS]; FIELDS], n: usize, ones: LeastOnes) -> [bool; CHARACTERS]
    requires { n ≤ most_characters }
    ensures { result ≡ few_from n taking.now ones }
{
    let least = ones.least;
    let choices = Choices {
        many: n,
        least,
        free: free_ones(ones.fixed, least, n),
    };
    some(choices.chosen_ones(ones.standing, taking), n)
}

// The characters of a question, with its hidden fields, that are searched: the least ones, or a few of them.
#[tactic(auto, unfolding(crate::specs::AlikeCoded::characters_coded, crate::specs::AlikeCoded::few_coded, crate::specs::AlikeCoded::least_coded))]
pub fn characters(question: Question, fewer: bool) -> [bool; CHARACTERS]
    ensures { result ≡ characters_coded question fewer }
{
    let alphabet = question.alphabet;
    let n = within(alphabet.characters);
    let left = search_hidden::side(question.left, HIDDEN_LEFT);
    let right = search_hidden::side(question.right, HIDDEN_RIGHT);
    let hidden = search_hidden::spaces(alphabet.space);
    let taking = search_tables::taking_behind(question.fields, hidden);
    let ones = least_ones(left, right, &taking, n);
    if fewer {
        few(&taking, n, ones)
    } else {
        ones.least
    }
}
