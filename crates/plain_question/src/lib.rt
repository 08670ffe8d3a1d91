// A question gone through by pairs of standings (request K9): for every left token in front, and every right one, the places at which the one came in
// front with the other.
#![tactic(auto)]

ghost use Rattle.std.specs.Prelude.{◌≡◌, ◌∷◌, [], ◌++◌, map, suc, ◌≤◌, ◌<◌, length, get_or, take};
ghost use Rattle.paper.specs.Numbers.{longest_side};
ghost use Rattle.base_codes.specs.Inner.{no_token, tokens};
ghost use Rattle.search_tables.specs.Tables.{taking_of};
ghost use Rattle.plain_rows.specs.Rows.{rows, rows_of, token_of, front_by};
ghost use Rattle.plain_question.specs.Reached.{Reached, Meets, Says};
ghost use Rattle.plain_question.specs.Entered.{fronts, CrossesFronts, Goes_on};

use base_codes::{
    CodedSide, HIDDEN_LEFT, HIDDEN_RIGHT, LONGEST_SIDE, NO_TOKEN, SHEET_FIELDS, length_of,
};
use base_places::{CHARACTERS, PLACES, PlaceSet, PlaceTables};
use base_question::Question;
use plain_block::Crossed;
use plain_rows::{BEHIND_START, CHARACTER_ROW, END_ROW, ROWS, Token, lay};

// How many tokens may be in front of a side: those that it has, and its end.
const FRONTS: usize = LONGEST_SIDE + 1;

// The start of a token alone.
const START: PlaceSet = 1;

// The token with the number i of the n that a side has, over so many characters; behind them is its end.
fn token_at(side: CodedSide, n: usize, i: usize, characters: usize) -> Token
    requires { n ≤ longest_side }
    ensures { result ≡ token_of characters (get_or (take n side) i no_token) }
{
    let b = if i < n { side[i] } else { NO_TOKEN };
    plain_rows::token_of(b, characters)
}

// The rows of the tokens in front: for each the places that may follow each place, those that take each character, and those that may be the last one.
#[derive(Clone, Copy)]
struct Rows<'a> {
    follow: &'a [[PlaceSet; PLACES]; ROWS],
    taking: &'a [[PlaceSet; CHARACTERS]; ROWS],
    last: &'a [PlaceSet; ROWS],
}

impl Rows<'_> {
    // Two tokens in front, by their rows. Where neither came in front nothing is met.
    fn crossed(
        &self,
        left: Token,
        right: Token,
        left_came: PlaceSet,
        right_came: PlaceSet,
    ) -> Crossed
        requires { (left.row < rows) × (right.row < rows) }
        ensures { CrossesFronts (front_by self.now.follow.now self.now.taking.now self.now.last.now left) (front_by self.now.follow.now self.now.taking.now self.now.last.now right) left_came right_came result }
    {
        if left_came == 0 && right_came == 0 {
            return Crossed {
                left: 0,
                right: 0,
                starts: false,
            };
        }
        let l = left.row;
        let r = right.row;
        let lo = left.lo.max(right.lo);
        let hi = left.hi.min(right.hi);
        plain_block::cross(
            &self.follow[l],
            &self.taking[l],
            self.last[l],
            &self.follow[r],
            &self.taking[r],
            self.last[r],
            lo,
            hi,
            left_came,
            right_came,
        )
    }

    // One left token with each right token, and with the end of the right side. `came` has the right places at which the left token came in front, for
    // each right token, and then those at which the next left one does. Are the starts met of the left token and of the right side's end?
    fn across(
        &self,
        left: Token,
        right: CodedSide,
        n: usize,
        characters: usize,
        came: &mut [PlaceSet; FRONTS],
    ) -> bool
        requires { (left.row < rows) × (n ≤ longest_side) }
        ensures { Goes_on (front_by self.now.follow.now self.now.taking.now self.now.last.now left) (fronts characters self.now.follow.now self.now.taking.now self.now.last.now (take n right)) n came.old came.new result }
    {
        let mut right_came = 0;
        let mut met = false;
        for j in 0..n + 1 {
            let token = token_at(right, n, j, characters);
            let x = self.crossed(left, token, came[j], right_came);
            came[j] = x.left;
            right_came = x.right;
            met = x.starts;
        }
        met
    }

    // Each left token with each right one, the sides' ends among them: are the starts of both ends met?
    fn ends_met(&self, left: CodedSide, right: CodedSide, characters: usize) -> bool
        ensures { Says result (Reached (fronts characters self.now.follow.now self.now.taking.now self.now.last.now (tokens left)) (fronts characters self.now.follow.now self.now.taking.now self.now.last.now (tokens right)) (length (tokens left)) 0 (length (tokens right)) 0) }
    {
        let n = length_of(left);
        let m = length_of(right);
        let mut came = [0; FRONTS];
        came[0] = START;
        let mut met = false;
        for i in 0..n + 1 {
            let token = token_at(left, n, i, characters);
            met = self.across(token, right, m, characters, &mut came);
        }
        met
    }
}

// For every row and every character the places that take it, and each left token with each right one. The rows are made here: handed back they would be
// copied, and they are large.
fn rows_met(
    left: CodedSide,
    right: CodedSide,
    characters: usize,
    own: [PlaceTables; SHEET_FIELDS],
    hidden: PlaceTables,
    follow: &[[PlaceSet; PLACES]; ROWS],
    last: &[PlaceSet; ROWS],
) -> bool
    ensures { Says result (Reached (fronts characters follow.now (map taking_of (rows_of (own ++ (hidden ∷ hidden ∷ [])))) last.now (tokens left)) (fronts characters follow.now (map taking_of (rows_of (own ++ (hidden ∷ hidden ∷ [])))) last.now (tokens right)) (length (tokens left)) 0 (length (tokens right)) 0) }
{
    let spaces = hidden.taking;
    let mut taking = [spaces; ROWS];
    let one = [BEHIND_START; CHARACTERS];
    taking[CHARACTER_ROW] = one;
    let none = [0; CHARACTERS];
    taking[END_ROW] = none;
    lay(
        &mut taking,
        &own,
        |tables|
            ensures { result ≡ taking_of tables.now }
        { tables.taking },
    );
    let rows = Rows {
        follow,
        taking: &taking,
        last,
    };
    rows.ends_met(left, right, characters)
}

// Is some label read by both sides, each standing apart? Where no field stands twice that is a clash.
pub fn clashes(question: Question) -> bool
    ensures { Says result (Meets question) }
{
    let alphabet = question.alphabet;
    let characters = alphabet.characters;
    let hidden = search_hidden::spaces(alphabet.space);
    let own_left = question.left;
    let own_right = question.right;
    let own = question.fields;
    let left = search_hidden::side(own_left, HIDDEN_LEFT);
    let right = search_hidden::side(own_right, HIDDEN_RIGHT);
    let follow = plain_rows::follow_rows(own, hidden);
    let last = plain_rows::last_rows(own, hidden);
    rows_met(left, right, characters, own, hidden, &follow, &last)
}
