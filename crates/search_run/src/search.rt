// The search: breadth first over the slots of the working buffer, in document 01's order.
ghost use Rattle.std.specs.Prelude.{◌≡◌, List, ◌+◌, ◌*◌, ◌<◌, ◌≤◌, length};
ghost use Rattle.paper.specs.Numbers.{most_characters, situation_bytes, most_room, set_fields};
ghost use Rattle.base_places.specs.Masks.{within};
ghost use Rattle.base_codes.specs.Coded.{Coded, as_struct};
ghost use Rattle.search_fronts.specs.Fronts.{with_row};
ghost use Rattle.search_children.specs.Children.{puts_of, children_coded};
ghost use Rattle.search_run.specs.Lent.{Roomy, StartsPuts, EndsPuts, tables_within, Enters, EntersWith, OffersMade, OffersChild, Offers, Takes, Searches};
ghost use Rattle.search_run.specs.Run.{is_going};
ghost use Rattle.search_slots.specs.Slots.{Slot, slot_at, SlotsHeld};
ghost use Rattle.search_run.specs.declared.search.Status.TheVariants.{NoRoom};

use base_codes::{LEFT_STRUCK, RIGHT_STRUCK, Situation};
use search_children::{Child, Tables};
use search_fronts::FrontToken;
use search_slots::{HELD, SLOT};
use std::ops::Range;

// How the search stands, or how it ended.
#[derive(Clone, Copy)]
pub enum Status {
    Going,
    Found,
    UsedUp,
    NoRoom,
    TooLong,
}

// The slots entered so far, and the status.
#[derive(Clone, Copy)]
pub struct Run {
    pub entered: usize,
    pub status: Status,
}

fn is_going(status: Status) -> bool
    ensures { result ≡ is_going status }
{
    matches!(status, Status::Going)
}

// "it is entered, and a finished one ends the search at once": with its key and its bucket
// Kept: (d) the buffer and its room stay two parameters under `Roomy`: no ghost field can stand beside a `&mut`.
fn enter_with(
    work: &mut [u8],
    room: usize,
    n: usize,
    parent: usize,
    step: u8,
    key: &[u8],
    b: usize,
) -> Run
    requires roomy { Roomy work.old room n parent }
    requires n_lt_room { n < room }
    ensures { EntersWith room n parent step key.now b work.old work.new result }
{
    search_buckets::write_slot(work, n, key, b, parent as u16, step);
    if search_slots::is_finished(key) {
        return Run {
            entered: n + 1,
            status: Status::Found,
        };
    }
    Run {
        entered: n + 1,
        status: Status::Going,
    }
}

fn no_room(n: usize) -> Run
    ensures { (result.entered ≡ n) × (result.status ≡ NoRoom) }
{
    Run {
        entered: n,
        status: Status::NoRoom,
    }
}

// "The trimmed question is entered first"
fn enter_first(work: &mut [u8], room: usize, first: Situation) -> Run
    requires { (situation_bytes * room ≤ length work.old) × (room ≤ most_room) }
    ensures { Enters room 0 0 0 first work.old work.new result }
{
    if room == 0 {
        return no_room(0);
    }
    let key = search_slots::key_of(first);
    let b = search_buckets::bucket_of(&key, work.len());
    enter_with(work, room, 0, 0, 0, &key, b)
}

// "one already entered is dropped; no room gives 18; otherwise it is entered"
fn offer_made(work: &mut [u8], room: usize, n: usize, parent: usize, step: u8, s: Situation) -> Run
    requires roomy { Roomy work.old room n parent }
    requires n_nonzero { 0 < n }
    ensures { OffersMade room n parent step s work.old work.new result }
{
    let key = search_slots::key_of(s);
    let b = search_buckets::bucket_of(&key, work.len());
    let seen = search_buckets::look_up(work, n, &key, b);
    if seen.is_some() {
        return Run {
            entered: n,
            status: Status::Going,
        };
    }
    if room <= n {
        return no_room(n);
    }
    enter_with(work, room, n, parent, step, &key, b)
}

// "a side above 48 tokens gives 19"
fn offer(work: &mut [u8], room: usize, run: Run, parent: usize, step: u8, child: Child) -> Run
    requires roomy { Roomy work.old room run.entered parent }
    requires entered_nonzero { 0 < run.entered }
    ensures { OffersChild room parent step child work.old run work.new result }
{
    let status = run.status;
    if !is_going(status) {
        return run;
    }
    let n = run.entered;
    match child {
        Child::Dropped => run,
        Child::Above => Run {
            entered: n,
            status: Status::TooLong,
        },
        Child::Made(s) => offer_made(work, room, n, parent, step, s),
    }
}

// "a character in front must be c": none but these are put.
fn may_be_put(characters: usize, a: u8, b: u8) -> Range<usize>
    requires { characters ≤ most_characters }
    ensures starts { StartsPuts characters a b result.start }
    ensures ends { EndsPuts characters a b result.end }
{
    let a = a as usize;
    if a < characters {
        return a..a + 1;
    }
    let b = b as usize;
    if b < characters {
        return b..b + 1;
    }
    0..characters
}

// Child 3: "for each character c from 0 to 42", or behind `ED` to 127: a table has room for 128. Most are not taken: that is seen before a child is made.
fn offer_puts(
    work: &mut [u8],
    room: usize,
    run: Run,
    parent: usize,
    s: Situation,
    left: FrontToken,
    right: FrontToken,
    tables: &Tables,
) -> Run
    requires roomy { Roomy work.old room run.entered parent }
    requires entered_nonzero { 0 < run.entered }
    requires row_lt_set_fields { (left.row < set_fields) × (right.row < set_fields) }
    ensures { Offers room parent s work.old run work.new result (λ (k : Coded). puts_of (within tables.now.characters) k (with_row tables.now.taking.now left) (with_row tables.now.taking.now right)) }
{
    let mut now = run;
    let taking = tables.taking;
    let l = left.row;
    let r = right.row;
    let characters = base_places::within(tables.characters);
    let candidates = may_be_put(characters, left.token, right.token);
    for c in candidates.start..candidates.end {
        let m = left.followers & taking[l][c];
        let n = right.followers & taking[r][c];
        if search_fronts::both_take(left.token, m, right.token, n, c as u8) {
            let child = search_children::put(s, c as u8, m, n);
            now = offer(work, room, now, parent, c as u8, child);
        }
    }
    now
}

// The children of a situation, in 01's order.
fn offer_children(
    work: &mut [u8],
    room: usize,
    run: Run,
    parent: usize,
    s: Situation,
    tables: &Tables,
) -> Run
    requires roomy { Roomy work.old room run.entered parent }
    requires entered_nonzero { 0 < run.entered }
    ensures { Offers room parent s work.old run work.new result (children_coded (tables_within tables.now)) }
{
    let sets = s.sets;
    let last = tables.last;
    let one = offer(
        work,
        room,
        run,
        parent,
        LEFT_STRUCK,
        search_children::strike_left(s, last),
    );
    let two = offer(
        work,
        room,
        one,
        parent,
        RIGHT_STRUCK,
        search_children::strike_right(s, last),
    );
    let left = search_fronts::front_with(s.left[0], sets, tables.follow);
    let right = search_fronts::front_with(s.right[0], sets, tables.follow);
    offer_puts(work, room, two, parent, s, left, right, tables)
}

// The situation in the slot with the number i.
fn read_situation(work: &[u8], i: usize) -> Situation
    requires { situation_bytes * (i + 1) ≤ length work.now }
    ensures { (ss : List Slot) → SlotsHeld work.now ss → i < length ss → result ≡ as_struct (slot_at ss i).at }
{
    let at = SLOT * i;
    search_slots::read_slot(&work[at..at + HELD])
}

// "Situations are taken in the order of entry": slot k is taken.
fn take(work: &mut [u8], room: usize, run: Run, k: usize, tables: &Tables) -> Run
    requires roomy { Roomy work.old room run.entered k }
    requires k_lt_entered { k < run.entered }
    ensures { Takes room (tables_within tables.now) k work.old run work.new result }
{
    let s = read_situation(work, k);
    offer_children(work, room, run, k, s, tables)
}

// "The trimmed question is entered first, dead or not. .. When all are used up the answer is 1"
pub fn search(work: &mut [u8], room: usize, first: Situation, tables: &Tables) -> Run
    requires { (situation_bytes * room ≤ length work.old) × (room ≤ most_room) }
    ensures { Searches room (tables_within tables.now) first work.new result }
{
    let mut run = enter_first(work, room, first);
    let mut k = 0;
    // Kept: (d) no `for`, as the slots to take become more while they are taken.
    while is_going(run.status) {
        if run.entered <= k {
            return Run {
                entered: run.entered,
                status: Status::UsedUp,
            };
        }
        run = take(work, room, run, k, tables);
        k += 1;
    }
    run
}
