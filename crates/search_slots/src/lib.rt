// A situation in the working buffer: its slot of 184 bytes.
#![tactic(auto)]

pub mod numbers;

ghost use Rattle.std.specs.Prelude.{◌≡◌, List, ◌++◌, ℕ, ◌*◌, ◌/◌, length, replicate};
ghost use Rattle.paper.specs.Lists.{each};
ghost use Rattle.paper.specs.Numbers.{set_fields, longest_side, situation_bytes};
ghost use Rattle.base_codes.specs.Coded.{Coded, finished_coded, as_struct, Short};
ghost use Rattle.search_slots.specs.Slots.{mask_width, mask_bytes, origin_width, struct_key, key, origin_bytes, key_bytes, held_bytes, sets_bytes, Slot, slot_bytes};

use base_codes::{CodedSide, FIELDS, LONGEST_SIDE, NO_TOKEN, Situation};
use base_places::PlaceSet;
use numbers::{number, put_number};

// "one situation for each whole 184 bytes"
pub const SLOT: usize = 184;

// A slot's parts: the sides, the sets; the parent and the step; two links.
const MASK: usize = 8;

pub const NUMBER: usize = 2;

pub const RIGHT: usize = LONGEST_SIDE;

pub const SETS: usize = RIGHT + LONGEST_SIDE;

pub const KEY: usize = SETS + MASK * FIELDS;

// what a slot holds of its situation
pub const HELD: usize = KEY + NUMBER + 1;

// How many slots a buffer of so many bytes has.
pub fn slots_in(bytes: usize) -> usize
    ensures { result ≡ bytes / situation_bytes }
{
    bytes / SLOT
}

fn put_mask(to: &mut [u8], mask: PlaceSet)
    requires { length to.old ≡ mask_width }
    ensures { to.new ≡ mask_bytes mask }
{
    put_number(to, mask);
}

fn put_sets(to: &mut [u8], sets: &[PlaceSet])
    requires { length to.old ≡ mask_width * length sets.now }
    ensures { to.new ≡ each mask_bytes sets.now }
{
    for (i, &mask) in sets.iter().enumerate() {
        put_mask(&mut to[MASK * i..MASK * i + MASK], mask);
    }
}

fn put_key(to: &mut [u8], s: Situation)
    requires { length to.old ≡ key_bytes }
    ensures { to.new ≡ struct_key s }
{
    to[0..RIGHT].copy_from_slice(&s.left);
    to[RIGHT..SETS].copy_from_slice(&s.right);
    put_sets(&mut to[SETS..KEY], &s.sets);
}

// What makes two situations the same: the sides and the sets.
pub fn key_of(s: Situation) -> [u8; KEY]
    ensures { result ≡ struct_key s }
{
    let mut key = [0u8; KEY];
    put_key(&mut key, s);
    key
}

// "finished (both sides empty)", by its key.
pub fn is_finished(its: &[u8]) -> bool
    ensures { (k : Coded) → Short k → its.now ≡ key k → result ≡ finished_coded k }
{
    if its.len() != KEY {
        return false;
    }
    if its[0] != NO_TOKEN {
        return false;
    }
    its[RIGHT] == NO_TOKEN
}

// Where a situation comes from: its parent's number and the step from there.
fn put_origin(to: &mut [u8], parent: u16, step: u8)
    requires { length to.old ≡ origin_width }
    ensures { to.new ≡ origin_bytes parent step }
{
    put_number(&mut to[0..NUMBER], parent as u64);
    to[NUMBER] = step;
}

// All zero.
pub fn clear(work: &mut [u8])
    ensures { work.new ≡ replicate (length work.old) 0 }
{
    work.fill(0);
}

// What a slot holds: its situation's key, and where it comes from. Nothing is put where the bytes are not those of a slot and of a key.
pub fn put_slot(to: &mut [u8], key: &[u8], parent: u16, step: u8)
    ensures { length to.old ≡ held_bytes → length key.now ≡ key_bytes → to.new ≡ key.now ++ origin_bytes parent step }
{
    if to.len() != HELD {
        return;
    }
    if key.len() != KEY {
        return;
    }
    to[0..KEY].copy_from_slice(key);
    put_origin(&mut to[KEY..HELD], parent, step);
}

fn side_of(from: &[u8]) -> CodedSide
    requires { length from.now ≡ longest_side }
    ensures { result ≡ from.now }
{
    let mut side = [0u8; LONGEST_SIDE];
    side.copy_from_slice(from);
    side
}

fn mask_of(from: &[u8]) -> PlaceSet
    requires { length from.now ≡ mask_width }
    ensures { (m : ℕ) → from.now ≡ mask_bytes m → result ≡ m }
{
    number(from)
}

fn sets_of(from: &[u8]) -> [PlaceSet; FIELDS]
    requires { length from.now ≡ sets_bytes }
    ensures { (ms : List ℕ) → length ms ≡ set_fields → from.now ≡ each mask_bytes ms → result ≡ ms }
{
    let mut sets = [0u64; FIELDS];
    for (i, set) in sets.iter_mut().enumerate() {
        *set = mask_of(&from[MASK * i..MASK * i + MASK]);
    }
    sets
}

// No situation.
fn nothing() -> Situation {
    Situation {
        left: [0u8; LONGEST_SIDE],
        right: [0u8; LONGEST_SIDE],
        sets: [0u64; FIELDS],
    }
}

// The situation that a slot holds.
pub fn read_slot(slot: &[u8]) -> Situation
    ensures { (s : Slot) → Short s.at → slot.now ≡ slot_bytes s → result ≡ as_struct s.at }
{
    if slot.len() != HELD {
        return nothing();
    }
    let left = side_of(&slot[0..RIGHT]);
    let right = side_of(&slot[RIGHT..SETS]);
    let sets = sets_of(&slot[SETS..KEY]);
    Situation { left, right, sets }
}
