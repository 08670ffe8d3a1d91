// Situations looked up in the working buffer: slots are linked by buckets, and each bucket is walked from its newest slot to its oldest.
#![tactic(auto)]

ghost use Rattle.std.specs.Prelude.{◌≡◌, List, ◌∷◌, [], ◌++◌, ◌+◌, ◌*◌, ◌/◌, ◌%◌, ◌<◌, ◌≤◌, length};
ghost use Rattle.paper.specs.Numbers.{situation_bytes};
ghost use Rattle.base_codes.specs.Coded.{Coded, Short};
ghost use Rattle.search_buckets.specs.Buckets.{spread, mixed, hash, bucket, buckets, link, LinksPut, Sought, Kept, EnteredAt};
ghost use Rattle.search_slots.specs.Slots.{number_width, key_bytes, key, Slot};

use search_slots::numbers::{number, put_number};
use search_slots::{HELD, KEY, NUMBER, SLOT, slots_in};

// A link is the number of a slot and one. Slot i has one to the next older slot of its bucket, and one to the newest slot of bucket i. Where
// there is no such slot the link is whatever the bytes were: it leads to slots of other buckets at most, and none of them is the one sought.
const OLDER: usize = HELD;

const NEWEST: usize = OLDER + NUMBER;

// The bytes of a word, and where its high half begins.
const WORD: usize = 8;

const HALF: u64 = 4294967296;

// Primes below 2 to the power of 31, so that no sum of two products is too large.
const LOW_FACTOR: u64 = 1640531551;

const HIGH_FACTOR: u64 = 1824926689;

// Each half of a word by a factor of its own.
fn spread(x: u64) -> u64
    ensures { result ≡ spread x }
{
    x % HALF * LOW_FACTOR + x / HALF * HIGH_FACTOR
}

// The hash gone on with by a word.
fn mixed(h: u64, w: u64) -> u64
    ensures { result ≡ mixed h w }
{
    spread(h ^ w)
}

fn hash(key: &[u8]) -> u64
    requires { length key.now ≡ key_bytes }
    ensures { result ≡ hash key.now }
{
    let mut h = 0;
    let (words, _) = key.as_chunks::<WORD>();
    for &word in words {
        h = mixed(h, u64::from_le_bytes(word));
    }
    mixed(h, h / HALF)
}

// The bucket of a key, in a buffer of so many bytes.
pub fn bucket_of(key: &[u8], bytes: usize) -> usize
    ensures { length key.now ≡ key_bytes → situation_bytes ≤ bytes → (result < bytes / situation_bytes) × (result ≡ hash key.now % (bytes / situation_bytes)) }
{
    let slots = slots_in(bytes);
    if slots == 0 {
        return 0;
    }
    if key.len() != KEY {
        return 0;
    }
    hash(key) as usize % slots
}

// The number in the two bytes from `at` on.
fn number_at(bytes: &[u8], at: usize) -> usize
    requires { at + number_width ≤ length bytes.now }
    ensures { result ≡ link bytes.now at }
{
    number(&bytes[at..at + NUMBER]) as usize
}

// The link at `from` is copied to `to`, and becomes one to slot n: slot n is the newest of its bucket.
fn put_links(work: &mut [u8], to: usize, from: usize, n: usize)
    requires to_in_bounds { (to + 1 < length work.old) × (from + 1 < length work.old) × (n < length work.old) }
    requires fact { (to ≡ from → ⊥) × (to + 1 ≡ from → ⊥) × (from + 1 ≡ to → ⊥) }
    ensures { n < 65535 → LinksPut work.old to from n work.new }
{
    work[to] = work[from];
    work[to + 1] = work[from + 1];
    put_number(&mut work[from..from + NUMBER], (n + 1) as u64);
}

// The slot with the number n, behind n slots, in the bucket b of its key. Nothing is written where the buffer has no such slot or bucket.
pub fn write_slot(work: &mut [u8], n: usize, its: &[u8], b: usize, parent: u16, step: u8)
    ensures { (k : Coded) (ss : List Slot) → (n < buckets work.old) × (n < 65535) × (b < buckets work.old) → its.now ≡ key k → b ≡ bucket (buckets work.old) k → Short k → Kept work.old ss → length ss ≡ n → Kept work.new (ss ++ (record { at = k; parent = parent; step = step } ∷ [])) }
{
    let slots = slots_in(work.len());
    if slots <= n {
        return;
    }
    if slots <= b {
        return;
    }
    let at = SLOT * n;
    search_slots::put_slot(&mut work[at..at + HELD], its, parent, step);
    put_links(work, at + OLDER, SLOT * b + NEWEST, n);
}

// The slots of a bucket, from the newest to the oldest: a child is often the same as one that was entered just before. A link leads to an
// older slot; one that does not is not followed.
fn entered(work: &[u8], n: usize, newest: usize, key: &[u8]) -> Option<usize>
    requires n_in_bounds { situation_bytes * n ≤ length work.now }
    requires key_len { length key.now ≡ key_bytes }
    ensures { (k : Coded) (ss : List Slot) → Sought work.now key.now n newest k ss → EnteredAt ss k result }
{
    let mut above = n + 1;
    let mut next = newest;
    while next < above {
        if next == 0 {
            return None;
        }
        let i = next - 1;
        let at = SLOT * i;
        if &work[at..at + KEY] == key {
            return Some(i);
        }
        above = next;
        next = number_at(work, at + OLDER);
    }
    None
}

// The number of the slot, one of the first n, where the situation with this key, whose bucket is b, is entered already.
pub fn look_up(work: &[u8], n: usize, its: &[u8], b: usize) -> Option<usize>
    ensures { (k : Coded) (ss : List Slot) → b < buckets work.now → its.now ≡ key k → b ≡ bucket (buckets work.now) k → Short k → Kept work.now ss → length ss ≡ n → EnteredAt ss k result }
{
    let slots = slots_in(work.len());
    if slots < n {
        return None;
    }
    if slots <= b {
        return None;
    }
    if its.len() != KEY {
        return None;
    }
    let newest = number_at(work, SLOT * b + NEWEST);
    entered(work, n, newest, its)
}
