// `catalogue`: does the operations on standard input to a catalogue, and prints a line for each rule that is added or withdrawn, for each pair
// that checking again lists, and for each time that the rules are carried over or their stray patterns dropped. There is no exit status: a failure is
// told on standard error.
//
// After `SH` and 1 each line has every byte of the lent buffers too.
//
// The first stored operations are those of a storeroom, as the second program's `calls --storeroom` writes them, and the stored lines are those
// of its `second --calls --lines`. In front stands the number of the line; `CA`, `WO` and `SH` print none. A rule is entered where no answer is
// named.
//
//  1  AD  the mortice latch is rule 0: `LT`, two digits, a finish of `BR`, `CH` or `SS`
//  2  AD  the rim latch is rule 1: `RL`, two digits, a hand `L` or `R`
//  3  AD  the night latch is rule 2: `NL`, 40 or 60
//  4  AD  the keypad is rule 3: `KP`, three digits
//  5  AD  the keypad with a finish is rule 4: a keypad, `-`, a finish of `BK`, `WH` or `SS`
//  6  AD  the key safe is rule 5: `KS`, any digits, `-`, the same digits again
//  7  AD  the strike plate is rule 6: `SP`, any digits
//  8  AD  the battery is rule 7: `BT 9V`
//  9  AD  the box of a left-hand pair is rule 8: `BX`, any text but the empty one twice, `L`
// 10  AD  the strip of tags is rule 9: `TG`, any digits 22 times
// 11  AD  30: a lever of `LT` and any letters and digits can be marked as mortice latches are
// 12  AD  the lever with a mark of its own, `LV`, is rule 10
// 13  AD  30: a keypad of any digits, and `KP100` is a keypad already
// 14  AD  30, 18: the box of a right-hand pair; the search runs on
// 15  AD  30, 19: a strip of any digits and `X`; a side above 48 tokens
// 16  AD  30: a space behind the battery's mark: it is the same label
// 17  AD  30: a night latch filled up with spaces
// 18  AD  11: the battery cut short
// 19  AD  12: `RI` for its `LE`
// 20  AD  12: a sheet, and not a rule
// 21  AD  12: a byte behind its `LE`
// 22  AD  13: the second field first
// 23  AD  14: 25 tokens
// 24  AD  14: 49 digits, a pattern of 195 bytes
// 25  AD  15: a finish left over
// 26  AD  15: a finish missing
// 27  AD  15: digits from 9 to 0, hi below lo
// 28  AD  15: lo is 43, and hi is missing
// 29  AD  16: 32 finishes, 64 leaves
// 30  AD  16: 40 finishes one by one, 80 leaves
// 31  AD  16: 63 letters and any digits, the 64th leaf a range
// 32  AD  17: 43 is no character
// 33  AD  17: field 8, behind `LT`
// 34  AD  31: a side with field 4
// 35  AD  22: a pattern of field 4, which does not stand
// 36  WI  33: there is no rule 11
// 37  WI  the rim latch goes, and the others move up
// 38  AD  it comes back as rule 10
// 39  AD  30: a left-hand rim latch, and `RL07L` is a rim latch already, of rule 10
//     WO  room for one situation
// 40  AD  30, 18: the keypad with a cable, a keypad, `/` and any digits; not enough for its pair with rule 2
//     WO  no room
// 41  AD  30, 18: the same, not enough for the pair with rule 0
//     WO  356 situations again
// 42  AD  the keypad with a cable is rule 11
// 43  AD  the maker's keypad is rule 12: `KP`, one of 40 finishes, 53 leaves
// 44  AD  30: `KPAB` is its first
// 45  AD  30: `KPZP` is its last
// 46  AD  30: `KP` and any two letters, and 40 of them are marks already
// 47  AD  `KP` and one of three codes that are no finish is rule 13
// 48  WI  it goes
// 49  RE  no two of the thirteen rules clash
//     CA  five rules kept from when spaces counted: `LT4`, `LT4` and a space, `LT5`, `LT4` and two, `LT` and any digits
// 50  RE  35: a byte is missing for the seven pairs
// 51  RE  the seven pairs, to line 58
// 59  WI  the one with any digits goes
// 60  WI  and `LT4` without spaces
// 61  RE  `LT4` with one space and with two, to line 62
// 63  WI  the one with two goes
// 64  RE  no pair is left
//     CA  both boxes and both strips, two pairs that are given up
// 65  RE  18 and 19 are listed too, to line 67
//     WO  no room
// 68  RE  every pair is given up, to line 74
//     WO  356 situations again
//     CA  the mortice latch and a byte too few for the night latch
// 75  AD  32: it doesn't fit
//     CA  one byte more
// 76  AD  it fits
//     CA  32 shelf marks, rules of one character each
// 77  AD  32: no 33rd, though its bytes would fit
// 78  WI  the last one goes
// 79  AD  another is the 32nd
//     CA  a rule whose last token is none
// 80  AD  34: no catalogue to add to
// 81  WI  34: nor to withdraw from
// 82  RE  34: nor to check again
//     CA  no bytes
// 83  AD  32: nothing fits
// 84  WI  33: no rule
// 85  RE  no pair
// 86  SO  no bytes, and nothing to carry over
//     CA  kept from when a text could be empty: a parcel `PKX`, parcels `PK`, any text, `X`, the strike plate; just long enough
// 87  RE  no text is empty now
// 88  SO  the empty text is written out
// 89  RE  `PKX` is a parcel of both, to line 90
// 91  SO  again, and nothing is added
// 92  RE  as before, to line 93
// 94  WI  the parcel `PKX` goes
// 95  AD  30: its mark is a parcel's already
//     CA  the same, a byte too short
// 96  SO  32: they no longer fit
// 97  RE  nothing is changed
//     CA  parcels with another mark
// 98  SO  34: no catalogue to carry over
//
//     CA  8,192 zero bytes, as at the start
//     WO  356 situations
//
// Then come those of the second program's `calls --serial`: twenty rules with a serial number that stands twice. The first is added by deciding;
// each of the others is refused by `AD`, with 18, and entered by `AE`. `RE` has no room for the 190 pairs that it would list, and `RD` lists none.
// Of three more, none is entered: `AD` leaves one open, `AE` finds the clash by its fourth attempt, and without room it decides nothing.
//
//     SH  every byte from here on
//     CA  8,192 zero bytes
//     WO  356 situations
//
// Then those that `calls --decided 1 1000` makes, but for an operation cut short at its end: 1,000 additions and checks of either kind,
// withdrawals and carryings over. With `CA` and `WO` as before follow those that `calls 1 4000` makes: 4,000 additions, withdrawals, checks and
// carryings over, among them each number and, with 30, each answer of a pair. `second --calls` prints the same lines. tools/compare tries fresh ones.
#![tactic(auto)]

mod input;
mod output;

use catalogue_numbers::{Numbers, Totals, withdrawn};
use input::{Call, Mark, read_mark};
use output::{print_added, print_changed, print_rechecked};
use print_out::{Failure, Streams, WORK, WORK_FILL, fill, read_all, read_number, tell, tell_end};

// The longest rule that two bytes can tell. The list of pairs is lent in the same place: no call has both.
const RULE: usize = 65535;

const CATALOGUE: usize = 8192;

// 356 situations
const FIRST_WORK: usize = 65520;

// more than the 496 pairs of 32 rules
const LIST: usize = 2560;

// more than these pairs have by deciding
const DECIDED_LIST: usize = 3584;

// each byte of the list before a call
const LIST_FILL: u8 = 165;

// Whether every byte of the lent buffers is printed, and how much of each is lent to a call.
#[derive(Clone, Copy)]
pub struct State {
    pub bytes: bool,
    pub catalogue: usize,
    pub work: usize,
}

fn main(rt: HostRuntime) {
    let mut given = [0u8; RULE];
    let mut catalogue = [0u8; CATALOGUE];
    let mut work = [0u8; WORK];
    let ended = run_each(&rt, &mut given, &mut catalogue, &mut work);
    if let Err(Failure::NotAllowed) = ended {
        tell(
            &rt,
            b"catalogue: an operation is cut short or not allowed\n",
        );
    }
    tell_end(&rt, b"catalogue", ended);
}

// A proved loop has to end, and nothing says that a stream does: the turns go up to a number that no run uses up.
fn run_each(
    rt: &impl Streams,
    given: &mut [u8],
    catalogue: &mut [u8],
    work: &mut [u8],
) -> Result<(), Failure> {
    let mut state = State {
        bytes: false,
        catalogue: CATALOGUE,
        work: FIRST_WORK,
    };
    for _ in 0..u64::MAX {
        let Some(mark) = read_mark(rt)? else {
            return Ok(());
        };
        state = run(rt, mark, given, catalogue, work, state)?;
    }
    Ok(())
}

fn run(
    rt: &impl Streams,
    mark: Mark,
    given: &mut [u8],
    catalogue: &mut [u8],
    work: &mut [u8],
    state: State,
) -> Result<State, Failure> {
    match mark {
        Mark::Catalogue => new_catalogue(rt, catalogue, state),
        // `WO`: the working buffer's length in four bytes.
        Mark::Work => Ok(State {
            work: read_number(rt, 4, work.len())?,
            ..state
        }),
        // `SH`: 0 for lines, 1 for every byte, in one byte.
        Mark::Show => Ok(State {
            bytes: read_number(rt, 1, 1)? == 1,
            ..state
        }),
        Mark::Call(call) => {
            let c = state.catalogue.min(catalogue.len());
            let w = state.work.min(work.len());
            make(
                rt,
                call,
                given,
                &mut catalogue[..c],
                &mut work[..w],
                state.bytes,
            )?;
            Ok(state)
        }
    }
}

// `CA`: the catalogue's length and that of its front in two bytes each, the front. The rest are zeros.
fn new_catalogue(rt: &impl Streams, catalogue: &mut [u8], state: State) -> Result<State, Failure> {
    let length = read_number(rt, 2, catalogue.len())?;
    let front = read_number(rt, 2, length)?;
    read_all(rt, &mut catalogue[..front])?;
    fill(&mut catalogue[front..length], 0);
    Ok(State {
        catalogue: length,
        ..state
    })
}

// A call, with the fronts of the buffers.
fn make(
    rt: &impl Streams,
    call: Call,
    given: &mut [u8],
    catalogue: &mut [u8],
    work: &mut [u8],
    bytes: bool,
) -> Result<(), Failure> {
    match call {
        Call::Add => add(rt, false, given, catalogue, work, bytes),
        Call::AddDecided => add(rt, true, given, catalogue, work, bytes),
        Call::Withdraw => withdraw(rt, catalogue, bytes),
        Call::Recheck => check_again(rt, false, LIST, catalogue, work, given, bytes),
        Call::RecheckDecided => check_again(rt, true, DECIDED_LIST, catalogue, work, given, bytes),
        // `SO`
        Call::Carry => {
            let told = carry_numbers::carried(carry_open::catalogue(catalogue));
            print_changed(rt, b"carry", told, catalogue, bytes)
        }
        // `DS`
        Call::Drop => {
            let told = carry_numbers::dropped(carry_strays::catalogue(catalogue));
            print_changed(rt, b"drop", told, catalogue, bytes)
        }
    }
}

// `AD`, and `AE` by deciding: a length in two bytes, so many bytes.
// Kept: (d) whether to decide is said by a bool, here and below: the calls, the name and the numbers that are printed differ, and a closure for each
// would be longer.
fn add(
    rt: &impl Streams,
    decide: bool,
    given: &mut [u8],
    catalogue: &mut [u8],
    work: &mut [u8],
    bytes: bool,
) -> Result<(), Failure> {
    let n = read_number(rt, 2, given.len())?;
    let rule = &mut given[..n];
    read_all(rt, rule)?;
    fill(work, WORK_FILL);
    let told = if decide {
        Numbers::from(catalogue_add::add_decided(catalogue, rule, work))
    } else {
        Numbers::from(catalogue_add::add(catalogue, rule, work))
    };
    print_added(rt, decide, told, catalogue, work, bytes)
}

// `WI`: a rule's number in one byte.
fn withdraw(rt: &impl Streams, catalogue: &mut [u8], bytes: bool) -> Result<(), Failure> {
    let number = read_number(rt, 1, 255)?;
    let told = withdrawn(catalogue_add::withdraw(catalogue, number));
    print_changed(rt, b"withdraw", told, catalogue, bytes)
}

// `RE`, and `RD` by deciding: the list's length in two bytes.
fn check_again(
    rt: &impl Streams,
    decide: bool,
    most: usize,
    catalogue: &[u8],
    work: &mut [u8],
    given: &mut [u8],
    bytes: bool,
) -> Result<(), Failure> {
    let n = read_number(rt, 2, most.min(given.len()))?;
    let list = &mut given[..n];
    fill(work, WORK_FILL);
    fill(list, LIST_FILL);
    let told = if decide {
        Totals::from(catalogue_recheck::recheck_decided(catalogue, work, list))
    } else {
        Totals::from(catalogue_recheck::recheck(catalogue, work, list))
    };
    print_rechecked(rt, decide, told, list, catalogue, work, bytes)
}
