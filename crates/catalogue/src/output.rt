// The lines of the calls.
use catalogue_numbers::{Numbers, Totals};
use catalogue_recheck::{DECIDED_BYTES, PAIR_BYTES};
use print_out::{Failure, Streams, low_first, print, print_buffer, print_numbers, print_work};

// Number, count, place, rule's number and pair's answer; by deciding the search too.
pub fn print_added(
    rt: &impl Streams,
    decide: bool,
    told: Numbers,
    catalogue: &[u8],
    work: &[u8],
    bytes: bool,
) -> Result<(), Failure> {
    let shown = [told.number, told.count, told.place, told.rule, told.answer];
    if decide {
        print(rt, b"add_decided")?;
        print_numbers(rt, &shown)?;
        print_numbers(rt, &[told.search])?;
    } else {
        print(rt, b"add")?;
        print_numbers(rt, &shown)?;
    }
    if bytes {
        print_buffers(rt, catalogue, work)?;
    }
    print(rt, b"\n")
}

// The number alone.
pub fn print_changed(
    rt: &impl Streams,
    call: &[u8],
    number: usize,
    catalogue: &[u8],
    bytes: bool,
) -> Result<(), Failure> {
    print(rt, call)?;
    print_numbers(rt, &[number])?;
    if bytes {
        print_buffer(rt, b", catalogue", catalogue)?;
    }
    print(rt, b"\n")
}

// Number, pairs and bytes written; then every byte, or the pairs.
pub fn print_rechecked(
    rt: &impl Streams,
    decide: bool,
    told: Totals,
    list: &[u8],
    catalogue: &[u8],
    work: &[u8],
    bytes: bool,
) -> Result<(), Failure> {
    let name: &[u8] = if decide {
        b"recheck_decided"
    } else {
        b"recheck"
    };
    print(rt, name)?;
    print_numbers(rt, &[told.number, told.pairs, told.written])?;
    if bytes {
        print_buffer(rt, b", list", list)?;
        print_buffers(rt, catalogue, work)?;
    } else {
        print_pairs(rt, decide, &list[..told.written.min(list.len())])?;
    }
    print(rt, b"\n")
}

fn print_buffers(rt: &impl Streams, catalogue: &[u8], work: &[u8]) -> Result<(), Failure> {
    print_buffer(rt, b", catalogue", catalogue)?;
    print_work(rt, work)
}

// A line for each pair that is listed: both numbers, answer and count; by deciding the search too.
fn print_pairs(rt: &impl Streams, decide: bool, listed: &[u8]) -> Result<(), Failure> {
    let bytes = if decide { DECIDED_BYTES } else { PAIR_BYTES };
    for pair in listed.chunks_exact(bytes) {
        print(rt, b"\npair")?;
        match pair {
            [lower, higher, answer, low, high] => {
                let count = low_first(*low, *high, 0, 0);
                print_pair(rt, *lower, *higher, *answer, count)?;
            }
            [lower, higher, answer, low, middle, high, search] => {
                let count = low_first(*low, *middle, *high, 0);
                print_pair(rt, *lower, *higher, *answer, count)?;
                print_numbers(rt, &[*search as usize])?;
            }
            // never: a pair has as many bytes as one of these
            _ => {}
        }
    }
    Ok(())
}

fn print_pair(
    rt: &impl Streams,
    lower: u8,
    higher: u8,
    answer: u8,
    count: usize,
) -> Result<(), Failure> {
    print_numbers(
        rt,
        &[lower as usize, higher as usize, answer as usize, count],
    )
}
