// `test_sheets`: tries the library on many sheets. Standard input is a sequence of parts: a mark, the number of the cases, and so many cases. The
// mark says what is done with each case and what is printed of it (part.rt); a case is a sheet and the lengths of its buffers, or what the writer
// of sheets is handed, a text to be spelt or read back, or two sides to be told apart. The program ends where the input does, and also before a part or a case that is cut
// short, has another mark or asks for more than is lent here. A read or a write that fails is told on standard error.
//
// The stored parts are these twenty-seven, from 13 to 21 those of the second edition (request K10), from 22 to 24 those with stray patterns (request
// K13); tools/part frames a part. The second program prints the same lines. tools/compare tries fresh parts.
//
// 1. `BY`: the known sheets of document 01
//
// The buffers are lent full of bytes that are not zero. x is field 0, y field 1; the room is 356 situations and the answer buffer 4,096 bytes
// where nothing else is said. `second --many` prints the same.
//
//  1  both sides empty
//  2  `A` and `B`
//  3  x and `A`, open
//  4  xA and Bx, open
//  5  the same, x with pattern 68 65 0 42
//  6  xx and `AA`, open
//  7  xx and `A`, open
//  8  `AB`x`B` and x`B`y, open
//  9  x`A` and `B`yx, open
// 10  24 times x and `AA`, open, room 4
// 11  empty sheet
// 12  both sides empty and one more byte
// 13  xA and Bx, open, no room: 183 bytes of work
// 14  sheet S
// 15  sheet S, an answer buffer of 11 bytes
// 16  sheet S, room 12
// 17  `LT4` and `LT4` with a space
// 18  24 times x and `AA`, open, room 2
// 19  `KP`x and `KPS`y, x one of a keypad maker's 40 finishes, those with the same first letter together: 53 leaves
// 20  the same, the 40 finishes one by one: 80 leaves
// 21  `KP`x and `KPGD`, x one of the 40 finishes, as in 22 and 23
// 22  `KP`x and `KPGS`, which is none of them
// 23  `KP`x and `KP`y, both of them
//
// 2. `BY`: sheets at each fault and at the ends of what is allowed
//
// Each is lent 65,520 bytes of work and 4,096 of answer. `second --many` prints the same.
//
//   1 to  28  11: a record that ends behind each of its bytes, the first record and a later one
//  29 to  44  12: an unknown mark, a mark that is not allowed there, bytes behind `RI`
//  45 to  53  13: a field above 7, a field that does not rise, and either with a further fault behind it
//  54 to  62  14: a pattern of 0, 193 and 255 bytes, a side of 25 and 255 tokens
//  63 to  80  15: a byte that is no code, an operator without its parts, lo above hi, hi 43, a byte left over
//  81 to  85  16: 64 and 96 leaves, in the first pattern and in a later one, of a field that stands and of one that does not
//  86 to  94  17: 43, 63, 72 and 255 in either side
//  95 to 104  good sheets: both sides empty, 24 tokens a side, a pattern for each field, one of 63 leaves, one of 192 bytes, 191 deep; three of
//             them, 100 to 102, have a pattern that is stray
// 105 to 166  x with a pattern and y open: each operator under the others, ranges, 63 leaves, and patterns with a fault
// 167 to 198  the place of a fault: the rows of docs/RULES.md, section 5, that do not stand above
// 199 to 214  15 in a later pattern, at the sheet's end and in 192 bytes: lo above 42, with hi and without, hi below lo, a byte left over
// 215 to 225  16: as many ranges as fit among 64 leaves, the 64th a range, under stars, behind 64, the last of 192 bytes
// 226 to 237  15 where there are 64 leaves: behind the 64th, at it, before it
// 238 to 241  17: the last of 24 tokens, the first of several that are none
// 242 to 246  a choice of 40 characters, and one of 23 behind it, which makes 63 leaves
// 247 to 253  32 leaves, 97 bytes, 63 leaves in 192 bytes; 193 bytes in a later pattern, with 64 leaves, and without a code; the 192nd missing
// 254 to 258  the longest sheet, 1,622 bytes, whose patterns are stray; a byte less, a byte more, its last pattern a byte longer, with a leaf more
//
// 3. `LI`: what the program `clash` prints
//
// What the second program's `sheets --printed` makes. `second --many --lines` prints the same.
//
//  1        the sheet that `clash` is run on: 356 situations, texts of 294 characters, the last one empty
//  2        sheet S
//  3        a text of all 43 characters
//  4, 5     texts of 255 and of 256 characters
//  6        eight fields, every second text empty
//  7, 8     no field; and `LT4` and `LT4` with a space
//  9        texts that end in spaces, one of them of spaces alone
// 10        no clash
// 11, 12    no room: after 356 situations, and for the first
// 13        a side above 48 tokens
// 14, 15    an answer buffer of 11 bytes, too short, and one of 12
// 16, 17    11: an empty sheet, and eight patterns alone
// 18, 19    12: a byte behind `RI`, and a wrong mark behind seven patterns
// 20 to 24  13, 14, 15, 16, 17, some places above 255
//
// 4. `BY`: sheets by chance
//
// What the second program's `sheets --kept 1 20000` makes: stray patterns are taken out, here and below. `second --many` prints the same.
//
// 5. `DE`: sheets to decide
//
// What the second program's `sheets --kept --decide 7 1500` makes: pairs of rules and small sheets, in rooms that are often just what the deciding
// search needs, or one less; every search decides some, and some are not decided, refused, or have an answer buffer that is too short. `second
// --decide` prints the same.
//
// 6. `SC`: sheets written out as scripts
//
// What the second program's `sheets --kept 4 60` makes; 26 of its sheets are refused. `second --write-scripts` prints the same, and `second --scripts`
// reads it.
//
// 7. `SP`: sheets and rules carried over
//
// What the second program's `sheets --kept --spelt 6 1500` makes. `second --spelt` prints the same.
//
// 8. `WR`: sheets written by the program
//
// What the second program's `sheets --kept --write 8 1500` makes: good sides and patterns, up to the longest sheet; each refusal, among them patterns cut
// short, fields from 8 on and lengths that no byte holds; and output buffers of just the right length, of every length around it, and of none.
// `second --write` prints the same.
//
// 9. `PL`: sheets for the engine for plain rules
//
// What the second program's `sheets --kept --plain 9 1500` makes: sheets in which no field stands twice, with patterns of no leaf to 63, some up to
// the largest of all, ends at which spaces decide, pairs of rules; sheets in which a field stands twice; refused ones; and bit buffers of just
// the right length, of every length around it, and of none. `second --plain` prints the same.
//
// 10. `FA`: texts of Full ASCII spelt and read back
//
// What the second program's `sheets --ascii` makes: each of the 256 bytes alone, and all characters in one text; every pair of the values 0 to 44
// and 255, read back; each value alone, behind a letter and behind two letters, so that a shift sign stands at the end; and output buffers of every
// length around the right one. `second --ascii` prints the same.
//
// 11. `ST`: sheets answered with their steps
//
// What the second program's `sheets --kept --steps 10 800` makes: sheets that clash, with rooms, answer buffers and steps buffers that are often just
// what is needed, or one less; one whose way has 1,214 bytes; some without a clash, not decided or refused. `second --steps` prints the same.
//
// 12. `PY`: ways that are played
//
// First what the second program's `sheets --play-each` makes: every damage of every record of three short ways, and single steps that are not
// allowed. Then what `sheets --kept --play 11 550` makes: good ways, ways with one record damaged, left out, doubled or exchanged, ways by chance, and
// ways of other sheets, with answer buffers around the right length. `second --play` prints the same.
//
// 13. `BY`: sheets of the two editions
//
// First what the second program's `sheets --editions` makes: `ED` with each byte behind it, cut short, twice, and behind each other record; in
// both editions each byte as a token, as a pattern and as a range's ends, and each pair of those next to a limit as lo and hi; good sheets with
// each of the 128 characters. Then what `sheets --edition 2 --kept 21 3000` makes: sheets of the second edition by chance. `second --many` prints the
// same.
//
// 14. `LI`: what the program `clash` prints of the second edition
//
// What the second program's `sheets --edition 2 --printed` makes: texts are printed spelt. `second --many --lines` prints the same.
//
//  1        the 128 characters, in the texts of six fields
//  2        `Part 7`
//  3, 4     `$%/+`, the shift signs as characters, and `+A/B%C$D`, each before a letter
//  5        characters next to the ends of the rows of the spelling table, control characters among them
//  6, 7     `a` and two spaces; the empty text
//  8        fields 0 and 7, the later one first in the side
//  9, 10    no field: `LT4` and `LT4` with a space; no clash
// 11, 12    no room: after 356 situations, and after 2
// 13, 14    an answer buffer of 5 bytes, too short, and one of 6
// 15 to 17  11: `E`, `ED`, and `ED` and 2 alone
// 18, 19    12: `ED` twice; 44: `ED` and 1
// 20, 21    15: 128 in a pattern; 17: 200 in a side
//
// 15. `DE`: sheets of the two editions to decide
//
// First what the second program's `sheets --editions --few` makes: those of the thirteenth part with a byte next to a limit. Then what `sheets
// --edition 2 --kept --decide 27 400` makes, as in the fifth part. `second --decide` prints the same.
//
// 16. `SC`: sheets of the second edition written out as scripts
//
// What the second program's `sheets --edition 2 --kept 24 60` makes; 18 of its sheets are refused. `second --write-scripts` prints the same, and `second
// --scripts` reads it.
//
// 17. `SP`: sheets of the two editions carried over
//
// First what the second program's `sheets --editions --few` makes, then what `sheets --edition 2 --kept --spelt 26 600` makes. Rules have no edition:
// some have an `ED` behind `RU`. `second --spelt` prints the same.
//
// 18. `WE`: sheets of either edition written by the program
//
// First what the second program's `sheets --editions --write` makes: edition numbers from 0 to 4, from 254 to 258 and such that no byte holds, each
// with good and with faulty sides and patterns and with short output buffers; each byte as a token, as a pattern and as a range's ends; the longest
// sheets, 1,622 and 1,625 bytes, and a byte less. Then what `sheets --edition 2 --kept --write 28 800` makes, as in the eighth part. `second
// --write-edition` prints the same.
//
// 19. `PL`: sheets of the second edition for the engine for plain rules
//
// What the second program's `sheets --edition 2 --kept --plain 29 600` makes. `second --plain` prints the same.
//
// 20. `ST`: sheets of the second edition answered with their steps
//
// What the second program's `sheets --edition 2 --kept --steps 30 300` makes. `second --steps` prints the same.
//
// 21. `PY`: ways of the second edition that are played
//
// What the second program's `sheets --edition 2 --play-each` makes, then what `sheets --edition 2 --kept --play 31 200` makes. `second --play` prints the
// same.
//
// 22. `BY`: sheets with stray patterns
//
// First what the second program's `sheets --strays` makes: strays in every place, of every field and beside every other fault, in both editions. Then
// what `sheets --strays 41 1500` and `sheets --edition 2 --strays 42 500` make. `second --many` prints the same.
//
// 23. `DS`: sheets and rules whose stray patterns are taken out
//
// What `sheets --drop`, `sheets --drop 43 1000` and `sheets --edition 2 --drop 44 400` make. `second --drop` prints the same.
//
// 24. `WE`: sheets with stray patterns that the writer is to say
//
// What `sheets --strays --write` makes. `second --write-edition` prints the same.
//
// 25. `FR`: pairs of sides told apart
//
// First what the second program's `sheets --fronts` makes: in both editions every pair of sides of at most two tokens, each byte at each place of a side
// that differs from the other in front and at its end, and sides longer than a sheet's; then numbers of editions, those that no byte holds among
// them. Then what `sheets --fronts 51 2000` and `sheets --edition 2 --fronts 52 1000` make: sides of pairs of rules, and such with the same front and
// the same end. `second --fronts` prints the same.
//
// 26. `WA`: the way of given texts
//
// First what the second program's `sheets --way-each` makes: every damage of every byte and of every record of the texts of three short sheets, then
// single texts, among them one with the most steps that a way may have and one with one more. Then what `sheets --kept --way 61 300` makes: texts of
// clashes that were found, longer ones, and such with a damage. `second --way` prints the same.
//
// 27. `WA`: the same in the second edition
//
// What `sheets --edition 2 --way-each` and `sheets --edition 2 --kept --way 62 120` make. `second --way` prints the same.
#![tactic(auto)]

mod ascii;
mod fronts;
mod part;
mod plain;
mod script;
mod spelt;
mod steps;
mod written;

use base_answers::Numbers;
use part::{Kind, Part, Shown};
use print_clash::{FIRST_LINE, PRINTED};
use print_out::{
    Failure, Streams, WORK, WORK_FILL, fill, print, print_answer, print_number, print_numbers,
    print_work, read_all, read_number, tell_end,
};

// the longest sheet that two bytes can tell
const SHEET: usize = 65535;

// "65,520 bytes of work" (356 situations) "and 4,096 of answer"
const ANSWER: usize = 4096;

// The byte with which the answer buffer is filled before each case.
pub const ANSWER_FILL: u8 = 165;

fn main(rt: HostRuntime) {
    let mut sheet = [0u8; SHEET];
    let mut work = [0u8; WORK];
    let mut answer = [0u8; ANSWER];
    let ended = answer_each(&rt, &mut sheet, &mut work, &mut answer);
    tell_end(&rt, b"test_sheets", ended);
}

// A proved loop has to end, and nothing says that the input does: the turns go up to a number that no run uses up.
fn answer_each(
    rt: &impl Streams,
    sheet: &mut [u8],
    work: &mut [u8],
    answer: &mut [u8],
) -> Result<(), Failure> {
    for _ in 0..u64::MAX {
        let Some(part) = part::next(rt)? else {
            return Ok(());
        };
        answer_part(rt, sheet, work, answer, part)?;
    }
    Ok(())
}

fn answer_part(
    rt: &impl Streams,
    sheet: &mut [u8],
    work: &mut [u8],
    answer: &mut [u8],
    part: Part,
) -> Result<(), Failure> {
    for _ in 0..part.cases {
        match part.kind {
            Kind::Sheets(shown) => answer_sheet(rt, sheet, work, answer, shown)?,
            Kind::Written => written::show_written(rt)?,
            Kind::Edition => written::show_edition(rt)?,
            Kind::Ascii => ascii::show_ascii(rt)?,
            Kind::Fronts => fronts::show_fronts(rt)?,
        }
    }
    Ok(())
}

// The length of the working buffer and that of the answer buffer in four bytes each, the sheet's length in two, all low first, and the sheet.
fn answer_sheet(
    rt: &impl Streams,
    sheet: &mut [u8],
    work: &mut [u8],
    answer: &mut [u8],
    shown: Shown,
) -> Result<(), Failure> {
    let w = read_number(rt, 4, work.len())?;
    let a = read_number(rt, 4, answer.len())?;
    let s = read_number(rt, 2, sheet.len())?;
    read_all(rt, &mut sheet[..s])?;
    answer_case(rt, &sheet[..s], &mut work[..w], &mut answer[..a], shown)
}

fn answer_case(
    rt: &impl Streams,
    sheet: &[u8],
    work: &mut [u8],
    answer: &mut [u8],
    shown: Shown,
) -> Result<(), Failure> {
    fill(work, WORK_FILL);
    fill(answer, ANSWER_FILL);
    match shown {
        Shown::Bytes => show_bytes(rt, sheet, work, answer),
        Shown::Decided => show_decided(rt, sheet, work, answer),
        Shown::Lines => show_lines(rt, sheet, work, answer),
        Shown::Scripts => script::show_script(rt, sheet),
        Shown::Spelt => spelt::show_spelt(rt, sheet, answer),
        Shown::Dropped => spelt::show_dropped(rt, sheet, answer),
        Shown::Plain => plain::show_plain(rt, sheet, work),
        Shown::Steps => steps::show_steps(rt, sheet, work, answer),
        Shown::Played => steps::show_played(rt, sheet, answer),
        Shown::WayOfTexts => steps::show_way_of_texts(rt, sheet, answer),
    }
}

fn show_bytes(
    rt: &impl Streams,
    sheet: &[u8],
    work: &mut [u8],
    answer: &mut [u8],
) -> Result<(), Failure> {
    let told = Numbers::from(search_clash::clash(sheet, work, answer));
    print_answered(rt, told, work, answer)?;
    print(rt, b"\n")
}

fn show_decided(
    rt: &impl Streams,
    sheet: &[u8],
    work: &mut [u8],
    answer: &mut [u8],
) -> Result<(), Failure> {
    let made = decide_sheet::decide(sheet, work, answer);
    print_answered(rt, Numbers::from(made.answer), work, answer)?;
    print(rt, b", search ")?;
    print_number(rt, made.search as usize)?;
    print(rt, b"\n")
}

// Number, count, place and written length, and every byte of the two buffers.
fn print_answered(
    rt: &impl Streams,
    told: Numbers,
    work: &[u8],
    answer: &[u8],
) -> Result<(), Failure> {
    print_all(rt, told)?;
    print_answer(rt, answer, told.written, ANSWER_FILL)?;
    print_work(rt, work)
}

// A line: number, count, place and written length, and every byte of one buffer.
fn print_line(rt: &impl Streams, told: Numbers, lent: &[u8]) -> Result<(), Failure> {
    print_all(rt, told)?;
    print_answer(rt, lent, told.written, ANSWER_FILL)?;
    print(rt, b"\n")
}

// Number, count, place and written length.
fn print_all(rt: &impl Streams, told: Numbers) -> Result<(), Failure> {
    print_number(rt, told.number)?;
    print_numbers(rt, &[told.count, told.place, told.written])
}

// The lines, with just the room that the longest need.
fn show_lines(
    rt: &impl Streams,
    sheet: &[u8],
    work: &mut [u8],
    answer: &mut [u8],
) -> Result<(), Failure> {
    let mut out = [0u8; PRINTED];
    if ANSWER < answer.len() {
        return Ok(());
    }
    let room = FIRST_LINE + 2 * answer.len();
    print_lines(rt, sheet, work, answer, &mut out[..room])
}

fn print_lines(
    rt: &impl Streams,
    sheet: &[u8],
    work: &mut [u8],
    answer: &mut [u8],
    out: &mut [u8],
) -> Result<(), Failure> {
    match print_clash::lines(sheet, work, answer, out) {
        Some(n) => print(rt, &out[..n.min(out.len())]),
        None => print(rt, b"no room\n"),
    }
}

// Number, place and written length.
fn print_told(rt: &impl Streams, told: Numbers) -> Result<(), Failure> {
    print_number(rt, told.number)?;
    print_numbers(rt, &[told.place, told.written])
}
