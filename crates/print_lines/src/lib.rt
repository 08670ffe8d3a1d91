// The lines of an answer, put into a lent buffer. Each function that puts bytes from a place on hands back the place behind them.
#![tactic(auto)]

ghost use Rattle.std.specs.Prelude.{[], ◌∷◌, ◌++◌, map, ◌≡◌, ◌+◌, ◌*◌, ◌%◌, ◌<◌, ◌≤◌, leb, length, take};
ghost use Rattle.paper.specs.Printed.{sign as sign_of};
ghost use Rattle.base_editions.specs.Editions.{paper_edition};
ghost use Rattle.paper_print.specs.TextLines.{printed_values};
ghost use Rattle.print_signs.specs.PrintedCharacter.{values_of_character};
ghost use Rattle.print_lines.specs.Lines.{longest_first_line, longest_decided_line, longest_line, room_for, Prints, lines_with, put_as, put_with, put_lines, put_decided};
ghost use Rattle.print_lines.specs.Writing.{Puts, PutsLines, in_digits, in_decimal, first_line_of, three_numbers, value_line, head_size, text_length};

use base_answers::Numbers;
use base_editions::Edition;
use base_put::sign;

// 20 digits are enough for every number of 64 bits.
const DIGITS: usize = 20;

// Three numbers of at most 20 digits, a sign behind each.
pub const FIRST_LINE: usize = 3 * (DIGITS + 1);

// Four.
pub const DECIDED_LINE: usize = 4 * (DIGITS + 1);

// `VA`, field byte, length in two bytes
const RECORD_HEAD: usize = 5;

fn put(out: &mut [u8], at: usize, byte: u8) -> usize
    requires { at < length out.old }
    ensures { Puts out.old out.new at result (byte ∷ []) }
{
    out[at] = byte;
    at + 1
}

// The last digit of a number.
fn digit(n: usize) -> u8
    ensures { result ≡ 48 + n % 10 }
{
    b'0' + (n % 10) as u8
}

// A number in decimal, with at most so many digits.
fn digits(out: &mut [u8], at: usize, most: usize, n: usize) -> usize
    requires { at + length (in_digits most n) ≤ length out.old }
    ensures { Puts out.old out.new at result (in_digits most n) }
{
    if most == 0 {
        return at;
    }
    if n < 10 {
        return put(out, at, digit(n));
    }
    let end = digits(out, at, most - 1, n / 10);
    put(out, end, digit(n))
}

// A number in decimal and a sign behind it.
fn number_and(out: &mut [u8], at: usize, n: usize, sign: u8) -> usize
    requires { at + length (in_decimal n) < length out.old }
    ensures { Puts out.old out.new at result (in_decimal n ++ (sign ∷ [])) }
{
    let end = digits(out, at, DIGITS, n);
    put(out, end, sign)
}

// Three numbers in decimal, one space between, and a sign behind them.
fn three_numbers(out: &mut [u8], number: usize, count: usize, place: usize, sign: u8) -> usize
    requires { longest_first_line ≤ length out.old }
    ensures { Puts out.old out.new 0 result (three_numbers number count place sign) }
{
    let behind_number = number_and(out, 0, number, b' ');
    let behind_count = number_and(out, behind_number, count, b' ');
    number_and(out, behind_count, place, sign)
}

// "answer, count and place in decimal, one space between", and the number of the search if one is told.
fn first_line(out: &mut [u8], told: Numbers, search: Option<usize>) -> usize
    requires { longest_line search ≤ length out.old }
    ensures { Puts out.old out.new 0 result (first_line_of told search) }
{
    match search {
        None => three_numbers(out, told.number, told.count, told.place, b'\n'),
        Some(search) => {
            let behind_place = three_numbers(out, told.number, told.count, told.place, b' ');
            number_and(out, behind_place, search, b'\n')
        }
    }
}

// A character, by the sign of its value or, if it has a shift sign, by two.
fn character(out: &mut [u8], at: usize, edition: Edition, c: u8) -> usize
    requires { at + 2 ≤ length out.old }
    ensures { Puts out.old out.new at result (map sign_of (values_of_character (paper_edition edition) c)) }
{
    let value = print_signs::value(edition, c);
    match print_signs::shift(edition, c) {
        None => put(out, at, sign(value)),
        Some(shift) => {
            let behind = put(out, at, sign(shift));
            put(out, behind, sign(value))
        }
    }
}

// "the text as characters"
fn spell(out: &mut [u8], at: usize, edition: Edition, text: &[u8]) -> usize
    requires { at + 2 * length text.now ≤ length out.old }
    ensures { Puts out.old out.new at result (map sign_of (printed_values (paper_edition edition) text.now)) }
{
    let mut end = at;
    for &c in text {
        end = character(out, end, edition, c);
    }
    end
}

// "field number, a space, the text as characters"
fn value_line(out: &mut [u8], at: usize, edition: Edition, field: u8, text: &[u8]) -> usize
    requires { at + (head_size + 2 * length text.now) ≤ length out.old }
    ensures { Puts out.old out.new at result (value_line (paper_edition edition) field text.now) }
{
    let behind_field = number_and(out, at, field as usize, b' ');
    let behind_text = spell(out, behind_field, edition, text);
    put(out, behind_text, b'\n')
}

fn low_first(low: u8, high: u8) -> usize
    ensures { result ≡ low + 256 * high }
{
    low as usize + 256 * (high as usize)
}

// How long the text of the record at a place is: as the record tells, but not past the end.
fn text_length(records: &[u8], from: usize) -> usize
    requires { from + head_size ≤ length records.now }
    ensures { result ≡ text_length records.now from }
{
    let told = low_first(records[from + 3], records[from + 4]);
    told.min(records.len() - (from + RECORD_HEAD))
}

// "a line for each `VA`": no line is longer than two of its records.
fn value_lines(out: &mut [u8], at: usize, edition: Edition, records: &[u8]) -> usize
    requires { at + 2 * length records.now ≤ length out.old }
    ensures { PutsLines (paper_edition edition) out.old out.new at result records.now }
{
    let mut end = at;
    let mut from = 0;
    // Kept: (d) a record is as long as its head tells, so no iterator steps from one to the next.
    while RECORD_HEAD <= records.len() - from {
        let text = from + RECORD_HEAD;
        let to = text + text_length(records, from);
        end = value_line(out, end, edition, records[from + 2], &records[text..to]);
        from = to;
    }
    end
}

// A line for each record of so many bytes of the answer buffer, behind the first line.
fn written_lines(
    out: &mut [u8],
    at: usize,
    edition: Edition,
    written: usize,
    answer: &[u8],
) -> usize
    requires { at + 2 * length answer.now ≤ length out.old }
    ensures { PutsLines (paper_edition edition) out.old out.new at result (take written answer.now) }
{
    let within = written.min(answer.len());
    value_lines(out, at, edition, &answer[0..within])
}

// The first line, and a line for each record that was written.
fn lines_put(
    out: &mut [u8],
    edition: Edition,
    told: Numbers,
    search: Option<usize>,
    answer: &[u8],
) -> usize
    requires { room_for (longest_line search) answer.now ≤ length out.old }
    ensures { Prints (lines_with (paper_edition edition) told search answer.now) out.old out.new result }
{
    let first = first_line(out, told, search);
    written_lines(out, first, edition, told.written, answer)
}

// Is a buffer of so many bytes long enough for a first line of so many and twice the answer buffer? No line but the first is longer than two of its
// records.
fn room_behind(first: usize, out: usize, answer: usize) -> bool
    ensures { result ≡ leb (first + 2 * answer) out }
{
    if out < first {
        return false;
    }
    answer <= (out - first) / 2
}

// Is a buffer of so many bytes long enough for the longest lines of an answer buffer of so many?
pub fn has_room(out: usize, answer: usize) -> bool
    ensures { result ≡ leb (longest_first_line + 2 * answer) out }
{
    room_behind(FIRST_LINE, out, answer)
}

// The same with the number of the search on the first line.
pub fn has_decided_room(out: usize, answer: usize) -> bool
    ensures { result ≡ leb (longest_decided_line + 2 * answer) out }
{
    room_behind(DECIDED_LINE, out, answer)
}

// How long a first line can be.
fn longest(search: Option<usize>) -> usize
    ensures { result ≡ longest_line search }
{
    match search {
        None => FIRST_LINE,
        Some(_) => DECIDED_LINE,
    }
}

// The lines of an answer's numbers and its buffer, with the number of the search or without, where the longest have room.
fn put_with(
    out: &mut [u8],
    edition: Edition,
    told: Numbers,
    search: Option<usize>,
    answer: &[u8],
) -> Option<usize>
    ensures { put_as result out.new ≡ put_with (paper_edition edition) told search answer.now out.old }
{
    if room_behind(longest(search), out.len(), answer.len()) {
        Some(lines_put(out, edition, told, search, answer))
    } else {
        None
    }
}

// The lines of an answer's numbers and its buffer, in front of `out`, and how many bytes they are. Where the longest have no room, nothing is changed.
pub fn put_lines(out: &mut [u8], edition: Edition, told: Numbers, answer: &[u8]) -> Option<usize>
    ensures { put_as result out.new ≡ put_lines (paper_edition edition) told answer.now out.old }
{
    put_with(out, edition, told, None, answer)
}

// The same with the number of the search that decided at the end of the first line.
pub fn put_decided(
    out: &mut [u8],
    edition: Edition,
    told: Numbers,
    search: usize,
    answer: &[u8],
) -> Option<usize>
    ensures { put_as result out.new ≡ put_decided (paper_edition edition) told search answer.now out.old }
{
    put_with(out, edition, told, Some(search), answer)
}
