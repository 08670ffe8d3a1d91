// Sheets written by the program, in numbers: what a caller in another language is told.
#![tactic(auto)]

ghost use Rattle.std.specs.Prelude.{◌≡◌};
ghost use Rattle.paper_write.specs.Writing.{writing};
ghost use Rattle.write_sheet.specs.SheetWritten.{given};
ghost use Rattle.c_write.specs.WrittenNumbers.{telling_written};

use base_answers::Numbers;
use c_tell::tell;

// The one sheet that says these sides and patterns in the edition, 0 for none: the number; count (which is 0), place and written length go into the
// first three elements of `told`, as many as there is room for.
pub fn sheet_in(
    edition: usize,
    patterns: &[u8],
    lengths: &[u64],
    left: &[u8],
    right: &[u8],
    out: &mut [u8],
    told: &mut [u64],
) -> u32
    ensures number { result ≡ (writing (given edition patterns.now lengths.now left.now right.now) out.old).number }
    ensures told { told.new ≡ telling_written told.old (writing (given edition patterns.now lengths.now left.now right.now) out.old) }
    ensures out { out.new ≡ (writing (given edition patterns.now lengths.now left.now right.now) out.old).out }
{
    let written = write_sheet::write_edition(edition, patterns, lengths, left, right, out);
    let numbers = Numbers::from(written);
    tell(told, 0, numbers.place, numbers.written);
    numbers.number as u32
}

// The same without `ED`.
pub fn sheet(
    patterns: &[u8],
    lengths: &[u64],
    left: &[u8],
    right: &[u8],
    out: &mut [u8],
    told: &mut [u64],
) -> u32
    ensures number { result ≡ (writing (given 0 patterns.now lengths.now left.now right.now) out.old).number }
    ensures told { told.new ≡ telling_written told.old (writing (given 0 patterns.now lengths.now left.now right.now) out.old) }
    ensures out { out.new ≡ (writing (given 0 patterns.now lengths.now left.now right.now) out.old).out }
{
    sheet_in(0, patterns, lengths, left, right, out, told)
}
