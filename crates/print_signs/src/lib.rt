// How characters are printed (request K10): those of a sheet with `ED` spelt into plain Code 39, others by their own values.
#![tactic(auto)]

ghost use Rattle.std.specs.Prelude.{◌≡◌};
ghost use Rattle.base_editions.specs.Editions.{paper_edition};
ghost use Rattle.paper_print.specs.TextLines.{sheet_edition};
ghost use Rattle.spell_table.specs.Entries.{shift_sign};
ghost use Rattle.print_signs.specs.PrintedCharacter.{shift_printed, value_printed};

use base_editions::Edition;

// The edition of a sheet: the second, if it begins with `ED` and the byte 2.
pub fn edition(sheet: &[u8]) -> Edition
    ensures { paper_edition result ≡ sheet_edition sheet.now }
{
    if sheet.starts_with(b"ED\x02") {
        Edition::Second
    } else {
        Edition::First
    }
}

// The shift sign that a character is printed with, if it has one.
pub fn shift(edition: Edition, c: u8) -> Option<u8>
    ensures { result ≡ shift_sign (shift_printed (paper_edition edition) c) }
{
    match edition {
        Edition::First => None,
        Edition::Second => spell_table::shift(c),
    }
}

// The value that it is printed with, which stands behind the shift sign.
pub fn value(edition: Edition, c: u8) -> u8
    ensures { result ≡ value_printed (paper_edition edition) c }
{
    match edition {
        Edition::First => c,
        Edition::Second => spell_table::value(c),
    }
}
