// The patterns' records, from an offset to the first record that is none: "no, one or several `PA`, field numbers rising".
#![tactic(auto)]

ghost use Rattle.std.specs.Prelude.{◌≡◌, ◌||◌, suc, ◌+◌, ◌≤◌, leb, ltb, eqb, length};
ghost use Rattle.paper.specs.Numbers.{fields, pattern_bytes};
ghost use Rattle.paper.specs.Sheet.{PA, next_is, open_fields, read_patterns};
ghost use Rattle.base_editions.specs.Editions.{paper_edition};
ghost use Rattle.read_fields.specs.Bodies.{bodies_in};
ghost use Rattle.read_fields.specs.Walk.{fields_of, tables_of, PatternRead};

use base_answers::{Fault, Refusal};
use base_codes::SHEET_FIELDS;
use base_editions::Edition;
use base_places::PlaceTables;
use base_question::Body;
use read_codes::{PATTERN_BYTES, codes_of};
use read_side::{Cursor, Mark};

// What the patterns' records say beside the tables.
#[derive(Clone, Copy)]
pub struct Fields {
    // behind the last pattern's record
    pub next: Cursor,
    // one above the last pattern's field; 0 where there is none
    pub above: usize,
    // where each field's pattern stands
    pub bodies: [Body; SHEET_FIELDS],
}

// Reads them: "Reading goes on from where the last record ended." What is worked out of each field's pattern is laid into lent tables: handed back in a
// `Result` they would lie on the stack twice more while a pattern is read. With a fault all fields are open.
pub fn read(
    s: &[u8],
    start: Cursor,
    edition: Edition,
    tables: &mut [PlaceTables; SHEET_FIELDS],
) -> Result<Fields, Refusal>
    ensures said { result ≡ fields_of (bodies_in s.now start.at) (read_patterns (paper_edition edition) (suc (length s.now)) s.now start.at open_fields) }
    ensures tables { tables.new ≡ tables_of (read_patterns (paper_edition edition) (suc (length s.now)) s.now start.at open_fields) }
{
    // "A field without `PA` is open": before the first record every field is.
    let open = base_places::open_tables();
    *tables = [open; SHEET_FIELDS];
    let mut bodies = base_question::no_bodies();
    let mut c = PatternCursor {
        at: start.at,
        above: 0,
    };
    while c.next_is_pattern(s) {
        match c.pattern(s, edition) {
            Err(refusal) => {
                *tables = [open; SHEET_FIELDS];
                return Err(refusal);
            }
            Ok(r) => {
                tables[r.field] = r.tables;
                bodies[r.field] = r.body;
                c = r.next;
            }
        }
    }
    Ok(Fields {
        next: Cursor { at: c.at },
        above: c.above,
        bodies,
    })
}

// A cursor from one pattern's record to the next: where its mark stands, and the least field number that it may have.
#[derive(Clone, Copy)]
struct PatternCursor {
    at: usize,
    above: usize,
}

// A good pattern's record: the field, what is worked out of its pattern, where that stands, and the cursor behind the record.
#[derive(Clone, Copy)]
struct PatternRecord {
    field: usize,
    tables: PlaceTables,
    body: Body,
    next: PatternCursor,
}

impl PatternCursor {
    // Does a pattern's record come next?
    fn next_is_pattern(self, s: &[u8]) -> bool
        ensures { result ≡ next_is PA s.now self.at }
    {
        let c = Cursor { at: self.at };
        c.next_is(s, Mark::PA)
    }

    // A pattern's record, behind its mark: "missing field or length byte 11; field above 7 or not above the field before it 13; length out
    // of its range 14; missing body 11; then for a pattern 15, then 16".
    #[tactic(auto, unfolding(paper::specs::Sheet::pattern_record))]
    fn pattern(self, s: &[u8], edition: Edition) -> Result<PatternRecord, Refusal>
        requires { self.at + 2 ≤ length s.now }
        ensures { PatternRead (paper_edition edition) s.now self.at self.above result }
    {
        let at = self.at;
        let left = s.len() - at;
        if left < 4 {
            return Err(Refusal {
                fault: Fault::CutShort,
                place: s.len(),
            });
        }
        let field = s[at + 2] as usize;
        if wrong_field(field, self.above) {
            return Err(Refusal {
                fault: Fault::WrongField,
                place: at + 2,
            });
        }
        let len = s[at + 3] as usize;
        if wrong_length(len) {
            return Err(Refusal {
                fault: Fault::WrongLength,
                place: at + 3,
            });
        }
        if left < 4 + len {
            return Err(Refusal {
                fault: Fault::CutShort,
                place: s.len(),
            });
        }
        let start = at + 4;
        let end = start + len;
        let codes: [u8; PATTERN_BYTES] = codes_of(edition, &s[start..end]);
        match read_pattern::tables(&codes[0..len]) {
            Err(x) => Err(Refusal {
                fault: x.fault,
                place: start + x.place,
            }),
            Ok(tables) => Ok(PatternRecord {
                field,
                tables,
                body: Body { start, length: len },
                next: PatternCursor {
                    at: end,
                    above: field + 1,
                },
            }),
        }
    }
}

// "field above 7 or not above the field before it"
fn wrong_field(field: usize, least: usize) -> bool
    ensures { result ≡ (leb fields field || ltb field least) }
{
    SHEET_FIELDS <= field || field < least
}

// "length byte n 1 to 192"
fn wrong_length(len: usize) -> bool
    ensures { result ≡ (eqb len 0 || ltb pattern_bytes len) }
{
    len == 0 || PATTERN_BYTES < len
}
