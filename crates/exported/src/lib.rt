// The library for other languages: functions on slices and numbers.
#![tactic(auto)]

ghost use Rattle.std.specs.Prelude.{◌≡◌};
ghost use Rattle.paper.specs.Outcome.{outcome};
ghost use Rattle.paper_catalogue.specs.Catalogue.{adding, withdrawing};
ghost use Rattle.paper_catalogue.specs.Recheck.{rechecking};
ghost use Rattle.paper_catalogue_decide.specs.DecidedPairs.{adding_decided, rechecking_decided};
ghost use Rattle.paper_script.specs.Scripting.{scripting};
ghost use Rattle.paper_carry.specs.Spelling.{spelling, rule_spelling, carrying_over};
ghost use Rattle.paper_strays.specs.Dropping.{dropping, rule_dropping, catalogue_dropping};
ghost use Rattle.paper_write.specs.Writing.{writing};
ghost use Rattle.paper_plain.specs.Engine.{engine, needs};
ghost use Rattle.paper_fronts.specs.FixedFronts.{fronts_told};
ghost use Rattle.paper_spell.specs.Spell.{spelling_text, reading_spelt};
ghost use Rattle.paper_steps.specs.StepsOutcome.{steps_outcome};
ghost use Rattle.paper_decide.specs.Deciding.{decision};
ghost use Rattle.paper_steps.specs.Player.{play};
ghost use Rattle.paper_way.specs.WayOutcome.{way};
ghost use Rattle.c_clash.specs.Asking.{telling};
ghost use Rattle.c_steps.specs.StepsTelling.{telling_steps};
ghost use Rattle.c_decide.specs.Decided.{telling_decided};
ghost use Rattle.c_play.specs.PlayTold.{telling_played};
ghost use Rattle.c_way.specs.WayTold.{telling_way};
ghost use Rattle.c_carry.specs.Carried.{telling_spelt};
ghost use Rattle.c_write.specs.WrittenNumbers.{telling_written};
ghost use Rattle.c_plain.specs.EngineTelling.{telling_plain, telling_needs};
ghost use Rattle.write_sheet.specs.SheetWritten.{given};
ghost use Rattle.c_spell.specs.SpellNumbers.{telling_spell};
ghost use Rattle.c_version.specs.VersionTold.{version_told};
ghost use Rattle.c_script.specs.Scripted.{telling_scripted};
ghost use Rattle.c_catalogue.specs.Catalogued.{telling_added, telling_rechecked};
ghost use Rattle.c_catalogue_decide.specs.CatalogueDecided.{telling_added_by};

// Can the two rules of the sheet make the same label? Returns document 01's number; count, place and written length go into the first three
// elements of `told`, as many as there is room for.
#[unsafe(no_mangle)]
pub extern "C" fn bradovusc_clash(
    sheet: &[u8],
    work: &mut [u8],
    answer: &mut [u8],
    told: &mut [u64],
) -> u32
    ensures number { result ≡ (outcome sheet.now work.old answer.old).number }
    ensures told { told.new ≡ telling told.old (outcome sheet.now work.old answer.old) }
    ensures answer { answer.new ≡ (outcome sheet.now work.old answer.old).answer }
    ensures work { work.new ≡ (outcome sheet.now work.old answer.old).work }
{
    c_clash::sheet(sheet, work, answer, told)
}

// The same, and after a clash the way found is written into `steps` as records. Returns its number, 51 where the steps don't fit; count, place,
// written length and the bytes of steps go into the first four elements of `told`, as many as there is room for.
#[unsafe(no_mangle)]
pub extern "C" fn bradovusc_steps(
    sheet: &[u8],
    work: &mut [u8],
    answer: &mut [u8],
    steps: &mut [u8],
    told: &mut [u64],
) -> u32
    ensures number { result ≡ (steps_outcome sheet.now work.old answer.old steps.old).number }
    ensures told { told.new ≡ telling_steps told.old (steps_outcome sheet.now work.old answer.old steps.old) }
    ensures answer { answer.new ≡ (steps_outcome sheet.now work.old answer.old steps.old).answer }
    ensures steps { steps.new ≡ (steps_outcome sheet.now work.old answer.old steps.old).steps }
    ensures work { work.new ≡ (steps_outcome sheet.now work.old answer.old steps.old).work }
{
    c_steps::sheet(sheet, work, answer, steps, told)
}

// Plays the records of steps on the sheet. Returns request K14's number; count (which is 0), place and written length go into the first three
// elements of `told`, as many as there is room for.
#[unsafe(no_mangle)]
pub extern "C" fn bradovusc_play(
    sheet: &[u8],
    steps: &[u8],
    answer: &mut [u8],
    told: &mut [u64],
) -> u32
    ensures number { result ≡ (play sheet.now steps.now answer.old).number }
    ensures told { told.new ≡ telling_played told.old (play sheet.now steps.now answer.old) }
    ensures answer { answer.new ≡ (play sheet.now steps.now answer.old).answer }
{
    c_play::sheet(sheet, steps, answer, told)
}

// Writes the steps by 01's rules that spell the texts of these answer records on the sheet. Returns its number; count (which is 0), place and written
// length go into the first three elements of `told`, as many as there is room for.
#[unsafe(no_mangle)]
pub extern "C" fn bradovusc_way(
    sheet: &[u8],
    texts: &[u8],
    steps: &mut [u8],
    told: &mut [u64],
) -> u32
    ensures number { result ≡ (way sheet.now texts.now steps.old).number }
    ensures told { told.new ≡ telling_way told.old (way sheet.now texts.now steps.old) }
    ensures steps { steps.new ≡ (way sheet.now texts.now steps.old).steps }
{
    c_way::sheet(sheet, texts, steps, told)
}

// As `bradovusc_clash`, with up to six more attempts where that leaves the question open. Returns its number; count, place, written length and the
// attempt that decided (1 to 7; 0 where none did) go into the first four elements of `told`, as many as there is room for.
#[unsafe(no_mangle)]
pub extern "C" fn bradovusc_decide(
    sheet: &[u8],
    work: &mut [u8],
    answer: &mut [u8],
    told: &mut [u64],
) -> u32
    ensures number { result ≡ (decision sheet.now work.old answer.old).outcome.number }
    ensures told { told.new ≡ telling_decided told.old (decision sheet.now work.old answer.old) }
    ensures answer { answer.new ≡ (decision sheet.now work.old answer.old).outcome.answer }
    ensures work { work.new ≡ (decision sheet.now work.old answer.old).outcome.work }
{
    c_decide::sheet(sheet, work, answer, told)
}

// Enters a rule behind the last one of the catalogue if its pair with every rule present is answered 1. Returns request K1's number; count,
// place, the rule's number and the pair's answer go into the first four elements of `told`, as many as there is room for.
#[unsafe(no_mangle)]
pub extern "C" fn bradovusc_add(
    catalogue: &mut [u8],
    rule: &[u8],
    work: &mut [u8],
    told: &mut [u64],
) -> u32
    ensures number { result ≡ (adding catalogue.old rule.now work.old).number }
    ensures told { told.new ≡ telling_added told.old (adding catalogue.old rule.now work.old) }
    ensures catalogue { catalogue.new ≡ (adding catalogue.old rule.now work.old).catalogue }
    ensures work { work.new ≡ (adding catalogue.old rule.now work.old).work }
{
    c_catalogue::add(catalogue, rule, work, told)
}

// Withdraws the rule with this number and closes the gap. Returns request K1's number.
#[unsafe(no_mangle)]
pub extern "C" fn bradovusc_withdraw(catalogue: &mut [u8], number: usize) -> u32
    ensures number { result ≡ (withdrawing catalogue.old number).number }
    ensures catalogue { catalogue.new ≡ (withdrawing catalogue.old number).catalogue }
{
    c_catalogue::withdraw(catalogue, number)
}

// Lists the pairs of the catalogue's rules that are not answered 1, by lower, then higher number, five bytes each: lower, higher, answer, count
// (low byte first). Returns request K3's number; how many pairs are listed and how many bytes they have go into the first two elements of `told`, as
// many as there is room for.
#[unsafe(no_mangle)]
pub extern "C" fn bradovusc_recheck(
    catalogue: &[u8],
    work: &mut [u8],
    list: &mut [u8],
    told: &mut [u64],
) -> u32
    ensures number { result ≡ (rechecking catalogue.now work.old list.old).number }
    ensures told { told.new ≡ telling_rechecked told.old (rechecking catalogue.now work.old list.old) }
    ensures list { list.new ≡ (rechecking catalogue.now work.old list.old).list }
    ensures work { work.new ≡ (rechecking catalogue.now work.old list.old).work }
{
    c_catalogue::recheck(catalogue, work, list, told)
}

// As `bradovusc_add`, but a pair is asked as `bradovusc_decide` asks. The attempt that gave the pair's answer goes into the fifth element of `told`.
#[unsafe(no_mangle)]
pub extern "C" fn bradovusc_add_decided(
    catalogue: &mut [u8],
    rule: &[u8],
    work: &mut [u8],
    told: &mut [u64],
) -> u32
    ensures number { result ≡ (adding_decided catalogue.old rule.now work.old).added.number }
    ensures told { told.new ≡ telling_added_by told.old (adding_decided catalogue.old rule.now work.old) }
    ensures catalogue { catalogue.new ≡ (adding_decided catalogue.old rule.now work.old).added.catalogue }
    ensures work { work.new ≡ (adding_decided catalogue.old rule.now work.old).added.work }
{
    c_catalogue_decide::add_decided(catalogue, rule, work, told)
}

// As `bradovusc_recheck`, but a pair is asked as `bradovusc_decide` asks, and has seven bytes: lower, higher, answer, count in three bytes (low byte
// first), and the attempt that gave the answer.
#[unsafe(no_mangle)]
pub extern "C" fn bradovusc_recheck_decided(
    catalogue: &[u8],
    work: &mut [u8],
    list: &mut [u8],
    told: &mut [u64],
) -> u32
    ensures number { result ≡ (rechecking_decided catalogue.now work.old list.old).number }
    ensures told { told.new ≡ telling_rechecked told.old (rechecking_decided catalogue.now work.old list.old) }
    ensures list { list.new ≡ (rechecking_decided catalogue.now work.old list.old).list }
    ensures work { work.new ≡ (rechecking_decided catalogue.now work.old list.old).work }
{
    c_catalogue_decide::recheck_decided(catalogue, work, list, told)
}

// Writes the sheet out as a script for string solvers. Returns request K4's number; count (which is 0), place and written length go into the first
// three elements of `told`, as many as there is room for.
#[unsafe(no_mangle)]
pub extern "C" fn bradovusc_script(sheet: &[u8], script: &mut [u8], told: &mut [u64]) -> u32
    ensures number { result ≡ (scripting sheet.now script.old).number }
    ensures told { told.new ≡ telling_scripted told.old (scripting sheet.now script.old) }
    ensures script { script.new ≡ (scripting sheet.now script.old).script }
{
    c_script::sheet(sheet, script, told)
}

// Writes the sheet with 68 65 0 42 for every standing field without a pattern. Returns request K5's number; count (which is 0), place and written
// length go into the first three elements of `told`, as many as there is room for.
#[unsafe(no_mangle)]
pub extern "C" fn bradovusc_spell_open(sheet: &[u8], out: &mut [u8], told: &mut [u64]) -> u32
    ensures number { result ≡ (spelling sheet.now out.old).number }
    ensures told { told.new ≡ telling_spelt told.old (spelling sheet.now out.old) }
    ensures out { out.new ≡ (spelling sheet.now out.old).out }
{
    c_carry::sheet(sheet, out, told)
}

// Writes the rule of a catalogue likewise.
#[unsafe(no_mangle)]
pub extern "C" fn bradovusc_spell_open_rule(rule: &[u8], out: &mut [u8], told: &mut [u64]) -> u32
    ensures number { result ≡ (rule_spelling rule.now out.old).number }
    ensures told { told.new ≡ telling_spelt told.old (rule_spelling rule.now out.old) }
    ensures out { out.new ≡ (rule_spelling rule.now out.old).out }
{
    c_carry::rule(rule, out, told)
}

// Carries every rule of the catalogue over, in its own buffer. Returns request K5's number.
#[unsafe(no_mangle)]
pub extern "C" fn bradovusc_spell_open_catalogue(catalogue: &mut [u8]) -> u32
    ensures number { result ≡ (carrying_over catalogue.old).number }
    ensures catalogue { catalogue.new ≡ (carrying_over catalogue.old).catalogue }
{
    c_carry::catalogue(catalogue)
}

// Writes the sheet without the patterns of fields that stand in neither side; it is read by the rule before request K13. Returns that request's number;
// count (which is 0), place and written length go into the first three elements of `told`, as many as there is room for.
#[unsafe(no_mangle)]
pub extern "C" fn bradovusc_drop_strays(sheet: &[u8], out: &mut [u8], told: &mut [u64]) -> u32
    ensures number { result ≡ (dropping sheet.now out.old).number }
    ensures told { told.new ≡ telling_spelt told.old (dropping sheet.now out.old) }
    ensures out { out.new ≡ (dropping sheet.now out.old).out }
{
    c_strays::sheet(sheet, out, told)
}

// Writes the rule of a catalogue likewise.
#[unsafe(no_mangle)]
pub extern "C" fn bradovusc_drop_strays_rule(rule: &[u8], out: &mut [u8], told: &mut [u64]) -> u32
    ensures number { result ≡ (rule_dropping rule.now out.old).number }
    ensures told { told.new ≡ telling_spelt told.old (rule_dropping rule.now out.old) }
    ensures out { out.new ≡ (rule_dropping rule.now out.old).out }
{
    c_strays::rule(rule, out, told)
}

// Takes such patterns out of every rule of the catalogue, in its own buffer. Returns request K13's number.
#[unsafe(no_mangle)]
pub extern "C" fn bradovusc_drop_strays_catalogue(catalogue: &mut [u8]) -> u32
    ensures number { result ≡ (catalogue_dropping catalogue.old).number }
    ensures catalogue { catalogue.new ≡ (catalogue_dropping catalogue.old).catalogue }
{
    c_strays::catalogue(catalogue)
}

// Writes the one sheet that says these sides and patterns. `patterns` are the bytes of all patterns one behind the other; `lengths` says how many of
// them each field has, by field number; 0, and a field behind the last length, is a field without a pattern. Returns request K8's number; count
// (which is 0), place and written length go into the first three elements of `told`, as many as there is room for.
#[unsafe(no_mangle)]
pub extern "C" fn bradovusc_write(
    patterns: &[u8],
    lengths: &[u64],
    left: &[u8],
    right: &[u8],
    out: &mut [u8],
    told: &mut [u64],
) -> u32
    ensures number { result ≡ (writing (given 0 patterns.now lengths.now left.now right.now) out.old).number }
    ensures told { told.new ≡ telling_written told.old (writing (given 0 patterns.now lengths.now left.now right.now) out.old) }
    ensures out { out.new ≡ (writing (given 0 patterns.now lengths.now left.now right.now) out.old).out }
{
    c_write::sheet(patterns, lengths, left, right, out, told)
}

// The same in an edition: 0 for none, 2 for `ED` and 2 in front; 44 at place 2 for any other.
#[unsafe(no_mangle)]
pub extern "C" fn bradovusc_write_edition(
    edition: usize,
    patterns: &[u8],
    lengths: &[u64],
    left: &[u8],
    right: &[u8],
    out: &mut [u8],
    told: &mut [u64],
) -> u32
    ensures number { result ≡ (writing (given edition patterns.now lengths.now left.now right.now) out.old).number }
    ensures told { told.new ≡ telling_written told.old (writing (given edition patterns.now lengths.now left.now right.now) out.old) }
    ensures out { out.new ≡ (writing (given edition patterns.now lengths.now left.now right.now) out.old).out }
{
    c_write::sheet_in(edition, patterns, lengths, left, right, out, told)
}

// Can the two rules of the sheet make the same label? Only clash or no clash, for a sheet in which no field stands twice; it is lent one bit for each
// pair of a left and a right standing. Returns request K9's number; count (which is 0) and place go into the first two elements of `told`, as many as there is
// room for.
#[unsafe(no_mangle)]
pub extern "C" fn bradovusc_plain(sheet: &[u8], bits: &mut [u8], told: &mut [u64]) -> u32
    ensures number { result ≡ (engine sheet.now bits.old).number }
    ensures told { told.new ≡ telling_plain told.old (engine sheet.now bits.old) }
    ensures bits { bits.new ≡ (engine sheet.now bits.old).bits }
{
    c_plain::sheet(sheet, bits, told)
}

// How many bytes `bradovusc_plain` must be lent for the sheet's bits. Returns request K9's number; count (which is 0), place and the bytes go into the
// first three elements of `told`, as many as there is room for.
#[unsafe(no_mangle)]
pub extern "C" fn bradovusc_plain_bytes(sheet: &[u8], told: &mut [u64]) -> u32
    ensures number { result ≡ (needs sheet.now).number }
    ensures told { told.new ≡ telling_needs told.old (needs sheet.now) }
{
    c_plain::bytes(sheet, told)
}

// Spells a text of Full ASCII in values of Code 39. Returns request K10's number; count and place (which are 0) and written length go into the first
// three elements of `told`, as many as there is room for.
#[unsafe(no_mangle)]
pub extern "C" fn bradovusc_spell(text: &[u8], out: &mut [u8], told: &mut [u64]) -> u32
    ensures number { result ≡ (spelling_text text.now out.old).number }
    ensures told { told.new ≡ telling_spell told.old (spelling_text text.now out.old) }
    ensures out { out.new ≡ (spelling_text text.now out.old).out }
{
    c_spell::text(text, out, told)
}

// Reads a spelt text back, told alike.
#[unsafe(no_mangle)]
pub extern "C" fn bradovusc_read_spelt(spelt: &[u8], out: &mut [u8], told: &mut [u64]) -> u32
    ensures number { result ≡ (reading_spelt spelt.now out.old).number }
    ensures told { told.new ≡ telling_spell told.old (reading_spelt spelt.now out.old) }
    ensures out { out.new ≡ (reading_spelt spelt.now out.old).out }
{
    c_spell::spelt(spelt, out, told)
}

// Can it be told from the fixed fronts and ends of two sides that they never make the same label? 1 only if no texts at all make both sides the same
// label; 0 says nothing. The edition is 0 for none and 2 for Full ASCII; the sides are tokens of it, as a sheet has them.
#[unsafe(no_mangle)]
pub extern "C" fn bradovusc_fronts_differ(edition: usize, left: &[u8], right: &[u8]) -> u32
    ensures { result ≡ fronts_told edition left.now right.now }
{
    fronts_sides::fronts_differ(edition, left, right)
}

// Which version of the library it is: 10,000 times its first number, 100 times its second, and its third.
#[unsafe(no_mangle)]
pub extern "C" fn bradovusc_version() -> u32
    ensures { result ≡ version_told }
{
    c_version::version()
}
