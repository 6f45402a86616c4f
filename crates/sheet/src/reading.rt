// Layer 3: what the fields of a sheet say.
ghost use Rattle.std.specs.Prelude.{◌≡◌, ℕ, ◌+◌, ◌<◌, ◌≤◌, true, List, length, drop, IfOk, slice_index};
ghost use Rattle.fleet.specs.Sets.{all_under};
ghost use Rattle.fleet.specs.Lists.{market};
ghost use Rattle.fleet.specs.Rankings.{listed};
ghost use Rattle.policy.specs.Ranks.{ranks};
ghost use Rattle.policy.specs.Seats.{seats};
ghost use Rattle.policy.specs.Entries.{tables};
ghost use Rattle.sheet.specs.Sheets.{WorkerRow, is_list, good_worker};
ghost use Rattle.sheet.specs.Texts.{People};
ghost use Rattle.sheet.specs.Says.{sheet_told};
ghost use Rattle.sheet.specs.Framing.{input, place_after};
ghost use Rattle.sheet.specs.Fields.{field_of};
ghost use Rattle.sheet.specs.Reading.{size_due, worker_due, worker_told, crew_progress, read_workers as defined_read_workers, no_text, tenants_read, text_and_place, read_tenants as defined_read_tenants, rows_text, quarantine_told, quarantine_due, end_told, end_due, decode};

use crate::faults::{FieldFault, SheetFault};
use crate::fields::{Due, Field, Kind, Size};
use crate::reader::Reader;
use crate::sheet::Sheet;
use crate::tenants::Tenants;
use fleet::{Lists, Ranking};
use policy::{Ranked, Seated, Table};

// Kept: an arm for each tag in both, as a field has a case for each.
impl<'a> Field<'a> {
    /// The content of the field.
    fn content(self) -> &'a [u8]
        ensures { result.now ≡ (field_of self.entry).content }
    {
        match self {
            Field::Counts { content, .. }
            | Field::Worker { content, .. }
            | Field::Ranked { content, .. }
            | Field::Seated { content, .. }
            | Field::Table { content, .. }
            | Field::Quarantine { content, .. } => content,
        }
    }

    /// The kind of the field.
    fn kind(self) -> Kind
        ensures { result ≡ (field_of self.entry).kind }
    {
        match self {
            Field::Counts { .. } => Kind::Counts,
            Field::Worker { .. } => Kind::Worker,
            Field::Ranked { .. } => Kind::Ranked,
            Field::Seated { .. } => Kind::Seated,
            Field::Table { .. } => Kind::Table,
            Field::Quarantine { .. } => Kind::Quarantine,
        }
    }
}

/// The number at a place in a content, 0 past its end.
pub(crate) fn number(content: &[u8], place: usize) -> u8
    ensures { result ≡ slice_index content.now place }
{
    content.get(place).copied().unwrap_or(0)
}

/// What stands in a content from a place on.
pub(crate) fn rest(content: &[u8], place: usize) -> &[u8]
    ensures { result.now ≡ drop place content.now }
{
    content.get(place..).unwrap_or(&[])
}

/// The ranking of these numbers, which are different and below `N`.
pub(crate) fn ranking<const N: usize>(numbers: &[u8]) -> Ranking<N>
    ensures { is_list N numbers.now ≡ true → listed result ≡ numbers.now }
{
    Ranking::try_from(numbers).unwrap_or(Ranking::empty())
}

// The size stands beside the reader in the functions below: with both in one struct, each of them would have to promise that the size stays. That the input stays is said by each too: it is a fact of two states, which no type says.

/// How many workers and tenants the sheet has.
fn read_size(reader: &mut Reader<'_>) -> Result<Size, FieldFault>
    ensures value { result ≡ size_due (input reader.old) reader.old.place }
    ensures place { reader.new.place ≡ place_after (input reader.old) reader.old.place }
    ensures input { input reader.new ≡ input reader.old }
    ensures range { IfOk result (λ size. (1 ≤ size.workers) × (size.workers ≤ 64) × (1 ≤ size.tenants) × (size.tenants ≤ 16)) }
{
    let content = reader.field(Due::First, Size::default())?.content();
    Ok(Size {
        workers: number(content, 0),
        tenants: number(content, 1),
    })
}

/// The next worker: its class and its list.
fn read_worker(reader: &mut Reader<'_>, size: Size) -> Result<(u8, Ranking<16>), FieldFault>
    requires { size.tenants ≤ 16 }
    ensures value { worker_told result ≡ worker_due size (input reader.old) reader.old.place }
    ensures place { reader.new.place ≡ place_after (input reader.old) reader.old.place }
    ensures input { input reader.new ≡ input reader.old }
    ensures good { IfOk (worker_told result) (λ row. good_worker size.tenants row ≡ true) }
{
    let content = reader.field(Due::NextWorker, size)?.content();
    Ok((number(content, 0), ranking(rest(content, 1))))
}

/// The workers: their lists and their classes.
fn read_workers(reader: &mut Reader<'_>, size: Size) -> Result<(Lists, [u8; 64]), FieldFault>
    requires { (1 ≤ size.workers) × ((size.workers ≤ 64) × ((1 ≤ size.tenants) × (size.tenants ≤ 16))) }
    ensures value { crew_progress result reader.new.place ≡ defined_read_workers size.workers size (input reader.old) (record { place = reader.old.place; lowest = 3; text = no_text }) }
    ensures input { input reader.new ≡ input reader.old }
    ensures classes { IfOk result (λ crew. all_under 8 crew.1 ≡ true) }
    ensures idle { IfOk result (λ crew. (w : ℕ) → size.workers ≤ w → slice_index crew.1 w ≡ 0) }
    ensures counts { IfOk result (λ crew. ((market crew.0).workers ≡ size.workers) × ((market crew.0).tenants ≡ size.tenants)) }
{
    let mut classes = [0; 64];
    let mut lists = Lists::new(size.workers, size.tenants).unwrap();
    // Kept: classes are set by number, since not all are, and nothing is known afterwards of what `zip` or `take` over `iter_mut` wrote.
    for worker in 0..size.workers {
        let (class, list) = read_worker(reader, size)?;
        classes[worker as usize] = class;
        lists.set(worker, list).unwrap();
    }
    Ok((lists, classes))
}

/// The tenants, for workers of these classes.
fn read_tenants(
    reader: &mut Reader<'_>,
    size: Size,
    classes: [u8; 64],
) -> Result<Tenants, SheetFault>
    requires { (size.workers ≤ 64) × ((size.tenants ≤ 16) × (all_under 8 classes ≡ true)) }
    ensures value { (rows : List WorkerRow) → tenants_read rows result reader.new.place ≡ text_and_place (defined_read_tenants size.tenants size (input reader.old) (record { place = reader.old.place; lowest = 3; text = rows_text rows })) }
    ensures input { input reader.new ≡ input reader.old }
    ensures classes { IfOk result (λ t. t.seated.common.classes ≡ classes) }
    ensures counts { IfOk result (λ t. length (ranks t.ranked) + length (seats t.seated) + length (tables t.tables) ≡ size.tenants) }
{
    let mut tenants = Tenants {
        ranked: Ranked::empty(),
        seated: Seated::new(classes).unwrap(),
        tables: Table::empty(),
    };
    let mut lowest = 3;
    // Kept: a count, since each tenant is read from where the one before has ended.
    for number in 0..size.tenants {
        let field = reader.field(Due::NextTenant { lowest }, size)?;
        lowest = field.kind() as u8;
        tenants.add(field)?;
    }
    Ok(tenants)
}

/// The workers in quarantine.
fn read_quarantine(reader: &mut Reader<'_>, size: Size) -> Result<Ranking<64>, FieldFault>
    requires { size.workers ≤ 64 }
    ensures value { quarantine_told result ≡ quarantine_due size (input reader.old) reader.old.place }
    ensures place { reader.new.place ≡ place_after (input reader.old) reader.old.place }
    ensures input { input reader.new ≡ input reader.old }
{
    let content = reader.field(Due::Last, size)?.content();
    Ok(ranking(content))
}

/// No byte is left.
fn read_end(reader: &Reader<'_>) -> Result<(), FieldFault>
    ensures { end_told result ≡ end_due (input reader.now) reader.now.place }
{
    let at = reader.place;
    if at < reader.bytes.len() {
        return Err(FieldFault::Surplus { at });
    }
    Ok(())
}

/// The size of the sheet, the workers' lists and the tenants, from the first byte on.
fn read_people(reader: &mut Reader<'_>) -> Result<(Size, Lists, Tenants), SheetFault>
    requires { reader.old.place ≡ 0 }
    ensures value { People (input reader.old) result reader.new.place }
    ensures input { input reader.new ≡ input reader.old }
    ensures few { IfOk result (λ p. p.0.workers ≤ 64) }
    ensures idle { IfOk result (λ p. (w : ℕ) → p.1.workers ≤ w → slice_index p.2.seated.common.classes w ≡ 0) }
    ensures counts { IfOk result (λ p. p.1.tenants ≡ length (ranks p.2.ranked) + length (seats p.2.seated) + length (tables p.2.tables)) }
{
    let size = read_size(reader)?;
    let (lists, classes) = read_workers(reader, size)?;
    let tenants = read_tenants(reader, size, classes)?;
    Ok((size, lists, tenants))
}

/// The sheet that bytes say.
pub(crate) fn read_sheet(bytes: &[u8]) -> Result<Sheet, SheetFault>
    ensures { sheet_told result ≡ decode bytes.now }
{
    let mut reader = Reader::new(bytes);
    let (size, lists, tenants) = read_people(&mut reader)?;
    let quarantine = read_quarantine(&mut reader, size)?;
    read_end(&reader)?;
    Ok(Sheet {
        lists,
        tenants,
        quarantine,
    })
}
