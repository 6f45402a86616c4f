// Layer 2: looks at what a field may hold, whatever the sheet means.
ghost use Rattle.std.specs.Prelude.{◌≡◌, ◌+◌, ◌^◌, ◌<◌, ◌≤◌, length, IfOk};
ghost use Rattle.sheet.specs.Framing.{part_of, input, place_after};
ghost use Rattle.std.specs.Option.{unwrap_or};
ghost use Rattle.sheet.specs.Fields.{table_workers as defined_table_workers, kind_due, has_length as defined_has_length, before_list as defined_before_list, list_end as defined_list_end, in_range as defined_in_range, out_of_range, repeated, list_part, content_fault, refusal, field_of, fields_of, field_due};

use crate::faults::FieldFault;
use crate::fields::{Due, Field, Kind, Size};
use crate::framing::Frame;
use crate::reader::Reader;
use policy::workers_of;

impl Due {
    /// The kind of a field with this tag, if such a field is due.
    fn kind(self, tag: u8) -> Option<Kind>
        ensures { result ≡ kind_due self tag }
    {
        // Kept: what is due is an enum that a reader's call takes, and this match says which kinds fit.
        let kind = Kind::try_from(tag).ok()?;
        match (self, kind) {
            (Due::First, Kind::Counts)
            | (Due::NextWorker, Kind::Worker)
            | (Due::Last, Kind::Quarantine) => Some(kind),
            (Due::NextTenant { lowest }, Kind::Ranked | Kind::Seated | Kind::Table)
                if tag >= lowest => { Some(kind) }
            _ => None,
        }
    }
}

impl Kind {
    /// Whether a content may be so long.
    fn has_length(self, len: usize) -> bool
        ensures { result ≡ defined_has_length self len }
    {
        match self {
            Kind::Counts => len == 2,
            Kind::Worker => matches!(len, 1..=17),
            Kind::Ranked => matches!(len, 1..=65),
            Kind::Seated => matches!(len, 9..=73),
            Kind::Table => table_workers(len).is_some(),
            Kind::Quarantine => len <= 64,
        }
    }

    /// How many numbers stand before the list.
    fn before_list(self) -> usize
        ensures { result ≡ defined_before_list self }
    {
        match self {
            Kind::Counts => 2,
            Kind::Worker | Kind::Ranked => 1,
            Kind::Seated => 9,
            Kind::Table | Kind::Quarantine => 0,
        }
    }

    /// Where the list ends in a content so long.
    pub(crate) fn list_end(self, len: usize) -> usize
        ensures value { result ≡ defined_list_end self len }
        ensures within { result ≤ len }
    {
        match self {
            Kind::Table => table_workers(len).unwrap_or(0),
            _ => len,
        }
    }

    /// Whether a number is in the range of its place in the content.
    fn in_range(self, size: Size, place: usize, number: u8) -> bool
        ensures { result ≡ defined_in_range self size place number }
    {
        match (self, place) {
            (Kind::Counts, 0) => matches!(number, 1..=64),
            (Kind::Counts, _) => matches!(number, 1..=16),
            (Kind::Worker, 0) => number < 8,
            (Kind::Worker, _) => number < size.tenants,
            (Kind::Ranked, 0) | (Kind::Seated, 0..=8) => number <= 64,
            _ => number < size.workers,
        }
    }
}

// Kept: places, since a number's range goes by its place.
/// The place in the content of the first number that is outside its range.
fn first_out_of_range(kind: Kind, size: Size, content: &[u8]) -> Option<usize>
    ensures value { result ≡ out_of_range kind size content.now }
    ensures within { unwrap_or result 0 ≤ length content.now }
{
    let end = kind.list_end(content.len());
    (0..end).find(|place| !kind.in_range(size, *place, content[*place]))
}

// Kept: a loop that marks what it has seen, since each number is looked at once so, and the search for it among those before its place takes half again as long on lists of 16.
/// The place of the first number of a list that stands there before.
fn first_repeated(list: &[u8]) -> Option<usize>
    ensures value { result ≡ repeated list.now }
    ensures within { unwrap_or result 0 ≤ length list.now }
{
    let mut seen = [false; 256];
    for (place, number) in list.iter().enumerate() {
        let number = *number as usize;
        if seen[number] {
            return Some(place);
        }
        seen[number] = true;
    }
    None
}

/// What is wrong with the content of a field of this kind: its length, then a number outside its range, then a number twice in its list.
fn check_content(kind: Kind, size: Size, frame: Frame<'_>) -> Result<(), FieldFault>
    requires { frame.at + 3 + length frame.content.now < 2 ^ 63 }
    ensures { refusal result ≡ content_fault kind size (part_of frame.entry) }
{
    let content = frame.content;
    if !kind.has_length(content.len()) {
        return Err(FieldFault::Length { at: frame.at });
    }
    if let Some(i) = first_out_of_range(kind, size, content) {
        return Err(FieldFault::Range {
            at: frame.at + 3 + i,
        });
    }
    let start = kind.before_list();
    let end = kind.list_end(content.len());
    if let Some(i) = first_repeated(&content[start..end]) {
        return Err(FieldFault::Repeat {
            at: frame.at + 3 + start + i,
        });
    }
    Ok(())
}

impl<'a> Field<'a> {
    /// The field of this kind that a frame is.
    // Kept: an arm for each tag, as a field has a case for each.
    fn new(kind: Kind, frame: Frame<'a>) -> Field<'a>
        ensures { field_of result ≡ record { kind = kind; at = frame.entry.at; content = frame.entry.content.now } }
    {
        let at = frame.at;
        let content = frame.content;
        match kind {
            Kind::Counts => Field::Counts { at, content },
            Kind::Worker => Field::Worker { at, content },
            Kind::Ranked => Field::Ranked { at, content },
            Kind::Seated => Field::Seated { at, content },
            Kind::Table => Field::Table { at, content },
            Kind::Quarantine => Field::Quarantine { at, content },
        }
    }
}

impl<'a> Reader<'a> {
    /// The field that is due here, in a sheet of this size.
    pub(crate) fn field(&mut self, due: Due, size: Size) -> Result<Field<'a>, FieldFault>
        ensures value { fields_of result ≡ field_due due size (input self.old) self.old.place }
        ensures place { self.new.place ≡ place_after (input self.old) self.old.place }
        ensures input { input self.new ≡ input self.old }
        ensures fits { IfOk (fields_of result) (λ f. f.at + 3 + length f.content < 2 ^ 63) }
    {
        let frame = self.require()?;
        let kind = due.kind(frame.tag).ok_or(FieldFault::Tag { at: frame.at })?;
        check_content(kind, size, frame)?;
        Ok(Field::new(kind, frame))
    }
}

/// How many workers a table has whose content is so long.
fn table_workers(len: usize) -> Option<usize>
    ensures value { result ≡ defined_table_workers len }
    ensures within { unwrap_or result 0 ≤ len }
{
    let workers = workers_of(u16::try_from(len).ok()?)?;
    Some(usize::from(workers))
}
