// Reads the events of a journal one after the other.
ghost use Rattle.std.specs.Prelude.{◌≡◌, ◌+◌, ◌^◌, ◌<◌, length};
ghost use Rattle.sheet.specs.Framing.{part_of};
ghost use Rattle.journal.specs.Reading.{event_in as defined_event_in, event_at, next_place, journal_of, stands_at};
ghost use Rattle.journal.specs.Laws.{ReadIsWritten, ReadingLaw};

use crate::events::{event_of, first_outside};
use crate::fault::JournalFault;
use fleet::Event;
use sheet::framing::Frame;
use sheet::reader::Reader;

/// Walks over the bytes of a journal, event by event.
#[derive(Clone, Copy)]
pub struct EventReader<'a> {
    pub(crate) fields: Reader<'a>,
}

/// The event that a field says.
fn event_in(field: Frame<'_>) -> Result<Event, JournalFault>
    requires { field.at + 3 + length field.content.now < 2 ^ 63 }
    ensures { result ≡ defined_event_in (part_of field.entry) }
{
    let at = field.at;
    // Kept: a journal has one tag, a number of its format, and an enum of one case would say no more.
    if field.tag != 7 {
        return Err(JournalFault::Tag { at });
    }
    if field.content.len() != 12 {
        return Err(JournalFault::Length { at });
    }
    let event = event_of(field.content);
    match first_outside(event) {
        Some(offset) => Err(JournalFault::Range { at: at + offset }),
        None => Ok(event),
    }
}

impl<'a> EventReader<'a> {
    /// A reader at the first byte.
    pub fn new(bytes: &'a [u8]) -> EventReader<'a>
        ensures input { journal_of result ≡ bytes.now }
        ensures place { stands_at result ≡ 0 }
        ensures law { ReadingLaw bytes.now }
    {
        EventReader {
            fields: Reader::new(bytes),
        }
    }

    /// The offset that the reader has come to.
    pub fn place(&self) -> usize
        ensures { result ≡ stands_at self.now }
    {
        self.fields.place()
    }

    /// The next event, or none at the end of the journal. At the end and at a fault the reader stays where it is.
    pub fn next(&mut self) -> Result<Option<Event>, JournalFault>
        ensures value { result ≡ event_at (journal_of self.old) (stands_at self.old) }
        ensures place { stands_at self.new ≡ next_place (journal_of self.old) (stands_at self.old) }
        ensures input { journal_of self.new ≡ journal_of self.old }
        ensures again { ReadIsWritten (journal_of self.old) (stands_at self.old) }
    {
        let mut fields = self.fields;
        let Some(field) = fields.next()? else {
            return Ok(None);
        };
        let event = event_in(field)?;
        self.fields = fields;
        Ok(Some(event))
    }
}
