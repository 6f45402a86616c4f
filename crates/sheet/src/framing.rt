// Layer 1: cuts the bytes of a sheet into fields, whatever they mean.
ghost use Rattle.std.specs.Prelude.{◌≡◌, ◌+◌, ◌^◌, ◌<◌, length, IfSome, IfOk};
ghost use Rattle.sheet.specs.Framing.{input, found, handed, required, frame_at, place_after};
ghost use Rattle.sheet.specs.Laws.{FieldsAreTheBytes};

use crate::faults::FramingFault;
pub use crate::frame::Frame;
use crate::reader::Reader;

impl<'a> Reader<'a> {
    /// A reader at the first byte.
    pub fn new(bytes: &'a [u8]) -> Reader<'a>
        ensures input { input result ≡ bytes.now }
        ensures place { result.place ≡ 0 }
        ensures whole { FieldsAreTheBytes bytes.now }
    {
        Reader { bytes, place: 0 }
    }

    /// The offset that the reader has come to.
    pub fn place(&self) -> usize
        ensures { result ≡ self.now.place }
    {
        self.place
    }

    /// The next field, or none at the end of the input. A faulty field is not passed over.
    pub fn next(&mut self) -> Result<Option<Frame<'a>>, FramingFault>
        ensures value { found result ≡ frame_at (input self.old) self.old.place }
        ensures place { self.new.place ≡ place_after (input self.old) self.old.place }
        ensures input { input self.new ≡ input self.old }
        ensures fits { IfOk result (λ o. IfSome o (λ f. f.at + 3 + length f.content.now < 2 ^ 63)) }
    {
        let at = self.place;
        let bytes = self.bytes;
        match &bytes[at..] {
            [] => Ok(None),
            [tag, low, high, rest @ ..] => {
                let size = usize::from(u16::from_le_bytes([*low, *high]));
                let content = rest.get(..size).ok_or(FramingFault { at })?;
                self.place = at + 3 + size;
                Ok(Some(Frame {
                    tag: *tag,
                    at,
                    content,
                }))
            }
            _ => Err(FramingFault { at }),
        }
    }

    /// The field that has to be here; the end of the input is one that is cut off.
    pub(crate) fn require(&mut self) -> Result<Frame<'a>, FramingFault>
        ensures value { handed result ≡ required self.old.place (frame_at (input self.old) self.old.place) }
        ensures place { self.new.place ≡ place_after (input self.old) self.old.place }
        ensures input { input self.new ≡ input self.old }
        ensures fits { IfOk result (λ f. f.at + 3 + length f.content.now < 2 ^ 63) }
    {
        let at = self.place;
        self.next()?.ok_or(FramingFault { at })
    }
}
