// The kinds of event, by name and by number.
ghost use Rattle.std.specs.Prelude.{◌≡◌};
ghost use Rattle.fleet.specs.Kinds.{kind_number, KindOf};

use crate::Event;
use std::error::Error;
use std::fmt;

/// What an event says of its worker.
#[derive(Clone, Copy, Debug, PartialEq, Eq)]
pub enum EventKind {
    /// It is to go on: its rotation is drained.
    Drain = 1,
    /// It moved on.
    Move = 2,
    /// It was taken back.
    Back = 3,
    /// It returned to where it was settled.
    Rewind = 4,
}

/// A number that is no kind of event.
#[derive(Clone, Copy, Debug, PartialEq, Eq)]
pub struct UnknownKind(pub u8);

impl EventKind {
    /// The number of the kind, 1 to 4.
    pub fn number(self) -> u8
        ensures { result ≡ kind_number self }
    {
        self as u8
    }
}

impl TryFrom<u8> for EventKind {
    type Error = UnknownKind;

    ghost try_from_gives = { KindOf };

    fn try_from(number: u8) -> Result<EventKind, UnknownKind> {
        match number {
            1 => Ok(EventKind::Drain),
            2 => Ok(EventKind::Move),
            3 => Ok(EventKind::Back),
            4 => Ok(EventKind::Rewind),
            _ => Err(UnknownKind(number)),
        }
    }
}

impl fmt::Display for EventKind {
    fn fmt<W: fmt::Write>(&self, f: &mut fmt::Formatter<W>) -> fmt::Result {
        f.write_str(match self {
            EventKind::Drain => "drain",
            EventKind::Move => "move",
            EventKind::Back => "back",
            EventKind::Rewind => "rewind",
        })
    }
}

impl fmt::Display for UnknownKind {
    fn fmt<W: fmt::Write>(&self, f: &mut fmt::Formatter<W>) -> fmt::Result {
        write!(f, "kind {}", self.0)
    }
}

impl Error for UnknownKind {}

impl fmt::Display for Event {
    fn fmt<W: fmt::Write>(&self, f: &mut fmt::Formatter<W>) -> fmt::Result {
        let Event {
            number,
            kind,
            worker,
            from,
            to,
        } = self;
        write!(f, "event {number} ")?;
        match EventKind::try_from(*kind) {
            Ok(kind) => write!(f, "{kind}")?,
            Err(unknown) => write!(f, "{unknown}")?,
        }
        write!(f, " worker {worker} from {from} to {to}")
    }
}
