// What can be wrong with the bytes of a journal.
ghost use Rattle.std.specs.Prelude.{◌≡◌};
ghost use Rattle.journal.specs.Reading.{report_of};
ghost use Rattle.journal.specs.declared.fault.JournalFault.TheVariants.{Framing};

use sheet::faults::{FramingFault, Report};

// Kept beside the faults of a sheet's fields: these have cases that no journal has.
/// A field of a journal is no event.
#[derive(Clone, Copy, PartialEq, Eq, Debug)]
pub enum JournalFault {
    /// It is cut off.
    Framing(FramingFault),
    /// Its tag is not that of an event.
    Tag { at: usize },
    /// Its content does not have the length of an event's.
    Length { at: usize },
    /// A number is outside its range.
    Range { at: usize },
}

impl JournalFault {
    /// What is told of this fault. There are no sets.
    pub fn report(self) -> Report
        ensures { result ≡ report_of self }
    {
        match self {
            JournalFault::Framing(fault) => Report::plain(10, fault.at, 1),
            JournalFault::Tag { at } => Report::plain(11, at, 2),
            JournalFault::Length { at } => Report::plain(12, at, 2),
            JournalFault::Range { at } => Report::plain(13, at, 2),
        }
    }
}

impl From<FramingFault> for JournalFault {
    ghost from_gives = { λ f r. r ≡ Framing f };

    fn from(cut: FramingFault) -> JournalFault {
        JournalFault::Framing(cut)
    }
}
