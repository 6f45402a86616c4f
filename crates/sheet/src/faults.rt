// What can be wrong with the bytes of a sheet, layer by layer: each layer's fault holds that of the layer below.
ghost use Rattle.std.specs.Prelude.{◌≡◌};
ghost use Rattle.sheet.specs.Faults.{plain, field_report, report as told};
ghost use Rattle.sheet.specs.declared.faults.FieldFault.TheVariants.{Framing};
ghost use Rattle.sheet.specs.declared.faults.SheetFault.TheVariants.{Field};

use policy::fault::TableLaw;
use std::fmt;

/// A field that is due at this offset has fewer than three bytes, or its content is cut off.
#[derive(Clone, Copy, PartialEq, Eq, Debug)]
pub struct FramingFault {
    pub at: usize,
}

/// A field does not say what is due, whatever the sheet means.
#[derive(Clone, Copy, PartialEq, Eq, Debug)]
pub enum FieldFault {
    Framing(FramingFault),
    /// Its tag is not due here.
    Tag { at: usize },
    /// Its content has a length that its kind does not have.
    Length { at: usize },
    /// A number is outside its range.
    Range { at: usize },
    /// A number stands twice in a list.
    Repeat { at: usize },
    /// There are bytes after the last field.
    Surplus { at: usize },
}

/// A sheet that cannot be read.
#[derive(Clone, Copy, PartialEq, Eq, Debug)]
pub enum SheetFault {
    Field(FieldFault),
    /// A table's entry chooses somebody who is not in its set.
    Outside {
        at: usize,
    },
    /// A table's entries for a set and for a part of it break a law of choice.
    Broken {
        at: usize,
        law: TableLaw,
        whole: u8,
        part: u8,
    },
}

/// What is told of a fault: its number, its place, its layer, and two sets, 0 where there are none.
#[derive(Clone, Copy, PartialEq, Eq, Debug)]
pub struct Report {
    pub number: u8,
    pub at: usize,
    pub layer: u8,
    pub outer: u8,
    pub inner: u8,
}

impl Report {
    /// What is told of a fault without sets.
    pub fn plain(number: u8, at: usize, layer: u8) -> Report
        ensures { result ≡ plain number at layer }
    {
        Report {
            number,
            at,
            layer,
            outer: 0,
            inner: 0,
        }
    }
}

impl fmt::Display for Report {
    fn fmt<W: fmt::Write>(&self, f: &mut fmt::Formatter<W>) -> fmt::Result {
        let Report {
            number,
            at,
            layer,
            outer,
            inner,
        } = self;
        write!(
            f,
            "fault {number} at {at} layer {layer} sets {outer} {inner}"
        )
    }
}

impl SheetFault {
    /// What is told of this fault.
    pub fn report(self) -> Report
        ensures { result ≡ told self }
    {
        match self {
            SheetFault::Field(fault) => fault.report(),
            SheetFault::Outside { at } => Report::plain(20, at, 3),
            SheetFault::Broken {
                at,
                law,
                whole,
                part,
            } => Report {
                outer: whole,
                inner: part,
                ..Report::plain(law.number(), at, 3)
            },
        }
    }
}

impl FieldFault {
    fn report(self) -> Report
        ensures { result ≡ field_report self }
    {
        match self {
            FieldFault::Framing(fault) => Report::plain(10, fault.at, 1),
            FieldFault::Tag { at } => Report::plain(11, at, 2),
            FieldFault::Length { at } => Report::plain(12, at, 2),
            FieldFault::Range { at } => Report::plain(13, at, 2),
            FieldFault::Repeat { at } => Report::plain(14, at, 2),
            FieldFault::Surplus { at } => Report::plain(15, at, 2),
        }
    }
}

impl From<FramingFault> for FieldFault {
    ghost from_gives = { λ f r. r ≡ Framing f };

    fn from(fault: FramingFault) -> FieldFault {
        FieldFault::Framing(fault)
    }
}

impl From<FieldFault> for SheetFault {
    ghost from_gives = { λ f r. r ≡ Field f };

    fn from(fault: FieldFault) -> SheetFault {
        SheetFault::Field(fault)
    }
}
