// Reads a sheet out of an input.
ghost use Rattle.std.specs.Prelude.{◌≡◌};
ghost use Rattle.sheet.specs.Faults.{report as told};
ghost use Rattle.report.specs.Inputs.{sheet_told, input_text};
ghost use Rattle.report.specs.declared.input.Unread.TheVariants.{Faulty};

use sheet::faults::{Report, SheetFault};
use sheet::sheet::Sheet;
use std::error::Error;
use std::fmt;

/// The longest input that is looked at.
pub const LONGEST: usize = 65_536;

/// Why an input is no sheet.
#[derive(Clone, Copy, Debug, PartialEq, Eq)]
pub enum Unread {
    /// It is longer than any input that is looked at.
    TooLong,
    /// Its bytes have this fault.
    Faulty(Report),
}

impl From<SheetFault> for Unread {
    ghost from_gives = { λ fault r. r ≡ Faulty (told fault) };

    fn from(fault: SheetFault) -> Unread {
        Unread::Faulty(fault.report())
    }
}

impl fmt::Display for Unread {
    fn fmt<W: fmt::Write>(&self, f: &mut fmt::Formatter<W>) -> fmt::Result {
        match self {
            Unread::TooLong => write!(f, "too long"),
            Unread::Faulty(report) => write!(f, "{report}"),
        }
    }
}

impl Error for Unread {}

/// The sheet that an input says.
pub fn read_input(bytes: &[u8]) -> Result<Sheet, Unread>
    ensures { sheet_told result ≡ input_text bytes.now }
{
    if bytes.len() > LONGEST {
        return Err(Unread::TooLong);
    }
    let mut sheet = Sheet::blank();
    sheet.read(bytes)?;
    Ok(sheet)
}

/// What is told of an input: what its sheet comes to, or why it says none.
#[derive(Clone, Copy, Debug)]
pub struct Told<T>(pub Result<T, Unread>);

impl<T: fmt::Display> fmt::Display for Told<T> {
    fn fmt<W: fmt::Write>(&self, f: &mut fmt::Formatter<W>) -> fmt::Result {
        match &self.0 {
            Ok(told) => write!(f, "{told}"),
            Err(unread) => write!(f, "{unread}"),
        }
    }
}
