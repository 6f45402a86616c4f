// The faults of a table by number.
ghost use Rattle.std.specs.Prelude.{◌≡◌};
ghost use Rattle.policy.specs.Faults.{law_number, fault_number};

use crate::fault::{TableFault, TableLaw};

impl TableLaw {
    /// The number of the fault of two entries that break the law, 21 to 23.
    pub fn number(self) -> u8
        ensures { result ≡ law_number self }
    {
        self as u8
    }
}

impl TableFault {
    /// The number of the fault: 12 for a wrong length, 20 for an entry outside its index, and 21 to
    /// 23 for the laws.
    pub fn number(self) -> u8
        ensures { result ≡ fault_number self }
    {
        // Kept: the cases hold values, and two share a number, so that they can have none of their own.
        match self {
            TableFault::Workers | TableFault::Entries => 12,
            TableFault::Outside { .. } => 20,
            TableFault::Broken { law, .. } => law.number(),
        }
    }
}
