// How a sheet settles.
ghost use Rattle.std.specs.Prelude.{◌≡◌};
ghost use Rattle.sheet.specs.Says.{text};
ghost use Rattle.report.specs.Inputs.{come_to};
ghost use Rattle.report.specs.Settlements.{settlement_of};

use crate::input::{Unread, read_input};
use matching::Farm;
use sheet::sheet::Sheet;
use std::fmt;

// Kept: bytes, as they are printed, and no `Settled` of the library, which says nothing of how many workers there are.
/// How many workers a sheet has, in how many rounds it settles, and the tenant of each worker then, 255 for none.
#[derive(Clone, Copy, Debug, PartialEq, Eq)]
pub struct Settlement {
    pub workers: u8,
    pub rounds: u16,
    pub places: [u8; 64],
}

impl Settlement {
    /// How a sheet settles.
    fn of(sheet: &Sheet) -> Settlement
        ensures { result ≡ settlement_of (text sheet.now) }
    {
        let lists = sheet.lists();
        let policy = sheet.policy();
        // Kept: a farm lends the lists and the policy that stand here.
        let found = Farm {
            lists: &lists,
            policy: &policy,
        }
        .settle();
        let places = found.placement.places;
        Settlement {
            workers: lists.workers(),
            rounds: found.rounds,
            places,
        }
    }
}

/// How the sheet settles that an input says.
pub fn settled(bytes: &[u8]) -> Result<Settlement, Unread>
    ensures { result ≡ come_to settlement_of bytes.now }
{
    Ok(Settlement::of(&read_input(bytes)?))
}

impl fmt::Display for Settlement {
    fn fmt<W: fmt::Write>(&self, f: &mut fmt::Formatter<W>) -> fmt::Result {
        write!(f, "rounds {}", self.rounds)?;
        for (worker, tenant) in self.places.iter().take(self.workers as usize).enumerate() {
            match tenant {
                255 => write!(f, "\nworker {worker} none")?,
                _ => write!(f, "\nworker {worker} tenant {tenant}")?,
            }
        }
        Ok(())
    }
}
