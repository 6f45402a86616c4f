// Tenants whose choices are written down.
ghost use Rattle.std.specs.Prelude.{◌≡◌, ◌^◌, ◌≤◌, false, length, take, is_some};
ghost use Rattle.fleet.specs.Rankings.{listed};
ghost use Rattle.policy.specs.Faults.{table_fault};

use crate::roster::Roster;
use fleet::Ranking;

// Kept: room for the entries of eight workers, and no length beside it, since the workers tell how many entries there are.
/// A tenant's few workers, and for each set of them the chosen ones. Bit i of an entry's index says
/// that the i-th worker is in the set, and bit i of the entry that it is chosen.
#[derive(Clone, Copy)]
pub struct TableTenant {
    pub(crate) workers: Ranking<64>,
    pub(crate) entries: [u8; 256],
    ghost few: { length (listed workers) ≤ 8 },
    ghost room: { length entries ≡ 256 },
    ghost sound: { is_some (table_fault (listed workers) (take (2 ^ length (listed workers)) entries)) ≡ false },
}

/// The policy of up to sixteen tenants, each of which chooses as its table says.
pub type Table = Roster<TableTenant>;
