// Tenants that choose the first so many workers of their lists.
ghost use Rattle.std.specs.Prelude.{◌≤◌};

use crate::roster::Roster;
use fleet::Ranking;

/// A tenant's cap, and its list of workers, best first.
#[derive(Clone, Copy)]
pub struct RankedTenant {
    pub(crate) cap: u8,
    pub(crate) list: Ranking<64>,
    ghost capped: { cap ≤ 64 },
}

/// The policy of up to sixteen tenants, each of which chooses the first so many workers of its list
/// that are in the set.
pub type Ranked = Roster<RankedTenant>;
