// A placement with the workers of each tenant.
ghost use Rattle.std.specs.Prelude.{◌≡◌, ℕ, ◌<◌, length, slice_index_or};
ghost use Rattle.fleet.specs.Market.{staff};
ghost use Rattle.fleet.specs.Members.{members};
ghost use Rattle.matching.specs.Entries.{place};
ghost use Rattle.matching.specs.Staffs.{no_workers};

use crate::placement::Placement;
use fleet::WorkerSet;

/// A placement, and for each of 16 tenants the set of its workers.
#[derive(Clone, Copy)]
pub struct Staffing {
    pub placement: Placement,
    pub staffs: [WorkerSet; 16],
    ghost tenants: { length staffs ≡ 16 },
    ghost agree: { (t w : ℕ) → t < 16 → members (slice_index_or staffs t no_workers) w ≡ staff (place placement.places) t w },
}
