// Tenants with an overall cap, and a cap for each class of workers.
ghost use Rattle.std.specs.Prelude.{◌≡◌, ℕ, ◌<◌, ◌≤◌, length, slice_index};

use crate::roster::Roster;
use fleet::Ranking;

/// A tenant's overall cap, its caps for the eight classes, and its list of workers, best first.
#[derive(Clone, Copy)]
pub struct SeatedTenant {
    pub(crate) overall: u8,
    pub(crate) caps: [u8; 8],
    pub(crate) list: Ranking<64>,
    ghost capped: { overall ≤ 64 },
    ghost eight: { length caps ≡ 8 },
    ghost each: { (c : ℕ) → slice_index caps c ≤ 64 },
}

/// The classes of the workers, by worker number.
#[derive(Clone, Copy)]
pub struct Classes {
    pub(crate) classes: [u8; 64],
    ghost workers: { length classes ≡ 64 },
    ghost known: { (w : ℕ) → slice_index classes w < 8 },
}

/// The policy of up to sixteen tenants, each of which walks down its list and takes a worker of the
/// set if it has fewer than its overall cap, and fewer of the worker's class than the class's cap.
pub type Seated = Roster<SeatedTenant, Classes>;
