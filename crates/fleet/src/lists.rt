// The workers' lists of tenants.
ghost use Rattle.std.specs.Prelude.{◌≡◌, ℕ, ◌<◌, ◌≤◌, true, length};
ghost use Rattle.fleet.specs.Sets.{among};
ghost use Rattle.fleet.specs.Rankings.{listed, row};

use crate::ranking::Ranking;

/// How many workers and tenants there are, and each worker's ranking of tenants.
#[derive(Clone, Copy)]
pub struct Lists {
    pub(crate) workers: u8,
    pub(crate) tenants: u8,
    pub(crate) rows: [Ranking<16>; 64],
    ghost rooms: { length rows ≡ 64 },
    ghost manned: { 1 ≤ workers },
    ghost crew: { workers ≤ 64 },
    ghost hosted: { 1 ≤ tenants },
    ghost hosts: { tenants ≤ 16 },
    ghost below: { (w t : ℕ) → among (listed (row rows w)) t ≡ true → t < tenants },
    ghost past: { (w : ℕ) → workers ≤ w → (row rows w).len ≡ 0 },
}

/// Why lists are not made, or not changed.
#[derive(Clone, Copy, PartialEq, Eq, Debug)]
pub enum ListsRefusal {
    /// There are 1 to 64 workers.
    Workers,
    /// There are 1 to 16 tenants.
    Tenants,
    /// There is no such worker.
    Worker,
    /// The ranking has a tenant that there is not.
    Tenant,
}
