// Policies: what each tenant chooses out of a set of workers, and the laws that every choice keeps.
#![tactic(auto)]

ghost use Rattle.std.specs.Prelude.{◌≡◌, ℕ};
ghost use Rattle.fleet.specs.Sets.{Set};
ghost use Rattle.fleet.specs.Members.{members};
ghost use Rattle.policy.specs.Choice.{KeepsLaws};

pub mod combined;
pub mod fault;
mod faults;
pub mod laws;
pub mod ranked;
mod ranked_policy;
pub mod refusal;
pub mod roster;
mod rosters;
pub mod seated;
mod seated_policy;
pub mod table;
mod table_policy;
mod table_search;
pub mod tenant;

pub use combined::{Pair, Quarantine};
pub use fault::{TableFault, TableLaw};
use fleet::WorkerSet;
pub use ranked::{Ranked, RankedTenant};
pub use refusal::PolicyRefusal;
pub use roster::Roster;
pub use seated::{Classes, Seated, SeatedTenant};
pub use table::{Table, TableTenant};
pub use table_search::workers_of;
pub use tenant::Tenant;

/// What each tenant chooses out of a set of workers.
pub trait Policy {
    ghost tenants: { Self → ℕ };

    ghost chosen: { Self → ℕ → Set → Set };

    /// How many tenants there are, at most 16.
    fn count(&self) -> u8
        ensures { result ≡ tenants self.now };

    /// The workers that the tenant chooses out of the set, nobody at or past the count.
    fn choose(&self, tenant: u8, of: WorkerSet) -> WorkerSet
        ensures { members result ≡ chosen self.now tenant (members of) };

    ghost lawful: { (p : Self) → KeepsLaws (tenants p) (chosen p) };
}
