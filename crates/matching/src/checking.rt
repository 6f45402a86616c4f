// Checking a placement.
ghost use Rattle.std.specs.Prelude.{◌≡◌, ℕ, ◌<◌, ◌≤◌, ◌↔◌, length, take};
ghost use Rattle.std.specs.List.{find};
ghost use Rattle.fleet.specs.Sets.{lowest};
ghost use Rattle.fleet.specs.Lists.{market};
ghost use Rattle.matching.specs.Entries.{place};
ghost use Rattle.matching.specs.Farms.{on_farm, placed, market_in, choices, in_situation};
ghost use Rattle.matching.specs.Stable.{Stable};
ghost use Rattle.matching.specs.Checking.{placed_by, FindsLowest, unlisted as unlisted_at, unlisted_worker, unchosen as unchosen_at, unacceptable_tenant, blocks, blocking_pair, numbers_of, faulty, told, verdict as verdict_on};
ghost use Rattle.matching.specs.Laws.{LatticeLaws};
ghost use Rattle.matching.specs.declared.checking.Fault.TheVariants.{Unlisted, Unchosen, Blocking};

use crate::farm::{Farm, Situation};
use crate::placement::Placement;
use crate::staffing::Staffing;
use fleet::Lists;
use policy::Policy;

// Why a placement is not stable, with the worker and the tenant in question.
#[derive(Clone, Copy)]
enum Fault {
    // The worker's tenant is not on its list.
    Unlisted { worker: u8, tenant: u8 },
    // The tenant does not choose the worker out of its workers.
    Unchosen { worker: u8, tenant: u8 },
    // The worker and the tenant would both rather have each other.
    Blocking { worker: u8, tenant: u8 },
}

impl Fault {
    // The fault as its number, the worker and the tenant.
    fn numbers(self) -> (u8, u8, u8)
        ensures { result ≡ numbers_of self }
    {
        match self {
            Fault::Unlisted { worker, tenant } => (30, worker, tenant),
            Fault::Unchosen { worker, tenant } => (31, worker, tenant),
            Fault::Blocking { worker, tenant } => (32, worker, tenant),
        }
    }
}

impl<P: Policy> Farm<'_, P> {
    /// Checks a placement, where byte w is the tenant of worker w, 255 for none, and no byte past
    /// the workers is read. Stable is (0, 0, 0); else there are a number, a worker and a tenant:
    /// 30, the lowest worker whose tenant is not on its list, and its byte;
    /// 31, the lowest tenant whose workers are not acceptable, with the lowest worker not chosen;
    /// 32, the blocking pair of the lowest worker, first on its list; in this order.
    // Kept: plain numbers, which callers take apart; inside, the fault is an enum.
    pub fn check(&self, places: &[u8; 64]) -> (u8, u8, u8)
        ensures verdict { result ≡ on_farm P.chosen self.now verdict_on (placed_by (market self.now.lists.now) places.now) }
        ensures stable { (result ≡ (0, 0, 0)) ↔ on_farm P.chosen self.now Stable (placed_by (market self.now.lists.now) places.now) }
        ensures lattice { on_farm P.chosen self.now LatticeLaws }
    {
        let staffing = staffing_of(self.lists, places);
        let checked = Situation {
            farm: self,
            staffing: &staffing,
        };
        match checked.verdict() {
            Ok(()) => (0, 0, 0),
            Err(fault) => fault.numbers(),
        }
    }
}

// The placement that bytes give the workers.
fn staffing_of(lists: &Lists, places: &[u8; 64]) -> Staffing
    ensures { place result.placement.places ≡ placed_by (market lists.now) places.now }
{
    let workers = lists.workers() as usize;
    let mut own = [255; 64];
    own[..workers].copy_from_slice(&places[..workers]);
    Staffing::new(Placement { places: own })
}

// The lowest number below a count for which something is found, and what is found.
fn lowest_with<F: Fn(u8) -> Option<u8>>(count: u8, found: F) -> Option<(u8, u8)>
    requires { (n : ℕ) → n < count → F.pre found n }
    ensures { FindsLowest (F.post found) count result }
{
    // Kept: a loop, since `find_map` would ask that `found` may be called at any number, and not only at those below the count.
    for n in 0..count {
        if let Some(a) = found(n) {
            return Some((n, a));
        }
    }
    None
}

impl<P: Policy> Situation<'_, P> {
    // Is the placement stable? Its first fault, where it is not.
    fn verdict(&self) -> Result<(), Fault>
        ensures { told result ≡ in_situation P.chosen self.now verdict_on }
    {
        self.all_listed()?;
        self.all_acceptable()?;
        self.none_blocks()
    }

    // Is each worker's tenant on its list? Else the lowest worker whose tenant is not.
    fn all_listed(&self) -> Result<(), Fault>
        ensures { result ≡ faulty (λ w t. Unlisted w t) (unlisted_worker (market_in self.now) (placed self.now)) }
    {
        match lowest_with(self.farm.lists.workers(), |worker| self.unlisted(worker)) {
            Some((worker, tenant)) => Err(Fault::Unlisted { worker, tenant }),
            None => Ok(()),
        }
    }

    // The tenant of a worker, if it is not on the worker's list.
    fn unlisted(&self, worker: u8) -> Option<u8>
        ensures { result ≡ unlisted_at (market_in self.now) (placed self.now) worker }
    {
        let tenant = self.staffing.placement.tenant(worker);
        if tenant == 255 || self.farm.lists.list(worker).contains(tenant) {
            None
        } else {
            Some(tenant)
        }
    }

    // Are each tenant's workers acceptable? Else the lowest tenant whose workers are not, and the
    // lowest worker that it does not choose.
    fn all_acceptable(&self) -> Result<(), Fault>
        ensures { result ≡ faulty (λ t w. Unchosen w t) (in_situation P.chosen self.now unacceptable_tenant) }
    {
        match lowest_with(self.farm.lists.tenants(), |tenant| self.unchosen(tenant)) {
            Some((tenant, worker)) => Err(Fault::Unchosen { worker, tenant }),
            None => Ok(()),
        }
    }

    // The lowest of a tenant's workers that it does not choose out of them. Kept: a bound, since the
    // staffs are those of 16 tenants.
    fn unchosen(&self, tenant: u8) -> Option<u8>
        requires { tenant < 16 }
        ensures { result ≡ lowest 64 (unchosen_at (choices P.chosen self.now) (placed self.now) tenant) }
    {
        self.farm
            .unchosen(tenant, self.staffing.staff(tenant))
            .lowest()
    }

    // Does no pair block? Else the lowest worker with a pair that does, and the first such tenant
    // on its list.
    fn none_blocks(&self) -> Result<(), Fault>
        ensures { result ≡ faulty (λ w t. Blocking w t) (in_situation P.chosen self.now blocking_pair) }
    {
        match lowest_with(self.farm.lists.workers(), |worker| self.blocking(worker)) {
            Some((worker, tenant)) => Err(Fault::Blocking { worker, tenant }),
            None => Ok(()),
        }
    }

    // The first tenant on a worker's list with which it blocks. Kept: a worker below 64, as where a
    // policy is asked.
    fn blocking(&self, worker: u8) -> Option<u8>
        requires { worker < 64 }
        ensures { result ≡ find (in_situation P.chosen self.now blocks worker) ((market_in self.now).list worker) }
    {
        let list = self.farm.lists.list(worker);
        let own = list.rank(self.staffing.placement.tenant(worker));
        self.first_wanting(worker, up_to(list.as_slice(), own))
    }
}

// The tenants before a place on a list.
fn up_to(tenants: &[u8], place: usize) -> &[u8]
    requires { place ≤ length tenants.now }
    ensures { result.now ≡ take place tenants.now }
{
    &tenants[..place]
}
