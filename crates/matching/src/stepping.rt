// Where a worker would go next.
ghost use Rattle.std.specs.Prelude.{◌≡◌, ◌+◌, ◌≤◌, drop, Some, IfSome};
ghost use Rattle.std.specs.Option.{option_map};
ghost use Rattle.fleet.specs.Sets.{insert};
ghost use Rattle.fleet.specs.Market.{staff as staff_at};
ghost use Rattle.fleet.specs.Members.{members};
ghost use Rattle.matching.specs.Farms.{placed, choices, in_situation};
ghost use Rattle.matching.specs.Stepping.{step as step_at, put_out as defined_put_out, successor as successor_at, displacement as displacement_at};
ghost use Rattle.matching.specs.Laws.{OnePutOut};

use crate::farm::Situation;
use fleet::WorkerSet;
use policy::Policy;

impl<P: Policy> Situation<'_, P> {
    /// A worker's step: the first tenant after its own on its list that would choose the worker out
    /// of the tenant's workers and this one.
    pub fn step(&self, worker: u8) -> Option<u8>
        ensures { result ≡ in_situation P.chosen self.now step_at worker }
    {
        self.step_keeping(worker).map(|(tenant, _)| tenant)
    }

    /// A worker's successor: the worker that is put out where it steps to. At a stable placement
    /// never more than one is.
    pub fn successor(&self, worker: u8) -> Option<u8>
        ensures value { result ≡ in_situation P.chosen self.now successor_at worker }
        ensures one { in_situation P.chosen self.now OnePutOut worker }
    {
        let (tenant, kept) = self.step_keeping(worker)?;
        self.put_out(tenant, worker, kept).lowest()
    }

    /// The tenant that a worker steps to, with the worker that is put out there, if one is.
    pub fn displacement(&self, worker: u8) -> Option<(u8, u8)>
        ensures { result ≡ in_situation P.chosen self.now displacement_at worker }
    {
        let (tenant, kept) = self.step_keeping(worker)?;
        let next = self.put_out(tenant, worker, kept).lowest()?;
        Some((tenant, next))
    }

    // The tenant that a worker steps to, and whom it would choose out of its own workers and this one.
    #[inline(always)]
    fn step_keeping(&self, worker: u8) -> Option<(u8, WorkerSet)>
        ensures tenant { option_map (λ r. r.0) result ≡ in_situation P.chosen self.now step_at worker }
        ensures kept { IfSome result (λ r. members r.1 ≡ choices P.chosen self.now r.0 (insert (staff_at (placed self.now) r.0) worker)) }
    {
        if worker >= 64 {
            return None;
        }
        let list = self.farm.lists.list(worker);
        let own = list.rank(self.staffing.placement.tenant(worker));
        self.first_keeping(worker, beyond(list.as_slice(), own))
    }

    // The workers of the tenant that the worker steps to that it would let go for the worker: those
    // that are not among whom it would keep.
    fn put_out(&self, tenant: u8, worker: u8, kept: WorkerSet) -> WorkerSet
        requires step { Some tenant ≡ in_situation P.chosen self.now step_at worker }
        requires kept { members kept ≡ choices P.chosen self.now tenant (insert (staff_at (placed self.now) tenant) worker) }
        ensures { members result ≡ defined_put_out (choices P.chosen self.now) (placed self.now) tenant worker }
    {
        self.staffing.staff(tenant).minus(kept)
    }
}

// The tenants after a place on a list.
#[tactic(auto, using(std::proofs::lemmas::List::take_all, std::proofs::lemmas::List::drop_all))]
fn beyond(tenants: &[u8], place: usize) -> &[u8]
    requires { place ≤ 16 }
    ensures { result.now ≡ drop (place + 1) tenants.now }
{
    tenants.get(place + 1..).unwrap_or(&[])
}
