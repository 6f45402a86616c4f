// Which workers a tenant keeps, and whether it wants one.
ghost use Rattle.std.specs.Prelude.{◌≡◌, ◌<◌, IfSome};
ghost use Rattle.std.specs.List.{find};
ghost use Rattle.std.specs.Option.{option_map};
ghost use Rattle.fleet.specs.Sets.{insert};
ghost use Rattle.fleet.specs.Market.{staff};
ghost use Rattle.fleet.specs.Members.{members};
ghost use Rattle.matching.specs.Farms.{placed, choices};
ghost use Rattle.matching.specs.Stable.{wants as wants_at};

use crate::farm::Situation;
use fleet::WorkerSet;
use policy::Policy;

// A policy keeps its laws on sets of the workers below 64, so only what it makes of these is asked.
impl<P: Policy> Situation<'_, P> {
    // Whom the tenant would choose out of its own workers and this one.
    pub(crate) fn kept_with(&self, tenant: u8, worker: u8) -> WorkerSet
        requires { worker < 64 }
        ensures { members result ≡ choices P.chosen self.now tenant (insert (staff (placed self.now) tenant) worker) }
    {
        let asked = self.staffing.staff(tenant).with(worker);
        self.farm.policy.choose(tenant, asked)
    }

    // The first of these tenants that would choose the worker out of its own workers and this one, and
    // whom it would choose out of them.
    pub(crate) fn first_keeping(&self, worker: u8, tenants: &[u8]) -> Option<(u8, WorkerSet)>
        requires { worker < 64 }
        ensures tenant { option_map (λ r. r.0) result ≡ find (wants_at (choices P.chosen self.now) (placed self.now) worker) tenants.now }
        ensures kept { IfSome result (λ r. members r.1 ≡ choices P.chosen self.now r.0 (insert (staff (placed self.now) r.0) worker)) }
    {
        // Kept: a loop, since each tenant is asked once, for the test and for the answer.
        for tenant in tenants {
            let kept = self.kept_with(*tenant, worker);
            if kept.contains(worker) {
                return Some((*tenant, kept));
            }
        }
        None
    }

    // The first of these tenants that wants the worker.
    pub(crate) fn first_wanting(&self, worker: u8, tenants: &[u8]) -> Option<u8>
        requires { worker < 64 }
        ensures { result ≡ find (wants_at (choices P.chosen self.now) (placed self.now) worker) tenants.now }
    {
        self.first_keeping(worker, tenants)
            .map(|(tenant, _)| tenant)
    }
}
