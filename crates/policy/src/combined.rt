// Policies made of other policies.
ghost use Rattle.std.specs.Prelude.{◌+◌, min};
ghost use Rattle.fleet.specs.Members.{members};
ghost use Rattle.policy.specs.Combined.{joined, quarantined};
ghost use Rattle.policy.specs.Combine.{joined_keeps, quarantined_keeps};

use crate::Policy;
use fleet::WorkerSet;

/// The tenants of the first policy, and after them those of the second, up to 16.
#[derive(Drop)]
pub struct Pair<A, B> {
    pub first: A,
    pub second: B,
}

impl<A: Policy, B: Policy> Policy for Pair<A, B> {
    ghost tenants = { λ p. min (A.Policy.tenants p.first + B.Policy.tenants p.second) 16 };

    ghost chosen = { λ p. joined (A.Policy.tenants p.first) (A.Policy.chosen p.first) (B.Policy.chosen p.second) };

    ghost lawful = { λ p. joined_keeps _ _ _ _ (A.Policy.lawful p.first) (B.Policy.lawful p.second) };

    fn count(&self) -> u8 {
        (self.first.count() + self.second.count()).min(16)
    }

    fn choose(&self, tenant: u8, of: WorkerSet) -> WorkerSet {
        let before = self.first.count();
        if tenant < before {
            self.first.choose(tenant, of)
        } else if tenant < 16 {
            self.second.choose(tenant - before, of)
        } else {
            WorkerSet::empty()
        }
    }
}

/// The policy below, put to it without the workers in quarantine.
#[derive(Drop)]
pub struct Quarantine<P> {
    pub held: WorkerSet,
    pub below: P,
}

impl<P: Policy> Policy for Quarantine<P> {
    ghost tenants = { λ p. P.Policy.tenants p.below };

    ghost chosen = { λ p. quarantined (members p.held) (P.Policy.chosen p.below) };

    ghost lawful = { λ p. quarantined_keeps (members p.held) _ _ (P.Policy.lawful p.below) };

    fn count(&self) -> u8 {
        self.below.count()
    }

    fn choose(&self, tenant: u8, of: WorkerSet) -> WorkerSet {
        self.below.choose(tenant, of.minus(self.held))
    }
}
