// What the laws give to whoever asks a policy, whichever policy it is.
ghost use Rattle.std.specs.Prelude.{◌≡◌, ◌+◌, ◌≤◌};
ghost use Rattle.fleet.specs.Sets.{Within, union, minus, size};
ghost use Rattle.fleet.specs.Members.{members};
ghost use Rattle.policy.specs.Laws.{both, Idempotence, PathIndependence, Consistency};

use crate::Policy;
use fleet::WorkerSet;

// Kept in the functions below: a policy, a tenant and sets side by side, since each asks for other sets, and a struct would be made for one call each.

/// Chooses out of the chosen. Nothing changes: who was chosen is chosen again.
pub fn choose_twice<P: Policy>(policy: &P, tenant: u8, of: WorkerSet) -> WorkerSet
    ensures same { members result ≡ P.Policy.chosen policy.now tenant (members of) }
    ensures law { Idempotence }
{
    let once = policy.choose(tenant, of);
    again_is_once(policy, tenant, of);
    policy.choose(tenant, once)
}

/// Chooses out of one set, and then out of the chosen and the workers of another: the same as out
/// of both at once.
pub fn choose_in_parts<P: Policy>(
    policy: &P,
    tenant: u8,
    first: WorkerSet,
    second: WorkerSet,
) -> WorkerSet
    ensures same { members result ≡ P.Policy.chosen policy.now tenant (union (members first) (members second)) }
    ensures law { PathIndependence }
{
    let once = policy.choose(tenant, first);
    parts_are_whole(policy, tenant, first, second);
    policy.choose(tenant, once.union(second))
}

/// The workers of a set whom the tenant still chooses when others come. It chooses them out of the
/// set alone too.
pub fn staying<P: Policy>(policy: &P, tenant: u8, few: WorkerSet, others: WorkerSet) -> WorkerSet
    ensures same { members result ≡ both (P.Policy.chosen policy.now tenant (union (members few) (members others))) (members few) }
    ensures alone { Within (members result) (P.Policy.chosen policy.now tenant (members few)) }
{
    let together = policy.choose(tenant, few.union(others));
    let stay = together.minus(others.minus(few));
    few_stay(policy, tenant, few, others, stay);
    stay
}

/// How many more the tenant chooses when others come; it never chooses fewer.
pub fn gain<P: Policy>(policy: &P, tenant: u8, few: WorkerSet, others: WorkerSet) -> u8
    ensures more { result + size (P.Policy.chosen policy.now tenant (members few)) ≡ size (P.Policy.chosen policy.now tenant (union (members few) (members others))) }
    ensures law { Consistency }
{
    let alone = policy.choose(tenant, few);
    let together = policy.choose(tenant, few.union(others));
    never_fewer(policy, tenant, few, others);
    together.len() - alone.len()
}

// The laws themselves. These functions do nothing: what they ensure is what holds. Kept as functions,
// so that the bodies above are proved from contracts alone.

/// Choosing out of the chosen changes nothing.
fn again_is_once<P: Policy>(policy: &P, tenant: u8, of: WorkerSet)
    ensures same { P.Policy.chosen policy.now tenant (P.Policy.chosen policy.now tenant (members of)) ≡ P.Policy.chosen policy.now tenant (members of) }
    ensures law { Idempotence }
{}

/// Choosing in parts is choosing at once.
fn parts_are_whole<P: Policy>(policy: &P, tenant: u8, first: WorkerSet, second: WorkerSet)
    ensures same { P.Policy.chosen policy.now tenant (union (P.Policy.chosen policy.now tenant (members first)) (members second)) ≡ P.Policy.chosen policy.now tenant (union (members first) (members second)) }
    ensures law { PathIndependence }
{}

/// Those chosen out of both sets who are not of the others alone are of the few, and are chosen out
/// of the few alone.
fn few_stay<P: Policy>(policy: &P, tenant: u8, few: WorkerSet, others: WorkerSet, stay: WorkerSet)
    requires { members stay ≡ minus (P.Policy.chosen policy.now tenant (union (members few) (members others))) (minus (members others) (members few)) }
    ensures same { members stay ≡ both (P.Policy.chosen policy.now tenant (union (members few) (members others))) (members few) }
    ensures alone { Within (members stay) (P.Policy.chosen policy.now tenant (members few)) }
{}

/// No fewer are chosen when others come.
fn never_fewer<P: Policy>(policy: &P, tenant: u8, few: WorkerSet, others: WorkerSet)
    ensures more { size (P.Policy.chosen policy.now tenant (members few)) ≤ size (P.Policy.chosen policy.now tenant (union (members few) (members others))) }
    ensures law { Consistency }
{}
