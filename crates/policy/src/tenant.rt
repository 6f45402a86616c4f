// What a tenant of a roster is.
ghost use Rattle.std.specs.Prelude.{◌≡◌};
ghost use Rattle.fleet.specs.Sets.{Set, nobody};
ghost use Rattle.fleet.specs.Members.{members};
ghost use Rattle.policy.specs.Choice.{Choice, Lawful};

use fleet::WorkerSet;

/// A tenant of a roster. It chooses out of a set of workers by a rule of its own, and by what all
/// tenants of the roster have in common.
pub trait Tenant: Copy {
    /// What the tenants of a roster have in common.
    type Common: Copy;

    ghost Rule: { Type 0 };

    ghost rule: { Self → Rule };

    ghost choice: { Self.Common → Rule → Choice };

    /// A tenant that chooses nobody. It stands in the places of a roster where there is no tenant
    /// yet.
    fn blank() -> Self
        ensures { (c : Self.Common) (Z : Set) → choice c (rule result) Z ≡ nobody };

    /// The workers that the tenant chooses out of the set.
    fn choose(&self, common: &Self::Common, of: WorkerSet) -> WorkerSet
        ensures { members result ≡ choice common.now (rule self.now) (members of) };

    ghost lawful: { (c : Self.Common) (t : Self) → Lawful (choice c (rule t)) };
}
