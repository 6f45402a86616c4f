// Walking along the successors of a situation.
ghost use Rattle.std.specs.Prelude.{◌≡◌, ℕ, true, length};
ghost use Rattle.fleet.specs.Members.{members};
ghost use Rattle.matching.specs.Farms.{in_situation};
ghost use Rattle.matching.specs.Stepping.{displacement};
ghost use Rattle.rotation.specs.Walking.{noted};

use fleet::WorkerSet;
use matching::{Placement, Situation};
use policy::Policy;

// A situation, and what is known already of the workers that were seen in it: where each steps to,
// as a placement since a rotation's moves lead to one, and its successor. That the situation stays is
// said by each method, as it is a fact of two states.
#[derive(Drop)]
pub(crate) struct Walker<'a, P: Policy> {
    pub(crate) situation: &'a Situation<'a, P>,
    pub(crate) seen: WorkerSet,
    pub(crate) to: Placement,
    pub(crate) next: [Option<u8>; 64],
    ghost long: { length next ≡ 64 },
    ghost right: { (v : ℕ) → members seen v ≡ true → noted to.places next v ≡ in_situation P.chosen situation.now displacement v },
}
