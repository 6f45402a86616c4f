// Finding rotations.
ghost use Rattle.std.specs.Prelude.{◌≡◌, ◌≤◌, ◌↔◌, None};
ghost use Rattle.fleet.specs.Sets.{lowest};
ghost use Rattle.matching.specs.Farms.{market_in, in_situation};
ghost use Rattle.matching.specs.Stable.{Stable, TenantBest};
ghost use Rattle.rotation.specs.Moves.{rotation_at, on_rotation};
ghost use Rattle.rotation.specs.Listing.{shown};
ghost use Rattle.rotation.specs.Laws.{FindsRotation, RotationLaws};

use crate::move_list::MoveList;
use crate::walker::Walker;
use matching::Situation;
use policy::Policy;

/// The rotation of a worker: the moves, by rising worker number, of all that follow it along the
/// successors, each to its step, if the successors lead back to the worker.
pub fn rotation_of<P: Policy>(situation: &Situation<'_, P>, worker: u8) -> Option<MoveList>
    ensures moves { shown result ≡ in_situation P.chosen situation.now rotation_at worker }
    ensures found { in_situation P.chosen situation.now FindsRotation worker (shown result) }
    ensures laws { in_situation P.chosen situation.now Stable → in_situation P.chosen situation.now RotationLaws }
{
    Walker::new(situation).rotation(worker)
}

/// The lowest worker that is on a rotation. At a stable placement there is none exactly where the
/// placement is best for all tenants.
pub fn lowest_on_rotation<P: Policy>(situation: &Situation<'_, P>) -> Option<u8>
    ensures lowest { result ≡ lowest (market_in situation.now).workers (in_situation P.chosen situation.now on_rotation) }
    ensures best { in_situation P.chosen situation.now Stable → (result ≡ None) ↔ in_situation P.chosen situation.now TenantBest }
{
    lowest_below(situation, situation.farm.lists.workers())
}

// The lowest worker below a count that is on a rotation.
fn lowest_below<P: Policy>(situation: &Situation<'_, P>, count: u8) -> Option<u8>
    requires { count ≤ 64 }
    ensures lowest { result ≡ lowest count (in_situation P.chosen situation.now on_rotation) }
    ensures best { count ≡ (market_in situation.now).workers → in_situation P.chosen situation.now Stable → (result ≡ None) ↔ in_situation P.chosen situation.now TenantBest }
{
    // Kept: a loop. A closure of `find` that walks would change the walker, and its contract would say nothing.
    let mut walker = Walker::new(situation);
    for worker in 0..count {
        if walker.walk(worker).is_some() {
            return Some(worker);
        }
    }
    None
}
