// Settling, round by round.
ghost use Rattle.std.specs.Prelude.{◌≡◌, ℕ, ◌+◌, ◌<◌, ◌≤◌, true, length, if◌then◌else◌, is_some, slice_index, slice_set};
ghost use Rattle.fleet.specs.Lists.{market};
ghost use Rattle.fleet.specs.Sets.{minus, lowest};
ghost use Rattle.fleet.specs.Members.{members};
ghost use Rattle.matching.specs.Entries.{place, tabulate};
ghost use Rattle.matching.specs.Farms.{on_farm};
ghost use Rattle.matching.specs.Stable.{Stable, WorkerBest};
ghost use Rattle.matching.specs.Settling.{stands as stands_at, away as away_at, pairs, settled_placement, settled_rounds, Content};

use crate::farm::Farm;
use crate::placement::Placement;
use crate::staffing::Staffing;
use fleet::WorkerSet;
use policy::Policy;

/// Where a farm settles: the placement, and how many rounds there were, the last among them.
#[derive(Clone, Copy, Debug, PartialEq, Eq)]
pub struct Settled {
    pub placement: Placement,
    pub rounds: u16,
}

impl<P: Policy> Farm<'_, P> {
    /// Settles: in each round every worker stands at its best open tenant and the pairs of those
    /// that are not chosen are closed, until none is. No worker does better in another stable
    /// placement.
    pub fn settle(&self) -> Settled
        ensures placed { result.placement.places ≡ tabulate 64 (on_farm P.chosen self.now settled_placement) }
        ensures rounds { result.rounds ≡ on_farm P.chosen self.now settled_rounds }
        ensures stable { on_farm P.chosen self.now Stable (place result.placement.places) }
        ensures best { on_farm P.chosen self.now WorkerBest (place result.placement.places) }
        ensures few { result.rounds ≤ 1 + pairs (market self.now.lists.now) }
    {
        let (placement, closing) = self.closing_rounds();
        Settled {
            placement,
            rounds: closing + 1,
        }
    }

    // The placement of the last round, and how many rounds closed a pair before it.
    fn closing_rounds(&self) -> (Placement, u16)
        ensures placed { result.0.places ≡ tabulate 64 (on_farm P.chosen self.now settled_placement) }
        ensures rounds { result.1 + 1 ≡ on_farm P.chosen self.now settled_rounds }
        ensures few { result.1 ≤ 1024 }
    {
        let mut closed = [0u8; 64];
        let mut staffing = Staffing::new(self.standing(&closed));
        let mut accepted = [WorkerSet::empty(); 16];
        // Kept: the rounds are counted beside the loop, since their count is part of the answer.
        let mut closing = 0u16;
        'rounds: loop {
            let away = self.turned_away(&staffing, &mut accepted);
            if !is_anyone(away) {
                return (staffing.placement, closing);
            }
            self.close(&mut closed, &mut staffing, away);
            closing += 1;
        }
    }

    // Where a worker stands once so many of its pairs are closed.
    fn stands(&self, closed: &[u8; 64], worker: u8) -> u8
        requires { worker < 64 }
        ensures { result ≡ stands_at (market self.now.lists.now) closed.now worker }
    {
        let place = closed[worker as usize];
        self.lists.list(worker).get(place as usize).unwrap_or(255)
    }

    // Where the workers stand once so many of their pairs are closed.
    fn standing(&self, closed: &[u8; 64]) -> Placement
        ensures { place result.places ≡ stands_at (market self.now.lists.now) closed.now }
    {
        let mut places = [255; 64];
        let workers = self.lists.workers() as usize;
        for (w, place) in places[..workers].iter_mut().enumerate() {
            *place = self.stands(closed, w as u8);
        }
        Placement { places }
    }

    // Those of a tenant's workers that it does not choose out of them.
    pub(crate) fn unchosen(&self, tenant: u8, staff: WorkerSet) -> WorkerSet
        ensures { members result ≡ minus (members staff) (P.chosen self.now.policy.now tenant (members staff)) }
    {
        staff.minus(self.policy.choose(tenant, staff))
    }

    // The workers that their tenants do not choose. Only tenants that have others than those they
    // kept last are asked: they would choose those again.
    fn turned_away(&self, staffing: &Staffing, accepted: &mut [WorkerSet; 16]) -> WorkerSet
        requires { Content (P.chosen self.now.policy.now) accepted.old }
        ensures away { members result ≡ away_at (P.chosen self.now.policy.now) (place staffing.now.placement.places) 16 }
        ensures content { Content (P.chosen self.now.policy.now) accepted.new }
    {
        let mut away = WorkerSet::empty();
        for (tenant, kept) in accepted.iter_mut().enumerate() {
            let staff = staffing.staff(tenant as u8);
            if staff != *kept {
                let out = self.unchosen(tenant as u8, staff);
                *kept = staff.minus(out);
                away = away.union(out);
            }
        }
        away
    }

    // Closes the first open pair of each of these workers, and has them stand at the next.
    fn close(&self, closed: &mut [u8; 64], staffing: &mut Staffing, away: WorkerSet)
        requires open { (w : ℕ) → members away w ≡ true → slice_index closed.old w < length ((market self.now.lists.now).list w) }
        requires standing { place staffing.old.placement.places ≡ stands_at (market self.now.lists.now) closed.old }
        ensures closed { closed.new ≡ tabulate 64 (λ w. slice_index closed.old w + (if members away w then 1 else 0)) }
        ensures standing { place staffing.new.placement.places ≡ stands_at (market self.now.lists.now) closed.new }
    {
        for w in away.iter() {
            self.close_one(closed, staffing, w);
        }
    }

    // Closes the first open pair of a worker, and has it stand at the next.
    fn close_one(&self, closed: &mut [u8; 64], staffing: &mut Staffing, worker: u8)
        requires known { worker < 64 }
        requires few { slice_index closed.old worker < 16 }
        requires standing { place staffing.old.placement.places ≡ stands_at (market self.now.lists.now) closed.old }
        ensures closed { closed.new ≡ slice_set closed.old worker (slice_index closed.old worker + 1) }
        ensures standing { place staffing.new.placement.places ≡ stands_at (market self.now.lists.now) closed.new }
    {
        closed[worker as usize] += 1;
        staffing.put(worker, self.stands(closed, worker));
    }
}

// Is anyone among the workers?
fn is_anyone(workers: WorkerSet) -> bool
    ensures { result ≡ is_some (lowest 64 (members workers)) }
{
    workers.lowest().is_some()
}
