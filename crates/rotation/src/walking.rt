// Finding the successors of workers once each, and the workers of a rotation along them.
ghost use Rattle.std.specs.Prelude.{◌≡◌, ◌<◌, nat_eq, true};
ghost use Rattle.fleet.specs.Sets.{nobody, with_worker, Within};
ghost use Rattle.fleet.specs.Members.{members};
ghost use Rattle.matching.specs.Farms.{in_situation};
ghost use Rattle.matching.specs.Stepping.{successor as successor_at};
ghost use Rattle.rotation.specs.Moves.{walk as walk_at, rotation_at};
ghost use Rattle.rotation.specs.Listing.{shown};
ghost use Rattle.rotation.specs.Walking.{found_set, gathered, FoundDisplacing};

use crate::move_list::MoveList;
use crate::walker::Walker;
use fleet::WorkerSet;
use matching::{Placement, Situation};
use policy::Policy;

impl<'a, P: Policy> Walker<'a, P> {
    // Nothing is known yet.
    pub(crate) fn new(situation: &'a Situation<'a, P>) -> Walker<'a, P>
        ensures situation { result.situation ≡ situation.entry }
        ensures seen { members result.seen ≡ nobody }
    {
        Walker {
            situation,
            seen: WorkerSet::empty(),
            to: Placement::new([255; 64]),
            next: [None; 64],
        }
    }

    // A worker's successor, which is found once. Kept here and below: a worker below 64, by whom the
    // arrays are read.
    fn successor(&mut self, worker: u8) -> Option<u8>
        requires { worker < 64 }
        ensures stays { self.new.situation ≡ self.old.situation }
        ensures next { result ≡ in_situation P.chosen self.old.situation.now successor_at worker }
        ensures more { Within (members self.old.seen) (members self.new.seen) }
        ensures here { members self.new.seen worker ≡ true }
    {
        if !self.seen.contains(worker) {
            self.learn(worker);
        }
        self.next[worker as usize]
    }

    // Finds the step and the successor of a worker, and notes them.
    fn learn(&mut self, worker: u8)
        requires { worker < 64 }
        ensures stays { self.new.situation ≡ self.old.situation }
        ensures seen { members self.new.seen ≡ with_worker (members self.old.seen) worker }
    {
        let (to, next) = self.situation.displacement(worker).unzip();
        self.to.places[worker as usize] = to.unwrap_or(255);
        self.next[worker as usize] = next;
        self.seen = self.seen.with(worker);
    }

    // The workers from this one on along the successors, if they lead back to it.
    pub(crate) fn walk(&mut self, worker: u8) -> Option<WorkerSet>
        requires { worker < 64 }
        ensures stays { self.new.situation ≡ self.old.situation }
        ensures found { found_set result ≡ gathered nobody (in_situation P.chosen self.old.situation.now walk_at worker 64 worker) }
        ensures displacing { in_situation P.chosen self.old.situation.now FoundDisplacing (members self.new.seen) result }
    {
        let mut on = WorkerSet::empty();
        let mut at = worker;
        // Kept: at most as many rounds as there are workers, so that the loop is seen to end.
        for _n in 0..64u8 {
            let next = self.successor(at)?;
            on = on.with(at);
            if is_back(next, worker) {
                return Some(on);
            }
            at = next;
        }
        None
    }

    // The rotation of a worker, if it is on one.
    pub(crate) fn rotation(&mut self, worker: u8) -> Option<MoveList>
        ensures { shown result ≡ in_situation P.chosen self.old.situation.now rotation_at worker }
    {
        if worker >= 64 {
            return None;
        }
        let on = self.walk(worker)?;
        let from = &self.situation.staffing.placement;
        Some(MoveList::between(from, &self.to, on))
    }
}

// Is a walk that began at a worker back where it began?
fn is_back(at: u8, start: u8) -> bool
    ensures { result ≡ nat_eq at start }
{
    at == start
}
