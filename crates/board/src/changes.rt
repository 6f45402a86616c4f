// The changes of a table: moves are laid, drained, made, taken back, or all undone.
ghost use Rattle.std.specs.Prelude.{◌≡◌, ◌+◌, ◌<◌, ◌≤◌, true, false, [], length, Some, None};
ghost use Rattle.fleet.specs.Lists.{market};
ghost use Rattle.fleet.specs.Members.{members};
ghost use Rattle.matching.specs.Entries.{place};
ghost use Rattle.rotation.specs.Listing.{listing};
ghost use Rattle.rotation.specs.Moves.{moved, reversed};
ghost use Rattle.runs.specs.Calls.{short, displaced as displaced_at, returns as returns_of, own_move as defined_own_move, drained as drained_by, committing, withdrawing, backing};
ghost use Rattle.runs.specs.Descent.{descends};
ghost use Rattle.board.specs.Pieces.{piece};
ghost use Rattle.board.specs.Shown.{last_size, last_piece, state, Drainable, Becomes};

use crate::drain::Drained;
use crate::putting::put;
use crate::table::Table;
use fleet::{Move, WorkerSet};
use matching::Placement;
use rotation::MoveList;

impl Table {
    // Lays a rotation behind the standing ones, where it can be drained: its size. The state stays.
    pub(crate) fn lay(&mut self, rotation: &MoveList) -> u8
        requires shut { self.old.drain ≡ None }
        requires down { descends (market self.old.lists) (place self.old.current.places) 0 (listing rotation.now) ≡ true }
        requires some { 1 < length (listing rotation.now) }
        ensures same { Becomes self.old self.new (state self.old) }
        ensures there { piece self.new.len result self.new.moves ≡ listing rotation.now }
        ensures ready { Drainable self.new result }
    {
        let moves = rotation.as_slice();
        put(&mut self.moves, self.len, moves);
        moves.len() as u8
    }

    // Where the rotation behind the standing ones takes a worker.
    pub(crate) fn own_move(&self, worker: u8, size: u8) -> Move
        requires { (self.now.len + size ≤ 960) × (size ≤ 64) }
        ensures { result ≡ defined_own_move self.now.current.places (piece self.now.len size self.now.moves) worker }
    {
        let after = self.piece(self.len, size).applied_to(&self.current);
        Move {
            worker,
            from: self.current.tenant(worker),
            to: after.tenant(worker),
        }
    }

    // The workers whose tenant differs from the settled one.
    fn displaced(&self) -> WorkerSet
        ensures { members result ≡ displaced_at self.now.settled.places self.now.current.places }
    {
        let mut workers = WorkerSet::empty();
        // Kept: by number, since a worker past 63 has no place in either.
        for worker in 0..64u8 {
            if self.current.tenant(worker) != self.settled.tenant(worker) {
                workers = workers.with(worker);
            }
        }
        workers
    }

    // The moves that return them.
    pub(crate) fn returns(&self) -> MoveList
        ensures { listing result ≡ returns_of self.now.settled.places self.now.current.places }
    {
        MoveList::between(&self.current, &self.settled, self.displaced())
    }

    // Are event numbers short for so many more?
    pub(crate) fn is_short(&self, events: u64) -> bool
        ensures { result ≡ short self.now.next events }
    {
        u64::MAX - self.next < events
    }

    // Drains the moves behind the standing ones, under the next number.
    #[tactic(auto, using(crate::proofs::Held::one_more))]
    pub(crate) fn drain(&mut self, size: u8)
        requires ready { Drainable self.old size }
        requires numbers { short self.old.next (1 + size) ≡ false }
        ensures { Becomes self.old self.new (drained_by (state self.old) (piece self.old.len size self.old.moves)) }
    {
        self.drain = Some(Drained {
            number: self.next,
            size,
        });
        self.next += 1;
    }

    // The drained rotation stands, with its moves made; nothing is drained any more.
    pub(crate) fn stand(&mut self, drained: Drained, after: Placement)
        requires drain { self.old.drain ≡ Some drained }
        requires after { after.places ≡ moved (piece self.old.len drained.size self.old.moves) self.old.current.places }
        ensures { Becomes self.old self.new ((committing (state self.old) (piece self.old.len drained.size self.old.moves) true).0) }
    {
        self.sizes[self.count] = drained.size;
        self.count += 1;
        self.len += drained.size as usize;
        self.next += drained.size as u64;
        self.current = after;
        self.drain = None;
    }

    // Nothing is drained any more; all else stays.
    #[tactic(auto, using(crate::proofs::Held::leads_alone))]
    pub(crate) fn shut(&mut self)
        ensures { Becomes self.old self.new ((withdrawing (state self.old) true).0) }
    {
        self.drain = None;
    }

    // Nothing stands and nothing is drained, and everyone is back where the board settled, which took so many events.
    #[tactic(auto, using(crate::proofs::Pieces::cut_none, crate::proofs::Held::none_lead, crate::proofs::Held::none_led))]
    pub(crate) fn reset(&mut self, events: u8)
        requires { short self.old.next events ≡ false }
        ensures { Becomes self.old self.new (record { placement = self.old.settled.places; standing = []; drain = None; next = self.old.next + events }) }
    {
        self.current = self.settled;
        self.count = 0;
        self.len = 0;
        self.drain = None; // any drain is let go
        self.next += events as u64;
    }

    // The last rotation stands no more, and its moves are taken back.
    #[tactic(auto, using(crate::proofs::Held::last_inside, crate::proofs::Held::last_long, crate::proofs::Held::others_stacked, crate::proofs::Held::others_are, crate::proofs::Held::others_lead, crate::proofs::Held::others_reach))]
    pub(crate) fn fall(&mut self, size: u8, after: Placement)
        requires shut { self.old.drain ≡ None }
        requires some { (0 < self.old.count) × (size ≡ last_size self.old) }
        requires after { after.places ≡ moved (reversed (last_piece self.old)) self.old.current.places }
        requires numbers { short self.old.next size ≡ false }
        ensures { Becomes self.old self.new ((backing (state self.old) (last_piece self.old) false).0) }
    {
        self.count -= 1;
        self.len -= size as usize;
        self.next += size as u64;
        self.current = after;
    }
}
