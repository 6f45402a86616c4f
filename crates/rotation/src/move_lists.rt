// Making lists of moves, and the placement after them.
ghost use Rattle.std.specs.Prelude.{◌≡◌, ◌+◌, ◌<◌, ◌≤◌, [], ◌∷◌, ◌++◌, length, take, slice_set};
ghost use Rattle.fleet.specs.Members.{members};
ghost use Rattle.matching.specs.Entries.{place};
ghost use Rattle.rotation.specs.Moves.{carried, only_if, move_from, moved, turned, reversed};
ghost use Rattle.rotation.specs.Listing.{listing};

use crate::move_list::MoveList;
use fleet::{Move, WorkerSet};
use matching::Placement;

impl MoveList {
    /// The list without moves.
    pub fn empty() -> MoveList
        ensures len { result.len ≡ 0 }
        ensures moves { listing result ≡ [] }
    {
        MoveList {
            len: 0,
            moves: [Move::default(); 64],
        }
    }

    /// The moves, one after the other.
    pub fn as_slice(&self) -> &[Move]
        ensures { result.now ≡ listing self.now }
    {
        &self.moves[..self.len]
    }

    /// A list of the first moves of a slice, at most 64.
    pub fn of(moves: &[Move]) -> MoveList
        ensures { listing result ≡ take 64 moves.now }
    {
        let mut list = MoveList::empty();
        for step in first_moves(moves, 64) {
            list.push(*step);
        }
        list
    }

    /// The moves that take everyone back, in the same order of workers.
    pub fn reversed(&self) -> MoveList
        ensures moves { listing result ≡ reversed (listing self.now) }
        ensures long { length (listing result) ≡ length (listing self.now) }
    {
        let mut back = MoveList::empty();
        for step in self.as_slice() {
            back.push(way_back(*step));
        }
        back
    }

    /// The moves of some workers from one placement to another, by rising worker number.
    #[tactic(auto, using(crate::proofs::Carried::carried_none, crate::proofs::Carried::carried_more))]
    pub fn between(from: &Placement, to: &Placement, workers: WorkerSet) -> MoveList
        ensures { listing result ≡ carried (place from.now.places) (place to.now.places) (members workers) 64 }
    {
        let mut moves = MoveList::empty();
        // Kept: by all numbers, as the moves are defined, and not by the members alone.
        for worker in 0..64u8 {
            moves.carry(from, to, workers, worker);
        }
        moves
    }

    // Adds the move of a worker from one placement to another, if it is one of these workers.
    fn carry(&mut self, from: &Placement, to: &Placement, workers: WorkerSet, worker: u8)
        requires known { worker < 64 }
        requires room { self.old.len ≤ worker }
        ensures len { self.new.len ≤ worker + 1 }
        ensures moves { listing self.new ≡ listing self.old ++ only_if (members workers worker) (move_from (place from.now.places) (place to.now.places) worker) }
    {
        if workers.contains(worker) {
            self.push(Move {
                worker,
                from: from.tenant(worker),
                to: to.tenant(worker),
            });
        }
    }

    // Adds a move at the end.
    fn push(&mut self, next: Move)
        requires { self.old.len < 64 }
        ensures len { self.new.len ≡ self.old.len + 1 }
        ensures moves { listing self.new ≡ listing self.old ++ (next ∷ []) }
    {
        self.moves[self.len] = next;
        self.len += 1;
    }

    /// The placement after the moves. Whom they do not move stays, and of two moves of one worker
    /// the first counts.
    pub fn applied_to(&self, placement: &Placement) -> Placement
        ensures { result.places ≡ moved (listing self.now) placement.now.places }
    {
        let mut places = placement.places;
        for step in self.as_slice().iter().rev() {
            make(&mut places, *step);
        }
        Placement::new(places)
    }
}

// The first moves of a slice, at most so many.
#[tactic(auto, using(crate::proofs::Carried::first_taken))]
fn first_moves(moves: &[Move], most: usize) -> &[Move]
    ensures first { result.now ≡ take most moves.now }
    ensures few { length result.now ≤ most }
{
    &moves[..moves.len().min(most)]
}

// The move back.
fn way_back(there: Move) -> Move
    ensures { result ≡ turned there }
{
    Move {
        from: there.to,
        to: there.from,
        ..there
    }
}

// Makes a move.
fn make(places: &mut [u8; 64], step: Move)
    ensures { places.new ≡ slice_set places.old step.worker step.to }
{
    if step.worker < 64 {
        places[step.worker as usize] = step.to;
    }
}
