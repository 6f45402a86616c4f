// What can be asked of a board.
ghost use Rattle.std.specs.Prelude.{◌≡◌, ◌≤◌, length, sum};
ghost use Rattle.std.specs.List.{slice_get};
ghost use Rattle.rotation.specs.Listing.{shown};
ghost use Rattle.board.specs.Shown.{state, drain_shown};

use crate::board::Board;
use matching::Placement;
use rotation::MoveList;

// How many moves rotations of these sizes have.
fn moves_of(sizes: &[u8]) -> usize
    requires { length sizes.now ≤ 480 }
    ensures { result ≡ sum sizes.now }
{
    sizes.iter().map(|size| usize::from(*size)).sum()
}

impl<P> Board<P> {
    /// The placement as it is.
    pub fn placement(&self) -> Placement
        ensures { result.places ≡ (state self.now.table).placement }
    {
        self.table.current
    }

    /// The placement that the board settled to.
    pub fn settled(&self) -> Placement
        ensures { result ≡ self.now.table.settled }
    {
        self.table.settled
    }

    /// How many rotations stand.
    #[tactic(auto, using(crate::proofs::Held::standing_long))]
    pub fn standing(&self) -> usize
        ensures { result ≡ length (state self.now.table).standing }
    {
        self.table.count
    }

    /// A standing rotation, 0 for the one that was committed first.
    #[tactic(auto, using(crate::proofs::Held::standing_piece, crate::proofs::Held::standing_none, crate::proofs::Held::size_room, crate::proofs::Held::standing_few))]
    pub fn standing_rotation(&self, index: usize) -> Option<MoveList>
        ensures { shown result ≡ slice_get (state self.now.table).standing index }
    {
        let table = &self.table;
        if index >= table.count {
            return None;
        }
        let start = moves_of(&table.sizes[..index]);
        Some(table.piece(start, table.sizes[index]))
    }

    /// The number and the moves of the drain, if one is set.
    pub fn drain(&self) -> Option<(u64, MoveList)>
        ensures { drain_shown result ≡ (state self.now.table).drain }
    {
        let drained = self.table.drain?;
        let moves = self.table.piece(self.table.len, drained.size);
        Some((drained.number, moves))
    }

    /// The number of the next event.
    pub fn next_number(&self) -> u64
        ensures { result ≡ (state self.now.table).next }
    {
        self.table.next
    }
}
