// Making a table, and laying moves into it.
ghost use Rattle.std.specs.Prelude.{◌≡◌, ◌+◌, ◌≤◌, length};
ghost use Rattle.rotation.specs.Listing.{listing};
ghost use Rattle.board.specs.Pieces.{piece};
ghost use Rattle.board.specs.Shown.{state, fresh};

use crate::table::Table;
use fleet::{Lists, Move};
use matching::Placement;
use rotation::MoveList;

impl Table {
    // A table with nothing drained and nothing standing.
    #[tactic(auto, using(crate::proofs::Pieces::cut_none, crate::proofs::Held::none_lead, crate::proofs::Held::none_led))]
    pub(crate) fn new(lists: Lists, settled: Placement, first: u64) -> Table
        ensures state { state result ≡ fresh settled.places first }
        ensures lists { result.lists ≡ lists }
        ensures settled { result.settled ≡ settled }
    {
        Table {
            lists,
            settled,
            current: settled,
            moves: [Move::default(); 960],
            len: 0,
            sizes: [0; 480],
            count: 0,
            drain: None,
            next: first,
        }
    }

    // So many moves from a place on. Kept: the bounds are asked of the two numbers, which callers know
    // from different facts of the table.
    pub(crate) fn piece(&self, at: usize, size: u8) -> MoveList
        requires { (at + size ≤ 960) × (size ≤ 64) }
        ensures moves { listing result ≡ piece at size self.now.moves }
        ensures long { length (listing result) ≡ size }
    {
        MoveList::of(&self.moves[at..at + size as usize])
    }
}
