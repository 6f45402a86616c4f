// The plain inner table of a board.
ghost use Rattle.std.specs.Prelude.{◌≡◌, ℕ, ◌+◌, ◌-◌, ◌^◌, ◌<◌, ◌≤◌, true, ◌++◌, length, take, sum};
ghost use Rattle.fleet.specs.Lists.{market};
ghost use Rattle.matching.specs.Entries.{place};
ghost use Rattle.runs.specs.Descent.{leads, led_to};
ghost use Rattle.board.specs.Pieces.{cut, size_of, number_of, opened};

use crate::drain::Drained;
use fleet::{Lists, Move};
use matching::Placement;

/// The lists, the settled and the current placement, the moves of the standing rotations one
/// behind the other, the size of each rotation, the drain, whose moves lie behind the standing
/// ones, and the next event number. A board allocates nothing, so the arrays have all the room
/// that its rotations can ever need, with their lengths beside them.
#[derive(Drop)]
pub struct Table {
    pub(crate) lists: Lists,
    pub(crate) settled: Placement,
    pub(crate) current: Placement,
    pub(crate) moves: [Move; 960],
    pub(crate) len: usize,
    pub(crate) sizes: [u8; 480],
    pub(crate) count: usize,
    pub(crate) drain: Option<Drained>,
    pub(crate) next: u64,
    ghost rooms: { length moves ≡ 960 },
    ghost slots: { length sizes ≡ 480 },
    ghost few: { count ≤ 480 },
    ghost stacked: { sum (take count sizes) ≡ len },
    ghost fits: { len + size_of drain ≤ 960 },
    ghost slip: { size_of drain ≤ 64 },
    ghost known: { number_of drain < 2 ^ 64 },
    ghost numbers: { next + size_of drain ≤ 2 ^ 64 - 1 },
    ghost leading: { leads (market lists) settled.places (cut (take count sizes) moves ++ opened drain len moves) ≡ true },
    ghost reached: { (w : ℕ) → place (led_to settled.places (cut (take count sizes) moves)) w ≡ place current.places w },
}
