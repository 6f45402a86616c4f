// A list of moves.
ghost use Rattle.std.specs.Prelude.{◌≡◌, ◌≤◌, length};

use fleet::Move;

// Kept: an array with its length beside it, since a rotation asks for no memory. Two lists are compared by `as_slice`: what the array has past the length does not count.
/// Up to 64 moves.
#[derive(Clone, Copy, Debug)]
pub struct MoveList {
    pub(crate) len: usize,
    pub(crate) moves: [Move; 64],
    ghost short: { len ≤ 64 },
    ghost full: { length moves ≡ 64 },
}
