// A short list of different numbers, best first.
ghost use Rattle.std.specs.Prelude.{◌≡◌, ℕ, ◌<◌, ◌≤◌, true, length, take};
ghost use Rattle.fleet.specs.Sets.{among};
ghost use Rattle.fleet.specs.Market.{different};

// Kept: an array with its length beside it, so that rankings are copied freely and never ask for memory. One buffer type under rankings, rosters and lists
// of moves would leave each of them its own three methods, as each has its own facts.
/// Different numbers below `N`, in order, best first.
#[derive(Clone, Copy)]
pub struct Ranking<const N: usize> {
    pub(crate) len: usize,
    pub(crate) items: [u8; N],
    ghost room: { length items ≡ N },
    ghost short: { len ≤ N },
    ghost within: { (t : ℕ) → among (take len items) t ≡ true → t < N },
    ghost apart: { different (take len items) ≡ true },
}

/// Why a number is not put on a ranking.
#[derive(Clone, Copy, PartialEq, Eq, Debug)]
pub enum Refusal {
    /// The number is past those that may be ranked.
    OutOfRange,
    /// The number is there already.
    Repeated,
}
