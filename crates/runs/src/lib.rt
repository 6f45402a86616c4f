// The board as a machine on values: what each call does, and what holds after any list of calls.
#![tactic(auto)]

ghost use Rattle.runs.specs.Laws.{BoardLaws, BoardBounds, NeverStopped};

/// What holds of a board after any list of calls. This computes nothing: it is called for what its contract says.
pub fn boards_keep_laws()
    ensures { BoardLaws }
{}

/// What a board never passes, whatever the calls. This computes nothing: it is called for what its contract says.
pub fn boards_keep_bounds()
    ensures { BoardBounds }
{}

/// A new board moves on until no rotation is left. This computes nothing: it is called for what its contract says.
pub fn new_boards_move_on()
    ensures { NeverStopped }
{}
