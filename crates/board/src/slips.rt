// Writing events onto a slip.
ghost use Rattle.std.specs.Prelude.{◌≡◌, ◌+◌, ◌-◌, ◌^◌, ◌≤◌, ◌++◌, length, drop};
ghost use Rattle.rotation.specs.Listing.{listing};
ghost use Rattle.runs.specs.Calls.{event as event_of, events};
ghost use Rattle.fleet.specs.Kinds.{kind_number};

use fleet::{Event, EventKind, Move};
use rotation::MoveList;

// The event of a move. It holds its kind as a number, since a slip is lent with whatever it holds.
pub(crate) fn event(number: u64, kind: EventKind, step: Move) -> Event
    ensures { result ≡ event_of number (kind_number kind) step }
{
    Event {
        number,
        kind: kind as u8,
        worker: step.worker,
        from: step.from,
        to: step.to,
    }
}

// Writes the events of moves, numbered one by one: how many there are.
#[tactic(auto, using(crate::proofs::Written::slip_more, crate::proofs::Written::listing_few, runs::proofs::Bounds::length_events, std::proofs::lemmas::List::take_all))]
pub(crate) fn write_events(
    moves: &MoveList,
    number: u64,
    kind: EventKind,
    slip: &mut [Event; 64],
) -> u8
    requires { number + length (listing moves.now) ≤ 2 ^ 64 - 1 }
    ensures long { result ≡ length (listing moves.now) }
    ensures count { result ≡ length (events number (kind_number kind) (listing moves.now)) }
    ensures slip { slip.new ≡ events number (kind_number kind) (listing moves.now) ++ drop (length (events number (kind_number kind) (listing moves.now))) slip.old }
{
    let steps = moves.as_slice();
    // Kept: the entries are set by place, since not all are, and nothing is known afterwards of what
    // `zip` or `take` over `iter_mut` wrote.
    for (i, step) in steps.iter().enumerate() {
        slip[i] = event(number + i as u64, kind, *step);
    }
    steps.len() as u8
}
