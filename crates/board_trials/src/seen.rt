// What is seen of a board, printed as the independent program prints it.
use board::Board;
use fleet::Move;
use matching::Placement;
use policy::{Pair, Quarantine, Ranked, Seated, Table};
use rotation::MoveList;
use std::alloc::Global;
use std::fmt;

/// A board of a sheet.
pub type SheetBoard = Board<Quarantine<Pair<Ranked, Pair<Seated, Table>>>>;

// Kept: the count is what the board says of itself, and is compared and printed beside the rotations that it hands out. Their moves stand one behind the
// other, with the size of each rotation beside them: a board may have 480 of them, and each would ask for memory of its own at every call.
/// The placement, the standing rotations and how many there are, the drain, and the next number.
#[derive(Drop, PartialEq)]
pub(crate) struct Seen {
    placement: Placement,
    count: usize,
    standing: Vec<Move>,
    sizes: Vec<usize>,
    drain: Option<(u64, Vec<Move>)>,
    next: u64,
}

impl Seen {
    /// What is seen of a board.
    pub(crate) fn of(heap: Global, board: &SheetBoard) -> anyhow::Result<Seen> {
        let count = board.standing();
        let mut standing = Vec::new(heap);
        let mut sizes = Vec::new(heap);
        // Kept: by number, as a board hands out its rotations.
        for index in 0..count {
            if let Some(rotation) = board.standing_rotation(index) {
                standing.extend_from_slice(rotation.as_slice())?;
                sizes.push(rotation.as_slice().len())?;
            }
        }
        let drain = match board.drain() {
            Some((number, rotation)) => Some((number, moves_of(heap, &rotation)?)),
            None => None,
        };
        Ok(Seen {
            placement: board.placement(),
            count,
            standing,
            sizes,
            drain,
            next: board.next_number(),
        })
    }
}

/// The moves of a rotation.
fn moves_of(heap: Global, rotation: &MoveList) -> anyhow::Result<Vec<Move>> {
    let mut moves = Vec::new(heap);
    moves.extend_from_slice(rotation.as_slice())?;
    Ok(moves)
}

/// Moves on one line, joined by commas.
#[derive(Clone, Copy)]
struct Moves<'a>(&'a [Move]);

impl fmt::Display for Moves<'_> {
    fn fmt<W: fmt::Write>(&self, f: &mut fmt::Formatter<W>) -> fmt::Result {
        for (place, Move { worker, from, to }) in self.0.iter().enumerate() {
            if place > 0 {
                write!(f, ",")?;
            }
            write!(f, "{worker}.{from}.{to}")?;
        }
        Ok(())
    }
}

/// A placement as bytes, up to the last worker that is placed.
#[derive(Clone, Copy)]
struct Places(Placement);

impl fmt::Display for Places {
    fn fmt<W: fmt::Write>(&self, f: &mut fmt::Formatter<W>) -> fmt::Result {
        let places = self.0.places;
        for tenant in places.iter().take(placed(&places)) {
            write!(f, "{tenant:02x}")?;
        }
        Ok(())
    }
}

/// How many workers there are up to the last that is placed.
fn placed(places: &[u8]) -> usize {
    let none = places
        .iter()
        .rev()
        .take_while(|tenant| **tenant == 255)
        .count();
    places.len().saturating_sub(none)
}

/// A state on one line, with all rotations that stand or only the last.
#[derive(Clone, Copy)]
pub(crate) struct State<'a> {
    pub seen: &'a Seen,
    // Kept: a flag alone, which says how much is printed.
    pub whole: bool,
}

impl fmt::Display for State<'_> {
    fn fmt<W: fmt::Write>(&self, f: &mut fmt::Formatter<W>) -> fmt::Result {
        let seen = self.seen;
        let count = seen.count;
        write!(f, " at {} standing {count}", Places(seen.placement))?;
        let passed = if self.whole {
            0
        } else {
            count.saturating_sub(1)
        };
        let mut rest = seen.standing.as_slice();
        for (index, size) in seen.sizes.iter().enumerate() {
            let (rotation, others) = rest.split_at(rest.len().min(*size));
            if index >= passed {
                write!(f, " {}", Moves(rotation))?;
            }
            rest = others;
        }
        match &seen.drain {
            None => write!(f, " drain none")?,
            Some((number, rotation)) => {
                write!(f, " drain {number} {}", Moves(rotation.as_slice()))?;
            }
        }
        write!(f, " next {}", seen.next)
    }
}
