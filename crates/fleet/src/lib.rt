// The words of the subject: sets of workers, rankings, the workers' lists of tenants, moves and events.
#![tactic(auto)]

mod event_kind;
pub mod lists;
mod markets;
mod of_numbers;
pub mod ranking;
mod rankings;
pub mod sets;
mod words;
pub mod worker_set;

pub use event_kind::{EventKind, UnknownKind};
pub use lists::{Lists, ListsRefusal};
pub use ranking::{Ranking, Refusal};
pub use sets::Workers;
pub use worker_set::WorkerSet;

/// A worker goes from one tenant to another.
#[derive(Clone, Copy, Debug, Default, PartialEq, Eq)]
pub struct Move {
    pub worker: u8,
    pub from: u8,
    pub to: u8,
}

// Kept: the kind is a number, since a slip is lent with whatever lies on it, and a journal is asked to add any; `EventKind` names those that there are.
/// What a board wrote down: the event's number and kind, and who went from where to where.
#[derive(Clone, Copy, Debug, Default, PartialEq, Eq)]
pub struct Event {
    pub number: u64,
    pub kind: u8,
    pub worker: u8,
    pub from: u8,
    pub to: u8,
}
