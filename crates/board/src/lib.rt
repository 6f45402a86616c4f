// The board: its calls, its tickets, and what holds after any list of calls.
#![tactic(auto)]

mod accessors;
mod answering;
pub mod board;
pub mod call;
mod changes;
pub mod drain;
mod moving;
mod putting;
pub mod refusal;
mod slips;
pub mod table;
mod tables;
pub mod ticket;

pub use board::Board;
pub use refusal::Refusal;
pub use ticket::Ticket;
