// The bytes of events: adding them to a journal, and reading a journal.
#![tactic(auto)]

pub mod adding;
mod events;
pub mod fault;
pub mod reading;
pub mod refusal;

pub use adding::add;
pub use fault::JournalFault;
pub use reading::EventReader;
pub use refusal::AddRefusal;
