// What the bytes of a sheet come to, and how that is printed.
#![tactic(auto)]

mod answers;
pub mod digits;
pub mod input;
pub mod settlement;

pub use answers::Asked;
pub use digits::{DigitsFault, bytes_of, check_digits};
pub use input::{LONGEST, Told, Unread, read_input};
pub use settlement::{Settlement, settled};
