// Rotations: cycles of workers that each put the next one out, their moves, and where they lead.
#![tactic(auto)]

pub mod cases;
pub mod move_list;
mod move_lists;
pub mod rotating;
mod walker;
mod walking;

pub use cases::worked_cases;
pub use move_list::MoveList;
pub use rotating::{lowest_on_rotation, rotation_of};
