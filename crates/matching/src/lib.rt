// Stable placements: settling, the check of a placement, and workers' steps.
#![tactic(auto)]

pub mod checking;
pub mod farm;
pub mod placement;
mod placements;
pub mod settling;
pub mod staffing;
mod staffings;
pub mod stepping;
mod wanting;

pub use farm::{Farm, Situation};
pub use placement::Placement;
pub use settling::Settled;
pub use staffing::Staffing;
