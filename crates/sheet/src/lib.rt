// The bytes of a sheet. Layer 1, `framing`, cuts them into fields; layer 2, `contents`, looks at what each field may hold; layer 3, `reading`
// and `writing`, goes between fields and what a sheet says.
#![tactic(auto)]

mod adding;
mod contents;
pub mod encoded;
pub mod faults;
pub mod fields;
pub mod frame;
pub mod framing;
pub mod reader;
mod reading;
pub mod sheet;
mod sheets;
pub mod tenants;
mod writing;
