// What is drained.

/// A drained rotation: its event number, and how many moves it has.
#[derive(Clone, Copy, Debug, PartialEq, Eq)]
pub struct Drained {
    pub number: u64,
    pub size: u8,
}
