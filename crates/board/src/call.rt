// The calls as they reach a board's table.

/// A call in plain numbers. An open has the size of the worker's rotation, if it is on one; a
/// ticket is the number of its drain, if it is not blank.
#[derive(Clone, Copy, Debug, PartialEq, Eq)]
pub enum Call {
    Open { worker: u8, size: Option<u8> },
    Commit { ticket: Option<u64> },
    Withdraw { ticket: Option<u64> },
    Back,
    Rewind,
}
