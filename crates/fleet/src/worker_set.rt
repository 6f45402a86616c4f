// A set of worker numbers, 0 to 63, as the bits of one word.
ghost use Rattle.std.specs.Prelude.{◌^◌, ◌<◌};

/// A set of workers, each a number from 0 to 63.
#[derive(Clone, Copy, PartialEq, Eq)]
pub struct WorkerSet {
    pub(crate) bits: u64,
    ghost fits: { bits < 2 ^ 64 },
}
