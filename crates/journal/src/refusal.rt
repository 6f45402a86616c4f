// Why an event is not added to a journal.
ghost use Rattle.std.specs.Prelude.{◌≡◌};
ghost use Rattle.journal.specs.Adding.{refusal_number};

/// Why an event is not added.
#[derive(Clone, Copy, PartialEq, Eq, Debug)]
pub enum AddRefusal {
    /// A number of the event is outside its range.
    OutOfRange = 13,
    /// Fewer than 15 bytes are free.
    NoRoom = 50,
}

impl AddRefusal {
    /// The number of the refusal.
    pub fn number(self) -> u8
        ensures { result ≡ refusal_number self }
    {
        self as u8
    }
}
