// Why a board refuses a call.
ghost use Rattle.std.specs.Prelude.{◌≡◌};
ghost use Rattle.board.specs.Answers.{refusal_number};

/// Why a call is refused; nothing changes then.
#[derive(Clone, Copy, PartialEq, Eq, Debug)]
pub enum Refusal {
    /// The worker is on no rotation.
    NoRotation = 40,
    /// A drain is set.
    DrainSet = 41,
    /// No drain is set.
    NoDrain = 42,
    /// The ticket is blank, or not that of the drain.
    OtherTicket = 43,
    /// There are not enough event numbers left.
    NumbersShort = 44,
    /// No rotation stands.
    NoneStanding = 45,
}

impl Refusal {
    /// The number of the refusal.
    pub fn number(self) -> u8
        ensures { result ≡ refusal_number self }
    {
        self as u8
    }
}
