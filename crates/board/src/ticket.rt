// Tickets: what an open hands out, and a commit or a withdraw takes.
ghost use Rattle.std.specs.Prelude.{◌≡◌, None};
ghost use Rattle.runs.specs.States.Ticket.{blank, numbered};
ghost use Rattle.board.specs.Answers.{ticket_said, ticket_number};

/// The right to commit or withdraw the drain of a number. While it has one it cannot be let go,
/// only given to `commit` or `withdraw`; a blank one owes nothing.
// Kept: a plain struct that is not `Copy`, so that each ticket is spent once.
pub struct Ticket {
    pub(crate) drain: Option<u64>,
}

impl Drop for Ticket {
    fn drop(self)
        requires { self.drain ≡ None }
    {
        let Ticket { drain: _ } = self;
    }
}

impl Ticket {
    /// A ticket that owes nothing.
    pub fn blank() -> Ticket
        ensures said { ticket_said result ≡ blank }
        ensures drain { result.drain ≡ None }
    {
        Ticket { drain: None }
    }

    /// The number of the drain that the ticket is for, if it is not blank.
    pub fn number(&self) -> Option<u64>
        ensures { result ≡ ticket_number (ticket_said self.now) }
    {
        self.drain
    }

    // The ticket of a drain.
    pub(crate) fn of(number: u64) -> Ticket
        ensures { ticket_said result ≡ numbered number }
    {
        Ticket {
            drain: Some(number),
        }
    }

    // Spends the ticket: the number of its drain, if it is not blank.
    pub(crate) fn spend(self) -> Option<u64>
        ensures { result ≡ self.drain }
    {
        let Ticket { drain } = self;
        drain
    }
}
