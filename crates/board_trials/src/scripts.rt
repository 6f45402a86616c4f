// Scripts of board calls, each call printed as the independent program prints it, with what it must have left alone.
use crate::seen::{Seen, SheetBoard, State};
use anyhow::anyhow;
use board::{Board, Refusal, Ticket};
use fleet::Event;
use report::read_input;
use std::alloc::Global;
use std::fmt;

/// A sheet of three workers and two tenants, where worker 0 is on a rotation.
const RING: &[u8] = b"\x01\x02\x00\x03\x02\
    \x02\x03\x00\x00\x00\x01\x02\x03\x00\x00\x01\x00\x02\x02\x00\x00\x00\
    \x03\x04\x00\x01\x01\x00\x02\x03\x03\x00\x01\x00\x01\x06\x00\x00";

/// A board of the sheet that bytes say, and the rounds that it took.
fn board_of(bytes: &[u8], first: u64) -> anyhow::Result<(SheetBoard, u16)> {
    let sheet = read_input(bytes).map_err(|_| anyhow!("no sheet"))?;
    Ok(Board::make(sheet.lists(), sheet.policy(), first))
}

/// A slip on which nothing is written.
// Kept: no default, so that an entry that is filled by mistake is seen.
fn empty_slip() -> [Event; 64] {
    let nothing = Event {
        number: u64::MAX,
        kind: 255,
        worker: 255,
        from: 255,
        to: 255,
    };
    [nothing; 64]
}

/// A blank ticket, or the ticket of a number, from a board whose next number it is.
fn ticket_of(text: &str) -> anyhow::Result<Ticket> {
    if text == "blank" {
        return Ok(Ticket::blank());
    }
    let (mut other, _) = board_of(RING, text.parse::<u64>()?)?;
    let mut slip = empty_slip();
    let (_, ticket) = other.open(0, &mut slip);
    Ok(ticket)
}

/// What a call answered, the number of the ticket that it handed out, if it handed one out and if that is not blank, and the slip as it is then.
#[derive(Clone, Copy)]
struct Answer {
    result: Result<u8, Refusal>,
    issued: Option<Option<u64>>,
    slip: [Event; 64],
}

impl Answer {
    /// How many entries of the slip are filled.
    fn filled(&self) -> usize {
        self.result.map_or(0, usize::from)
    }
}

impl fmt::Display for Answer {
    fn fmt<W: fmt::Write>(&self, f: &mut fmt::Formatter<W>) -> fmt::Result {
        match self.result {
            Ok(count) => write!(f, "accepted {count}")?,
            Err(refusal) => write!(f, "refused {}", refusal.number())?,
        }
        match self.issued {
            None => {}
            Some(None) => write!(f, " ticket blank")?,
            Some(Some(number)) => write!(f, " ticket {number}")?,
        }
        write!(f, " slip")?;
        for event in self.slip.iter().take(self.filled()) {
            let Event {
                number,
                kind,
                worker,
                from,
                to,
            } = event;
            write!(f, " {number}.{kind}.{worker}.{from}.{to}")?;
        }
        Ok(())
    }
}

/// The board that calls are made on, a board to spend tickets on, the slip, and what was seen last.
#[derive(Drop)]
pub(crate) struct Script {
    board: SheetBoard,
    other: SheetBoard,
    slip: [Event; 64],
    seen: Seen,
}

impl Script {
    /// A script that begins with a board of the ring.
    pub(crate) fn new(heap: Global) -> anyhow::Result<Script> {
        let (board, _) = board_of(RING, 1)?;
        let (other, _) = board_of(RING, 1)?;
        let seen = Seen::of(heap, &board)?;
        Ok(Script {
            board,
            other,
            slip: empty_slip(),
            seen,
        })
    }

    /// Makes a board of a sheet, and prints it.
    pub(crate) fn begin(
        &mut self,
        rt: &HostRuntime,
        bytes: &[u8],
        first: u64,
    ) -> anyhow::Result<()> {
        let (board, rounds) = board_of(bytes, first)?;
        let seen = Seen::of(rt.alloc(), &board)?;
        let state = State {
            seen: &seen,
            whole: true,
        };
        println!(rt; "made rounds {rounds} slip{state}")?;
        self.board = board;
        self.seen = seen;
        Ok(())
    }

    /// Makes the call that a word and its argument say, and prints what it answered. The state is printed
    /// where the call was accepted, with the last rotation that stands, and where the whole is wanted, with all of them.
    pub(crate) fn step(
        &mut self,
        rt: &HostRuntime,
        word: &str,
        rest: &str,
        whole: bool,
    ) -> anyhow::Result<()> {
        let answer = self.call(word, rest)?;
        let seen = Seen::of(rt.alloc(), &self.board)?;
        if !self.is_kept(&answer, &seen) {
            println!(rt; "something else changed")?;
        }
        if whole || answer.result.is_ok() {
            let state = State { seen: &seen, whole };
            println!(rt; "{answer}{state}")?;
        } else {
            println!(rt; "{answer}")?;
        }
        self.slip = answer.slip;
        self.seen = seen;
        Ok(())
    }

    /// Whether the slip past the filled entries is as it was, and after a refusal the board too.
    fn is_kept(&self, answer: &Answer, seen: &Seen) -> bool {
        let mut rest = answer.slip.iter().zip(&self.slip).skip(answer.filled());
        rest.all(|(now, before)| now == before) && (answer.result.is_ok() || *seen == self.seen)
    }

    /// Makes a call.
    // Kept: the words are matched here once more, where each has its own arguments and the board.
    fn call(&mut self, word: &str, rest: &str) -> anyhow::Result<Answer> {
        let mut slip = self.slip;
        let mut issued = None;
        let result = match word {
            "open" => {
                let worker = rest.parse::<u8>()?;
                let (result, ticket) = self.board.open(worker, &mut slip);
                issued = Some(self.spent(ticket));
                result
            }
            "commit" => self.board.commit(ticket_of(rest)?, &mut slip),
            "withdraw" => self.board.withdraw(ticket_of(rest)?),
            "back" => self.board.back(&mut slip),
            "rewind" => self.board.rewind(&mut slip),
            _ => return Err(anyhow!("an unknown call")),
        };
        Ok(Answer {
            result,
            issued,
            slip,
        })
    }

    /// The number of a ticket, if it is not blank. The ticket is spent on the other board.
    fn spent(&mut self, ticket: Ticket) -> Option<u64> {
        let number = ticket.number();
        let _ = self.other.withdraw(ticket);
        number
    }
}
