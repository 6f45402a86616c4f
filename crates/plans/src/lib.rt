// What a board of a sheet does until it is best for all tenants, and how that is printed.
#![tactic(auto)]

ghost use Rattle.std.specs.Prelude.{◌≡◌};
ghost use Rattle.sheet.specs.Says.{text};
ghost use Rattle.report.specs.Inputs.{come_to};
ghost use Rattle.plans.specs.Plans.{plan_shown, plan_told, plan_of};
ghost use Rattle.plans.specs.Laws.{EndsBest, BestAtLast};

use board::Board;
use fleet::{Event, EventKind};
use report::{Settlement, Unread, read_input};
use runs::new_boards_move_on;
use sheet::sheet::Sheet;
use std::fmt;

/// How a sheet settles, and what a board of it then does until no rotation is left: so many events
/// of the log, and the number that is next.
// Kept: a board writes into a lent array, so that it needs no memory of its own.
#[derive(Clone, Copy)]
pub struct Plan {
    pub settlement: Settlement,
    pub log: [Event; 1440],
    pub events: usize,
    pub next: u64,
}

impl Plan {
    /// How a sheet settles, and what is done then from event number 1 on. The last placement is
    /// the one that is best for all tenants.
    pub fn of(sheet: &Sheet) -> Plan
        ensures plan { plan_shown result ≡ plan_of (text sheet.now) }
        ensures best { EndsBest (text sheet.now) }
    {
        let lists = sheet.lists();
        let policy = sheet.policy();
        let workers = lists.workers();
        new_boards_move_on();
        let (mut board, rounds) = Board::make(lists, policy, 1);
        let places = board.settled().places;
        let mut log = [Event::default(); 1440];
        let (events, _stopped) = board.move_on(&mut log);
        Plan {
            settlement: Settlement {
                workers,
                rounds,
                places,
            },
            log,
            events,
            next: board.next_number(),
        }
    }
}

/// The plan of the sheet that an input says.
pub fn planned(bytes: &[u8]) -> Result<Plan, Unread>
    ensures plan { plan_told result ≡ come_to plan_of bytes.now }
    ensures best { BestAtLast bytes.now }
{
    let sheet = read_input(bytes)?;
    Ok(Plan::of(&sheet))
}

impl fmt::Display for Plan {
    fn fmt<W: fmt::Write>(&self, f: &mut fmt::Formatter<W>) -> fmt::Result {
        write!(f, "{}", self.settlement)?;
        for event in self.log.iter().take(self.events) {
            // A board's events have one of the four kinds; whoever puts a plan together may write another number, which is printed as the last kind.
            let kind = EventKind::try_from(event.kind).unwrap_or(EventKind::Rewind);
            let kind = kind.number();
            write!(f, "\n{}", Event { kind, ..*event })?;
        }
        write!(f, "\nend {}", self.next)
    }
}
