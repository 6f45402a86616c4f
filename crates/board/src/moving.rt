// A board that moves on, rotation by rotation, until it is best for all tenants.
ghost use Rattle.std.specs.Prelude.{◌≡◌, ◌+◌, ◌≤◌, ◌++◌, take, drop};
ghost use Rattle.fleet.specs.Lists.{market};
ghost use Rattle.runs.specs.Onward.{weight, MovedOn};
ghost use Rattle.board.specs.Shown.{state, Keeps};
ghost use Rattle.board.specs.Answers.{stop_number};
ghost use Rattle.board.specs.Moving.{lowest_at, TurnDone};

use crate::board::Board;
use crate::putting::put;
use crate::refusal::Refusal;
use fleet::Event;
use matching::{Farm, Situation, Staffing};
use policy::Policy;
use rotation::lowest_on_rotation;

// Writes the first events of a slip into a log from a place on: the place behind them.
fn write_down(log: &mut [Event; 1440], at: usize, slip: &[Event; 64], events: u8) -> usize
    requires { (at + events ≤ 1440) × (events ≤ 64) }
    ensures end { result ≡ at + events }
    ensures log { log.new ≡ take at log.old ++ (take events slip.now ++ drop (at + events) log.old) }
{
    put(log, at, &slip[0..events as usize]);
    at + events as usize
}

impl<P: Policy> Board<P> {
    // The lowest worker on a rotation. Kept: a situation of its own, as in `Board::rotation`.
    fn lowest(&self) -> Option<u8>
        ensures { result ≡ lowest_at (P.Policy.chosen self.now.policy) self.now.table }
    {
        let farm = Farm {
            lists: &self.table.lists,
            policy: &self.policy,
        };
        let now = Situation {
            farm: &farm,
            staffing: &Staffing::new(self.table.current),
        };
        lowest_on_rotation(&now)
    }

    // Opens for a worker and commits: the events are written into the log from a place on. The
    // place behind them; where the open is refused, nothing is written.
    // Kept: the log and the place are two parameters, as the log is lent for the whole course and
    // the place is all that goes from turn to turn.
    fn turn(&mut self, worker: u8, log: &mut [Event; 1440], at: usize) -> Result<usize, Refusal>
        requires { at ≤ weight (state self.old.table) }
        ensures { TurnDone P.Policy.chosen worker at self.old self.new result log.old log.new }
    {
        let mut slip = [Event::default(); 64];
        let (opened, ticket) = self.open(worker, &mut slip);
        let then = write_down(log, at, &slip, opened?);
        let committed = self.commit(ticket, &mut slip)?;
        Ok(write_down(log, then, &slip, committed))
    }

    /// Opens and commits by the lowest worker on a rotation until none is left, and writes each
    /// event into the log: how many events there are, and the refusal that stopped it, if one did.
    /// From a stable placement it leads, where nothing stops it, to the one that is best for all
    /// tenants.
    // Kept: the answer is a pair, since a course that is stopped has events too.
    pub fn move_on(&mut self, log: &mut [Event; 1440]) -> (usize, Option<Refusal>)
        ensures course { MovedOn (market self.old.table.lists) (P.Policy.chosen self.old.policy) self.old.table.settled.places (state self.old.table) log.old result.0 (stop_number result.1) (state self.new.table) log.new }
        ensures keeps { Keeps self.old.table self.new.table }
        ensures policy { self.new.policy ≡ self.old.policy }
    {
        let mut events = 0;
        // Kept: one round more than rotations can stand, so that the loop is seen to end.
        for turns in 0..481u16 {
            let Some(worker) = self.lowest() else {
                return (events, None);
            };
            match self.turn(worker, log, events) {
                Ok(written) => events = written,
                Err(refusal) => return (events, Some(refusal)),
            }
        }
        (events, None)
    }
}
