// The board and its calls.
ghost use Rattle.std.specs.Prelude.{◌≡◌, [], IfSome};
ghost use Rattle.fleet.specs.Lists.{market};
ghost use Rattle.matching.specs.Entries.{place};
ghost use Rattle.matching.specs.Settling.{settled_rounds};
ghost use Rattle.matching.specs.Stable.{Given, Stable, WorkerBest};
ghost use Rattle.rotation.specs.Listing.{shown};
ghost use Rattle.rotation.specs.Moves.{rotation_at};
ghost use Rattle.runs.specs.States.Call.{open_for, commit as commit_by, withdraw as withdraw_by, back as back_by, rewind as rewind_by};
ghost use Rattle.runs.specs.Calls.{made};
ghost use Rattle.runs.specs.Laws.{BoardLaws, BoardBounds};
ghost use Rattle.board.specs.declared.call.Call.TheVariants.{Open};
ghost use Rattle.board.specs.Shown.{state, answered, called, Drainable, After, Becomes};
ghost use Rattle.board.specs.Answers.{ticket_of, ticket_said};
ghost use Rattle.board.specs.Done.{CallDone};

use crate::call::Call;
use crate::refusal::Refusal;
use crate::table::Table;
use crate::ticket::Ticket;
use fleet::{Event, Lists};
use matching::{Farm, Situation, Staffing};
use policy::Policy;
use rotation::{MoveList, rotation_of};
use runs::{boards_keep_bounds, boards_keep_laws};

/// A board: the workers' lists, the tenants' policy, and what was done since it settled.
#[derive(Drop)]
pub struct Board<P> {
    pub(crate) policy: P,
    pub(crate) table: Table,
}

impl<P: Policy> Board<P> {
    /// A settled board with a first event number, and how many rounds the settling took.
    pub fn make(lists: Lists, policy: P, first: u64) -> (Board<P>, u16)
        ensures state { state result.0.table ≡ made (market lists) (P.Policy.chosen policy) first }
        ensures after { After (P.Policy.chosen policy) first [] result.0.table }
        ensures lists { result.0.table.lists ≡ lists }
        ensures policy { result.0.policy ≡ policy }
        ensures rounds { result.1 ≡ settled_rounds (market lists) (P.Policy.chosen policy) }
        ensures stable { Stable (market lists) (P.Policy.chosen policy) (place (state result.0.table).placement) }
        ensures best { WorkerBest (market lists) (P.Policy.chosen policy) (place (state result.0.table).placement) }
        ensures given { Given (market lists) (P.Policy.chosen policy) }
        ensures laws { BoardLaws }
        ensures bounds { BoardBounds }
    {
        boards_keep_laws();
        boards_keep_bounds();
        let farm = Farm {
            lists: &lists,
            policy: &policy,
        };
        let found = farm.settle();
        let table = Table::new(lists, found.placement, first);
        (Board { policy, table }, found.rounds)
    }

    /// Drains the rotation of a worker: one event, with the ticket of the drain. Refused where a
    /// drain is set, then where the worker is on no rotation, then where numbers are short for the
    /// event and the moves; the ticket is blank then.
    // Kept: the ticket stands beside the answer, so that there is one in any case, and a refused
    // open answers a blank one.
    #[tactic(auto, using(crate::proofs::Going::goes_on))]
    pub fn open(&mut self, worker: u8, slip: &mut [Event; 64]) -> (Result<u8, Refusal>, Ticket)
        ensures done { CallDone P.Policy.chosen (open_for worker) self.old self.new result.0 slip.old slip.new }
        ensures ticket { ticket_said result.1 ≡ ticket_of (called (P.Policy.chosen self.old.policy) self.old.table (open_for worker)).1 }
    {
        let number = self.table.next;
        let size = self.offer(worker);
        let answer = self.table.answer(Call::Open { worker, size }, slip);
        let ticket = match answer {
            Ok(_) => Ticket::of(number),
            Err(_) => Ticket::blank(),
        };
        (answer, ticket)
    }

    /// Makes the moves of the drained rotation, one event each by rising worker number; the
    /// rotation stands then. Refused where no drain is set, then where the ticket is blank or not
    /// that of the drain. The ticket is spent in any case.
    #[tactic(auto, using(crate::proofs::Going::goes_on))]
    pub fn commit(&mut self, ticket: Ticket, slip: &mut [Event; 64]) -> Result<u8, Refusal>
        ensures { CallDone P.Policy.chosen (commit_by (ticket_said ticket)) self.old self.new result slip.old slip.new }
    {
        let ticket = ticket.spend();
        self.table.answer(Call::Commit { ticket }, slip)
    }

    /// Lets the drain go, without an event. Refused like a commit, and the ticket is spent too.
    #[tactic(auto, using(crate::proofs::Going::goes_on))]
    pub fn withdraw(&mut self, ticket: Ticket) -> Result<u8, Refusal>
        ensures { CallDone P.Policy.chosen (withdraw_by (ticket_said ticket)) self.old self.new result [] [] }
    {
        let ticket = ticket.spend();
        let mut slip = [Event::default(); 64];
        self.table.answer(Call::Withdraw { ticket }, &mut slip)
    }

    /// Takes the last standing rotation back. Refused where a drain is set, then where no rotation
    /// stands, then where numbers are short for its moves.
    #[tactic(auto, using(crate::proofs::Going::goes_on))]
    pub fn back(&mut self, slip: &mut [Event; 64]) -> Result<u8, Refusal>
        ensures { CallDone P.Policy.chosen back_by self.old self.new result slip.old slip.new }
    {
        self.table.answer(Call::Back, slip)
    }

    /// Returns every worker to where the board settled, with no drain and no standing rotation.
    /// Refused where numbers are short for the workers that return.
    #[tactic(auto, using(crate::proofs::Going::goes_on))]
    pub fn rewind(&mut self, slip: &mut [Event; 64]) -> Result<u8, Refusal>
        ensures { CallDone P.Policy.chosen rewind_by self.old self.new result slip.old slip.new }
    {
        self.table.answer(Call::Rewind, slip)
    }

    // Lays the moves of a worker's rotation behind the standing ones, unless a drain is set: how
    // many there are, if the worker is on one.
    fn offer(&mut self, worker: u8) -> Option<u8>
        ensures same { Becomes self.old.table self.new.table (state self.old.table) }
        ensures policy { self.new.policy ≡ self.old.policy }
        ensures ready { IfSome result (Drainable self.new.table) }
        ensures asked { answered self.new.table (Open worker result) ≡ called (P.Policy.chosen self.old.policy) self.old.table (open_for worker) }
    {
        if self.table.drain.is_some() {
            return None;
        }
        let staffing = Staffing::new(self.table.current);
        let moves = self.rotation(&staffing, worker)?;
        Some(self.table.lay(&moves))
    }

    // The rotation of a worker. Kept: a situation lends what stands in the function that makes it, so
    // each function makes its own.
    fn rotation(&self, staffing: &Staffing, worker: u8) -> Option<MoveList>
        ensures { shown result ≡ rotation_at (market self.now.table.lists) (P.Policy.chosen self.now.policy) (place staffing.now.placement.places) worker }
    {
        let farm = Farm {
            lists: &self.table.lists,
            policy: &self.policy,
        };
        let now = Situation {
            farm: &farm,
            staffing,
        };
        rotation_of(&now, worker)
    }
}
