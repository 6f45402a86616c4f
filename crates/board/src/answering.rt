// What a table answers to a call, by its drain and the call together.
ghost use Rattle.std.specs.Prelude.{◌≡◌, [], Some, None};
ghost use Rattle.runs.specs.Calls.{matches, last_of, open_on, committing, withdrawing, back_over, rewind_to};
ghost use Rattle.board.specs.Pieces.{piece};
ghost use Rattle.board.specs.Shown.{standing_in, state, ticket_in, answered, Drainable, Offers};
ghost use Rattle.board.specs.Answers.{Answered};

use crate::call::Call;
use crate::drain::Drained;
use crate::refusal::Refusal;
use crate::slips::{event, write_events};
use crate::table::Table;
use fleet::{Event, EventKind};

impl Table {
    // Opens the drain of a worker's rotation, which has so many moves behind the standing ones.
    pub(crate) fn open(
        &mut self,
        worker: u8,
        size: u8,
        slip: &mut [Event; 64],
    ) -> Result<u8, Refusal>
        requires { Drainable self.old size }
        ensures { Answered self.old self.new result slip.old slip.new (open_on (state self.old) worker (Some (piece self.old.len size self.old.moves))) }
    {
        if self.is_short(1 + size as u64) {
            return Err(Refusal::NumbersShort);
        }
        slip[0] = event(self.next, EventKind::Drain, self.own_move(worker, size));
        self.drain(size);
        Ok(1)
    }

    // Commits the drained rotation.
    fn commit(
        &mut self,
        drained: Drained,
        ticket: Option<u64>,
        slip: &mut [Event; 64],
    ) -> Result<u8, Refusal>
        requires { self.old.drain ≡ Some drained }
        ensures { Answered self.old self.new result slip.old slip.new (committing (state self.old) (piece self.old.len drained.size self.old.moves) (matches (ticket_in ticket) drained.number)) }
    {
        if ticket != Some(drained.number) {
            return Err(Refusal::OtherTicket);
        }
        let moves = self.piece(self.len, drained.size);
        let after = moves.applied_to(&self.current);
        let events = write_events(&moves, self.next, EventKind::Move, slip);
        self.stand(drained, after);
        Ok(events)
    }

    // Withdraws the drained rotation, with no event, so a slip of no entries serves.
    fn withdraw(&mut self, drained: Drained, ticket: Option<u64>) -> Result<u8, Refusal>
        ensures { Answered self.old self.new result [] [] (withdrawing (state self.old) (matches (ticket_in ticket) drained.number)) }
    {
        if ticket != Some(drained.number) {
            return Err(Refusal::OtherTicket);
        }
        self.shut();
        Ok(0)
    }

    // Undoes all that stands and is drained.
    fn rewind(&mut self, slip: &mut [Event; 64]) -> Result<u8, Refusal>
        ensures { Answered self.old self.new result slip.old slip.new (rewind_to (state self.old) self.old.settled.places) }
    {
        let moves = self.returns();
        if self.is_short(moves.as_slice().len() as u64) {
            return Err(Refusal::NumbersShort);
        }
        let events = write_events(&moves, self.next, EventKind::Rewind, slip);
        self.reset(events);
        Ok(events)
    }

    // Takes the last standing rotation back.
    #[tactic(auto, using(crate::proofs::Held::last_is, crate::proofs::Held::last_none, crate::proofs::Held::last_long, crate::proofs::Held::last_inside, crate::proofs::Held::last_few))]
    fn back(&mut self, slip: &mut [Event; 64]) -> Result<u8, Refusal>
        requires { self.old.drain ≡ None }
        ensures { Answered self.old self.new result slip.old slip.new (back_over (state self.old) (last_of (standing_in self.old))) }
    {
        if self.count == 0 {
            return Err(Refusal::NoneStanding);
        }
        let size = self.sizes[self.count - 1];
        if self.is_short(size as u64) {
            return Err(Refusal::NumbersShort);
        }
        let moves = self.piece(self.len - size as usize, size).reversed();
        let after = moves.applied_to(&self.current);
        let events = write_events(&moves, self.next, EventKind::Back, slip);
        self.fall(size, after);
        Ok(events)
    }

    // Answers a call in plain numbers. Kept: one match on the drain and the call together, so that what is done in each case is read in one place.
    pub(crate) fn answer(&mut self, call: Call, slip: &mut [Event; 64]) -> Result<u8, Refusal>
        requires { Offers self.old call }
        ensures { Answered self.old self.new result slip.old slip.new (answered self.old call) }
    {
        match (self.drain, call) {
            (None, Call::Open { size: None, .. }) => Err(Refusal::NoRotation),
            (
                None,
                Call::Open {
                    worker,
                    size: Some(size),
                },
            ) => self.open(worker, size, slip),
            (None, Call::Commit { .. } | Call::Withdraw { .. }) => Err(Refusal::NoDrain),
            (None, Call::Back) => self.back(slip),
            (Some(_), Call::Open { .. } | Call::Back) => Err(Refusal::DrainSet),
            (Some(drained), Call::Commit { ticket }) => self.commit(drained, ticket, slip),
            (Some(drained), Call::Withdraw { ticket }) => self.withdraw(drained, ticket),
            (_, Call::Rewind) => self.rewind(slip),
        }
    }
}
