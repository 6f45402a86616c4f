// How a Seated policy is made and grows, and what its tenants choose.
ghost use Rattle.std.specs.Prelude.{◌≡◌, ℕ, ◌<◌, true, ◌&&◌, ltb, nat_le, nat_lt, slice_index};
ghost use Rattle.fleet.specs.Sets.{all_under};
ghost use Rattle.fleet.specs.Rankings.{listed};
ghost use Rattle.policy.specs.Kinds.{seated, SeatedRule};
ghost use Rattle.policy.specs.Rosters.{push_answer, adding, added};
ghost use Rattle.policy.specs.Laws.{SeatedCount};
ghost use Rattle.policy.specs.Seats.{seat_rule, seats, new_answer, making};
ghost use Rattle.policy.specs.SeatsLemmas.{seated_lawful};

use crate::refusal::PolicyRefusal;
use crate::roster::Roster;
use crate::seated::{Classes, Seated, SeatedTenant};
use crate::tenant::Tenant;
use fleet::{Ranking, WorkerSet};

// Kept beside the test of rankings: it is asked of any numbers, and says the bound of each, which classes and caps need.
/// Are all the numbers below the bound?
fn all_below(bound: u8, numbers: &[u8]) -> bool
    requires { 0 < bound }
    ensures test { result ≡ all_under bound numbers.now }
    ensures each { result ≡ true → (i : ℕ) → slice_index numbers.now i < bound }
{
    numbers.iter().all(|number| *number < bound)
}

impl Classes {
    /// The class of a worker.
    fn class_of(&self, worker: u8) -> usize
        requires { worker < 64 }
        ensures { result ≡ slice_index self.now.classes worker }
    {
        self.classes[worker as usize] as usize
    }
}

/// Is there a seat for one more, among all and in its class?
fn has_seat(taken: u8, overall: u8, in_class: u8, cap: u8) -> bool
    ensures { result ≡ (nat_lt taken overall && ltb in_class «cap») }
{
    taken < overall && in_class < cap
}

impl Tenant for SeatedTenant {
    type Common = Classes;

    ghost Rule = { SeatedRule };

    ghost rule = { seat_rule };

    ghost choice = { λ c r. seated c.classes r.overall r.caps r.list };

    ghost lawful = { λ c t. seated_lawful c.classes t.overall t.caps (listed t.list) c.known t.list.apart };

    fn blank() -> SeatedTenant {
        SeatedTenant {
            overall: 0,
            caps: [0; 8],
            list: Ranking::empty(),
        }
    }

    // Kept: a loop with counts beside it, since seats are counted by class on the way.
    fn choose(&self, common: &Classes, of: WorkerSet) -> WorkerSet {
        let mut chosen = WorkerSet::empty();
        let mut taken = 0;
        let mut by_class = [0; 8];
        for worker in self.list.as_slice() {
            if of.contains(*worker) {
                let class = common.class_of(*worker);
                if has_seat(taken, self.overall, by_class[class], self.caps[class]) {
                    chosen = chosen.with(*worker);
                    taken += 1;
                    by_class[class] += 1;
                }
            }
        }
        chosen
    }
}

impl SeatedTenant {
    /// How many workers the tenant takes at most.
    pub fn overall(&self) -> u8
        ensures { result ≡ (seat_rule self.now).overall }
    {
        self.overall
    }

    /// How many workers of each class the tenant takes at most.
    pub fn caps(&self) -> &[u8; 8]
        ensures { result.now ≡ (seat_rule self.now).caps }
    {
        &self.caps
    }

    /// The workers that the tenant takes, best first.
    pub fn list(&self) -> &Ranking<64>
        ensures { listed result.now ≡ (seat_rule self.now).list }
    {
        &self.list
    }
}

impl Seated {
    /// The policy without tenants, for workers of these classes. A class past 7 is refused. A tenant
    /// will choose as many as its list has in the set, of each class up to its cap, and of all
    /// together up to the overall cap.
    pub fn new(classes: [u8; 64]) -> Result<Seated, PolicyRefusal>
        ensures answer { new_answer result ≡ making classes }
        ensures law { SeatedCount }
    {
        if all_below(8, &classes) {
            Ok(Roster::of_nobody(Classes { classes }))
        } else {
            Err(PolicyRefusal::Class)
        }
    }

    /// Adds a tenant. A cap past 64 is refused, then a 17th tenant; nothing changes then.
    pub fn push(
        &mut self,
        overall: u8,
        caps: [u8; 8],
        list: Ranking<64>,
    ) -> Result<(), PolicyRefusal>
        ensures answer { push_answer result ≡ adding (nat_le overall 64 && all_under 65 caps) (seats self.old) }
        ensures after { seats self.new ≡ added (nat_le overall 64 && all_under 65 caps) (seats self.old) (record { overall = overall; caps = caps; list = listed list }) }
        ensures same { self.new.common.classes ≡ self.old.common.classes }
    {
        if overall <= 64 && all_below(65, &caps) {
            self.add(SeatedTenant {
                overall,
                caps,
                list,
            })
        } else {
            Err(PolicyRefusal::Cap)
        }
    }

    /// The classes of the workers, by worker number.
    pub fn classes(&self) -> &[u8; 64]
        ensures { result.now ≡ self.now.common.classes }
    {
        &self.common.classes
    }
}
