// Making, changing and reading the workers' lists.
ghost use Rattle.std.specs.Prelude.{◌≡◌, ◌<◌, ◌≤◌, true};
ghost use Rattle.fleet.specs.Sets.{all_under};
ghost use Rattle.fleet.specs.Market.{Sound};
ghost use Rattle.fleet.specs.Rankings.{listed};
ghost use Rattle.fleet.specs.Lists.{market, new_answer, no_lists, making, set_answer, setting, with_list, replaced};

use crate::lists::{Lists, ListsRefusal};
use crate::ranking::Ranking;

impl Lists {
    /// So many workers, all with empty lists, and so many tenants.
    /// A count of workers that is not 1 to 64 is refused, then one of tenants that is not 1 to 16.
    pub fn new(workers: u8, tenants: u8) -> Result<Lists, ListsRefusal>
        ensures { new_answer result ≡ making workers tenants }
    {
        if !(1..=64).contains(&workers) {
            return Err(ListsRefusal::Workers);
        }
        if !(1..=16).contains(&tenants) {
            return Err(ListsRefusal::Tenants);
        }
        Ok(empty_lists(workers, tenants))
    }

    /// Gives a worker another list. An unknown worker is refused, then a ranking with an unknown
    /// tenant; nothing changes then.
    pub fn set(&mut self, worker: u8, ranking: Ranking<16>) -> Result<(), ListsRefusal>
        ensures answer { set_answer result ≡ setting (market self.old) worker (listed ranking) }
        ensures after { market self.new ≡ replaced (market self.old) worker (listed ranking) }
    {
        if worker >= self.workers {
            return Err(ListsRefusal::Worker);
        }
        if !ranking.is_under(self.tenants) {
            return Err(ListsRefusal::Tenant);
        }
        self.replace(worker, ranking);
        Ok(())
    }

    /// Gives a known worker another list, which has known tenants only.
    fn replace(&mut self, worker: u8, ranking: Ranking<16>)
        requires known { worker < self.old.workers }
        requires under { all_under self.old.tenants (listed ranking) ≡ true }
        ensures { market self.new ≡ with_list (market self.old) worker (listed ranking) }
    {
        self.rows[worker as usize] = ranking;
    }

    /// How many workers there are; the lists are sound.
    pub fn workers(&self) -> u8
        ensures value { result ≡ (market self.now).workers }
        ensures sound { Sound (market self.now) }
    {
        self.workers
    }

    /// How many tenants there are.
    pub fn tenants(&self) -> u8
        ensures { result ≡ (market self.now).tenants }
    {
        self.tenants
    }

    /// The worker's ranking of tenants, an empty one where there is no such worker.
    pub fn list(&self, worker: u8) -> Ranking<16>
        ensures { listed result ≡ (market self.now).list worker }
    {
        if worker < self.workers {
            self.rows[worker as usize]
        } else {
            Ranking::empty()
        }
    }
}

/// So many workers, all with empty lists, and so many tenants.
fn empty_lists(workers: u8, tenants: u8) -> Lists
    requires manned { 1 ≤ workers }
    requires crew { workers ≤ 64 }
    requires hosted { 1 ≤ tenants }
    requires hosts { tenants ≤ 16 }
    ensures { market result ≡ no_lists workers tenants }
{
    let row = Ranking::empty();
    Lists {
        workers,
        tenants,
        rows: [row; 64],
    }
}
