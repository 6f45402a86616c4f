// How a Ranked policy is made and grows, and what its tenants choose.
ghost use Rattle.std.specs.Prelude.{◌≡◌, leb, []};
ghost use Rattle.fleet.specs.Rankings.{listed};
ghost use Rattle.policy.specs.Kinds.{ranked, RankedRule};
ghost use Rattle.policy.specs.Rosters.{push_answer, adding, added};
ghost use Rattle.policy.specs.Laws.{RankedCount};
ghost use Rattle.policy.specs.Ranks.{rank_rule, ranks};
ghost use Rattle.policy.specs.RanksLemmas.{ranked_lawful};

use crate::ranked::{Ranked, RankedTenant};
use crate::refusal::PolicyRefusal;
use crate::roster::Roster;
use crate::tenant::Tenant;
use fleet::{Ranking, WorkerSet};

impl Tenant for RankedTenant {
    type Common = ();

    ghost Rule = { RankedRule };

    ghost rule = { rank_rule };

    ghost choice = { λ _ r. ranked r.cap r.list };

    ghost lawful = { λ _ t. ranked_lawful t.cap _ t.list.apart };

    fn blank() -> RankedTenant {
        RankedTenant {
            cap: 0,
            list: Ranking::empty(),
        }
    }

    fn choose(&self, _common: &(), of: WorkerSet) -> WorkerSet {
        self.list
            .as_slice()
            .iter()
            .filter(|worker| of.contains(**worker))
            .take(self.room())
            .fold(WorkerSet::empty(), |chosen, worker| chosen.with(*worker))
    }
}

impl RankedTenant {
    /// How many workers there is room for.
    fn room(&self) -> usize
        ensures { result ≡ self.now.cap }
    {
        usize::from(self.cap)
    }

    /// How many workers the tenant takes at most.
    pub fn cap(&self) -> u8
        ensures { result ≡ (rank_rule self.now).cap }
    {
        self.cap
    }

    /// The workers that the tenant takes, best first.
    pub fn list(&self) -> &Ranking<64>
        ensures { listed result.now ≡ (rank_rule self.now).list }
    {
        &self.list
    }
}

impl Ranked {
    /// The policy without tenants. A tenant will choose as many as its list has in the set, up to
    /// its cap.
    // Kept beside that of tables: this one says the law of ranked tenants.
    pub fn empty() -> Ranked
        ensures none { ranks result ≡ [] }
        ensures law { RankedCount }
    {
        Roster::of_nobody(())
    }

    /// Adds a tenant. A cap past 64 is refused, then a 17th tenant; nothing changes then.
    pub fn push(&mut self, cap: u8, list: Ranking<64>) -> Result<(), PolicyRefusal>
        ensures answer { push_answer result ≡ adding (leb «cap» 64) (ranks self.old) }
        ensures after { ranks self.new ≡ added (leb «cap» 64) (ranks self.old) (record { cap = «cap»; list = listed list }) }
    {
        if cap > 64 {
            return Err(PolicyRefusal::Cap);
        }
        self.add(RankedTenant { cap, list })
    }
}
