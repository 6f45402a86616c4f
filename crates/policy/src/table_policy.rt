// How a table is made and grows, and what its tenants choose.
ghost use Rattle.std.specs.Prelude.{◌≡◌, ℕ, ◌<◌, ◌≤◌, true, [], length, take};
ghost use Rattle.fleet.specs.Sets.{among};
ghost use Rattle.fleet.specs.Market.{different};
ghost use Rattle.fleet.specs.Members.{members};
ghost use Rattle.fleet.specs.Rankings.{listed};
ghost use Rattle.policy.specs.Tables.{index_of, named_by, table_choice, TableRule};
ghost use Rattle.policy.specs.Faults.{table_fault as defined_table_fault};
ghost use Rattle.policy.specs.Rosters.{push_answer, adding, added};
ghost use Rattle.policy.specs.Laws.{SearchLeast};
ghost use Rattle.policy.specs.Entries.{table_rule, tables, new_answer, making};
ghost use Rattle.std.proofs.Common.{arith};
ghost use Rattle.policy.specs.EntriesLemmas.{table_lawful};
ghost use Rattle.policy.specs.Faultless.{faultless};

use crate::fault::TableFault;
use crate::refusal::PolicyRefusal;
use crate::roster::Roster;
use crate::table::{Table, TableTenant};
use crate::table_search::entries_fault;
use crate::tenant::Tenant;
use fleet::{Ranking, WorkerSet};

/// The index of the set: bit i says that the i-th worker is in it.
fn index_of(workers: &[u8], of: WorkerSet) -> usize
    requires { length workers.now ≤ 8 }
    ensures { result ≡ index_of workers.now (members of) }
{
    let mut index = 0;
    for (place, worker) in workers.iter().enumerate() {
        if of.contains(*worker) {
            index += 1 << place;
        }
    }
    index
}

/// The workers that the bits of an entry name: bit i says that the i-th one is chosen.
fn named(workers: &[u8], bits: u8) -> WorkerSet
    requires { (length workers.now ≤ 8) × ((different workers.now ≡ true) × (((w : ℕ) → among workers.now w ≡ true → w < 64))) }
    ensures { members result ≡ named_by workers.now bits }
{
    let mut chosen = WorkerSet::empty();
    for (place, worker) in workers.iter().enumerate() {
        if (bits >> place) & 1 == 1 {
            chosen = chosen.with(*worker);
        }
    }
    chosen
}

/// The entries in front, and zeros behind them.
fn padded(entries: &[u8]) -> [u8; 256]
    requires { length entries.now ≤ 256 }
    ensures { take (length entries.now) result ≡ entries.now }
{
    let mut all = [0; 256];
    all[..entries.len()].copy_from_slice(entries);
    all
}

/// The first fault of a table of these workers and entries.
fn table_fault(workers: &Ranking<64>, entries: &[u8]) -> Option<TableFault>
    ensures fault { result ≡ defined_table_fault (listed workers.now) entries.now }
    ensures law { SearchLeast }
{
    if workers.len() > 8 {
        return Some(TableFault::Workers);
    }
    if entries.len() != 1 << workers.len() {
        return Some(TableFault::Entries);
    }
    entries_fault(entries)
}

impl Tenant for TableTenant {
    type Common = ();

    ghost Rule = { TableRule };

    ghost rule = { table_rule };

    ghost choice = { λ _ r. table_choice r.workers r.entries };

    ghost lawful = { λ _ t.
        let f = faultless (table_rule t).workers (table_rule t).entries t.sound in
        table_lawful (table_rule t).workers (table_rule t).entries (omega (arith, t.few)) t.workers.apart f.lawful };

    fn blank() -> TableTenant {
        TableTenant {
            workers: Ranking::empty(),
            entries: [0; 256],
        }
    }

    fn choose(&self, _common: &(), of: WorkerSet) -> WorkerSet {
        let workers = self.workers.as_slice();
        let index = index_of(workers, of);
        named(workers, self.entries[index])
    }
}

impl TableTenant {
    /// The table of these workers and entries. More than eight workers are refused, then a number of
    /// entries that is not the number of their sets, then the first entry that is not within its
    /// index, and then, law by law, the entries that break it at the least set and its least part.
    pub fn new(workers: Ranking<64>, entries: &[u8]) -> Result<TableTenant, TableFault>
        ensures answer { new_answer result ≡ making (listed workers) entries.now }
        ensures law { SearchLeast }
    {
        match table_fault(&workers, entries) {
            Some(fault) => Err(fault),
            None => Ok(TableTenant {
                workers,
                entries: padded(entries),
            }),
        }
    }

    /// The workers of the table; it chooses no others.
    pub fn workers(&self) -> &Ranking<64>
        ensures { listed result.now ≡ (table_rule self.now).workers }
    {
        &self.workers
    }

    /// The entries, by index.
    pub fn entries(&self) -> &[u8]
        ensures { result.now ≡ (table_rule self.now).entries }
    {
        &self.entries[..1 << self.workers.len()]
    }
}

impl Table {
    /// The policy without tenants.
    pub fn empty() -> Table
        ensures { tables result ≡ [] }
    {
        Roster::of_nobody(())
    }

    /// Adds a tenant; a 17th is refused, and nothing changes then.
    pub fn push(&mut self, tenant: TableTenant) -> Result<(), PolicyRefusal>
        ensures answer { push_answer result ≡ adding true (tables self.old) }
        ensures after { tables self.new ≡ added true (tables self.old) (table_rule tenant) }
    {
        self.add(tenant)
    }
}
