// Making, reading and asking a sheet.
ghost use Rattle.std.specs.Prelude.{◌≡◌, ◌≤◌, [], ◌∷◌, replicate, OnErr};
ghost use Rattle.fleet.specs.Sets.{among};
ghost use Rattle.fleet.specs.Lists.{market};
ghost use Rattle.fleet.specs.Members.{members};
ghost use Rattle.fleet.specs.Rankings.{listed};
ghost use Rattle.policy.specs.Ranks.{ranks};
ghost use Rattle.policy.specs.Seats.{seats};
ghost use Rattle.policy.specs.Entries.{tables};
ghost use Rattle.sheet.specs.Reading.{decode};
ghost use Rattle.sheet.specs.Says.{text, one_worker_text, market_said, policy_of, policy_said, read_told};
ghost use Rattle.sheet.specs.Laws.{ReadsExactly, WrittenLaw};
ghost use Rattle.sheet.specs.Sheets.{encode};
ghost use Rattle.sheet.specs.Writes.{write_told, write_answer, written_over};

use crate::faults::SheetFault;
use crate::reading::read_sheet;
use crate::sheet::Sheet;
use crate::tenants::Tenants;
use fleet::{Lists, Ranking, WorkerSet};
use policy::{Pair, Quarantine, Ranked, Seated, Table};

/// Why a sheet is not written.
#[derive(Clone, Copy, PartialEq, Eq, Debug)]
pub enum WriteRefusal {
    /// The buffer is shorter than the sheet.
    NoRoom,
}

// A lemma: the lists of a sheet are those that it says. It speaks of the sheet alone, so that what `lists` hands out is held against it.
fn lists_are_said(sheet: &Sheet)
    ensures { market sheet.now.lists ≡ market_said (text sheet.now) }
{}

// A lemma: the tenants of a sheet, with its quarantine held back, are the policy that it says. It asks who is held, so that what `policy` holds back is checked at its call.
fn policy_is_said(sheet: &Sheet, held: WorkerSet)
    requires { members held ≡ among (listed sheet.now.quarantine) }
    ensures { policy_of (members held) sheet.now.tenants.ranked sheet.now.tenants.seated sheet.now.tenants.tables ≡ policy_said (text sheet.now) }
{}

/// The tenants of a sheet with one ranked tenant of this cap, whose list is empty.
fn one_tenant(cap: u8) -> Tenants
    requires { «cap» ≤ 64 }
    ensures ranked { ranks result.ranked ≡ record { cap = «cap»; list = [] } ∷ [] }
    ensures others { (seats result.seated ≡ []) × (tables result.tables ≡ []) }
    ensures classes { result.seated.common.classes ≡ replicate 64 0 }
{
    let mut ranked = Ranked::empty();
    ranked.push(cap, Ranking::empty()).unwrap();
    Tenants {
        ranked,
        seated: Seated::new([0; 64]).unwrap(),
        tables: Table::empty(),
    }
}

/// The sheet of one worker and one ranked tenant of this cap, whose lists are empty.
fn one_worker(cap: u8) -> Sheet
    requires { «cap» ≤ 64 }
    ensures { text result ≡ one_worker_text «cap» }
{
    Sheet {
        lists: Lists::new(1, 1).unwrap(),
        tenants: one_tenant(cap),
        quarantine: Ranking::empty(),
    }
}

/// Puts bytes in front of a buffer, and answers how many there are. Into a shorter buffer nothing is put.
fn put_in_front(bytes: &[u8], buffer: &mut [u8]) -> Result<usize, WriteRefusal>
    ensures value { write_told result ≡ write_answer bytes.now buffer.old }
    ensures after { buffer.new ≡ written_over bytes.now buffer.old }
{
    // The length is asked first: of a part that `get_mut` lends it is not known what the buffer keeps where there is none.
    let len = bytes.len();
    if buffer.len() < len {
        return Err(WriteRefusal::NoRoom);
    }
    buffer[..len].copy_from_slice(bytes);
    Ok(len)
}

/// The set of the workers of a ranking; all are below 64, so none is left out.
fn set_of(ranking: &Ranking<64>) -> WorkerSet
    ensures { members result ≡ among (listed ranking.now) }
{
    WorkerSet::from(ranking.as_slice())
}

impl Sheet {
    /// A sheet of one worker of class 0 and one ranked tenant of cap 0; all lists are empty.
    pub fn blank() -> Sheet
        ensures { text result ≡ one_worker_text 0 }
    {
        one_worker(0)
    }

    /// The workers' lists.
    pub fn lists(&self) -> Lists
        ensures { market result ≡ market_said (text self.now) }
    {
        lists_are_said(self);
        self.lists
    }

    /// The policy of the tenants: the ranked ones first, then the seated ones, then the tables, and nobody of the quarantine is put to them.
    pub fn policy(&self) -> Quarantine<Pair<Ranked, Pair<Seated, Table>>>
        ensures { policy_of (members result.held) result.below.first result.below.second.first result.below.second.second ≡ policy_said (text self.now) }
    {
        let held = set_of(&self.quarantine);
        policy_is_said(self, held);
        let Tenants {
            ranked,
            seated,
            tables,
        } = self.tenants;
        let kinds = Pair {
            first: ranked,
            second: Pair {
                first: seated,
                second: tables,
            },
        };
        Quarantine { held, below: kinds }
    }

    /// Writes the sheet in front of a buffer, and answers how many bytes it has, at most 5,624. Into a shorter buffer nothing is written.
    pub fn write(&self, buffer: &mut [u8]) -> Result<usize, WriteRefusal>
        ensures value { write_told result ≡ write_answer (encode (text self.now)) buffer.old }
        ensures after { buffer.new ≡ written_over (encode (text self.now)) buffer.old }
        ensures law { WrittenLaw (text self.now) }
    {
        put_in_front(self.encoded().as_slice(), buffer)
    }

    /// Reads a sheet. On a fault the sheet stays as it was.
    pub fn read(&mut self, bytes: &[u8]) -> Result<(), SheetFault>
        ensures value { read_told result (text self.new) ≡ decode bytes.now }
        ensures kept { OnErr result (self.new ≡ self.old) }
        ensures exact { ReadsExactly bytes.now }
    {
        *self = read_sheet(bytes)?;
        Ok(())
    }
}
