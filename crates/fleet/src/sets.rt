// What can be asked of a set of workers, and its members by rising number.
ghost use Rattle.std.specs.Prelude.{◌≡◌, ◌<◌, Some, Decides};
ghost use Rattle.fleet.specs.Sets.{nobody, with_worker, singleton, union, minus, Within, size, lowest};
ghost use Rattle.fleet.specs.Members.{members, coming, Gives};
ghost use Rattle.std.specs.Iterator.{at_most};

use crate::words;
use crate::worker_set::WorkerSet;

impl WorkerSet {
    /// The set without members.
    pub fn empty() -> WorkerSet
        ensures { members result ≡ nobody }
    {
        WorkerSet {
            bits: words::empty(),
        }
    }

    /// Is the worker a member?
    pub fn contains(self, worker: u8) -> bool
        ensures { result ≡ members self worker }
    {
        words::contains(self.bits, worker)
    }

    /// The set with the worker as a member too; a number past 63 adds nothing.
    pub fn with(self, worker: u8) -> WorkerSet
        ensures { members result ≡ with_worker (members self) worker }
    {
        WorkerSet {
            bits: words::insert(self.bits, worker),
        }
    }

    /// The set without the worker.
    pub fn without(self, worker: u8) -> WorkerSet
        ensures { members result ≡ minus (members self) (singleton worker) }
    {
        WorkerSet {
            bits: words::remove(self.bits, worker),
        }
    }

    /// The members of either set.
    pub fn union(self, other: WorkerSet) -> WorkerSet
        ensures { members result ≡ union (members self) (members other) }
    {
        WorkerSet {
            bits: words::union(self.bits, other.bits),
        }
    }

    /// The members that the other set does not have.
    pub fn minus(self, other: WorkerSet) -> WorkerSet
        ensures { members result ≡ minus (members self) (members other) }
    {
        WorkerSet {
            bits: words::minus(self.bits, other.bits),
        }
    }

    /// Is every member a member of the other set?
    pub fn is_within(self, other: WorkerSet) -> bool
        ensures { Decides result (Within (members self) (members other)) }
    {
        words::is_within(self.bits, other.bits)
    }

    /// How many members there are.
    pub fn len(self) -> u8
        ensures { result ≡ size (members self) }
    {
        words::count(self.bits)
    }

    /// The member with the lowest number.
    pub fn lowest(self) -> Option<u8>
        ensures { result ≡ lowest 64 (members self) }
    {
        words::lowest(self.bits)
    }

    /// The set without its lowest member, which leaves fewer.
    fn without_lowest(self, worker: u8) -> WorkerSet
        requires { Some worker ≡ lowest 64 (members self) }
        ensures others { members result ≡ minus (members self) (singleton worker) }
        ensures fewer { size (members result) < size (members self) }
    {
        self.without(worker)
    }

    /// The members by rising number.
    pub fn iter(self) -> Workers
        ensures { coming result ≡ members self }
    {
        Workers { rest: self }
    }
}

/// The members of a set that are still to come, by rising number.
#[derive(Clone, Copy)]
pub struct Workers {
    pub(crate) rest: WorkerSet,
}

impl Iterator for Workers {
    type Item = u8;

    ghost next_gives = { λ s r t. Gives (coming s) r (coming t) };

    ghost remaining = { λ s. at_most (size (coming s)) };

    fn next(&mut self) -> Option<u8> {
        let found = self.rest.lowest();
        if let Some(worker) = found {
            self.rest = self.rest.without_lowest(worker);
        }
        found
    }
}
