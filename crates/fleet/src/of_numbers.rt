// Rankings and sets that are made of numbers.
ghost use Rattle.std.specs.Prelude.{◌≡◌, []};
ghost use Rattle.fleet.specs.Members.{members};
ghost use Rattle.fleet.specs.OfNumbers.{workers_among, ranking_told, ranking_all};

use crate::ranking::{Ranking, Refusal};
use crate::sets::Workers;
use crate::worker_set::WorkerSet;

/// The ranking of these numbers, best first; the first that cannot be ranked behind the others is refused.
impl<const N: usize> TryFrom<&[u8]> for Ranking<N> {
    type Error = Refusal;

    ghost try_from_gives = { λ numbers r. ranking_told r ≡ ranking_all N [] numbers.now };

    #[tactic(auto, using(crate::proofs::OfNumbers::all_pushed))]
    fn try_from(numbers: &[u8]) -> Result<Ranking<N>, Refusal> {
        let mut ranking: Ranking<N> = Ranking::empty();
        for number in numbers {
            ranking.push(*number)?;
        }
        Ok(ranking)
    }
}

/// The set of these workers; a number past 63 adds nothing.
impl From<&[u8]> for WorkerSet {
    ghost from_gives = { λ numbers set. members set ≡ workers_among numbers.now };

    fn from(numbers: &[u8]) -> WorkerSet {
        set_of(numbers)
    }
}

// The set of these workers: the body of `From`, with the contract that its loop is proved by.
fn set_of(numbers: &[u8]) -> WorkerSet
    ensures { members result ≡ workers_among numbers.now }
{
    let mut set = WorkerSet::empty();
    for number in numbers {
        set = set.with(*number);
    }
    set
}

/// A set gives its members by rising number.
impl IntoIterator for WorkerSet {
    type Item = u8;

    type IntoIter = Workers;

    ghost use Rattle.fleet.specs.Members.{coming};

    ghost into_iter_gives = { λ set workers. coming workers ≡ members set };

    fn into_iter(self) -> Workers {
        self.iter()
    }
}
