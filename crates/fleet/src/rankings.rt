// What can be asked of a ranking, and how it grows.
ghost use Rattle.std.specs.Prelude.{◌≡◌, ◌<◌, ◌==◌, false, [], ◌∷◌, ◌++◌, length, position};
ghost use Rattle.std.specs.List.{slice_get};
ghost use Rattle.fleet.specs.Sets.{among, all_under};
ghost use Rattle.fleet.specs.Market.{rank};
ghost use Rattle.fleet.specs.Rankings.{listed, push_answer, pushing, pushed};

use crate::ranking::{Ranking, Refusal};

impl<const N: usize> Ranking<N> {
    /// The ranking of nothing.
    pub fn empty() -> Ranking<N>
        ensures { listed result ≡ [] }
    {
        Ranking {
            len: 0,
            items: [0; N],
        }
    }

    /// The ranked numbers, best first.
    pub fn as_slice(&self) -> &[u8]
        ensures { result.now ≡ listed self.now }
    {
        &self.items[..self.len]
    }

    /// How many numbers are ranked.
    pub fn len(&self) -> usize
        ensures { result ≡ length (listed self.now) }
    {
        self.as_slice().len()
    }

    /// The number at a place, 0 for the best.
    pub fn get(&self, place: usize) -> Option<u8>
        ensures { result ≡ slice_get (listed self.now) place }
    {
        self.as_slice().get(place).copied()
    }

    /// The place of a number, or the count of those ranked where it is not among them.
    pub fn rank(&self, number: u8) -> usize
        ensures { result ≡ rank (listed self.now) number }
    {
        rank_among(self.as_slice(), number)
    }

    /// Is the number ranked?
    #[tactic(auto, using(crate::proofs::Different::among_on))]
    pub fn contains(&self, number: u8) -> bool
        ensures { result ≡ among (listed self.now) number }
    {
        // Kept apart: a short ranking is looked through until the number comes, a long one group by group, since either takes less time there.
        if N <= 16 {
            self.rank(number) < self.len()
        } else {
            self.as_slice().contains(&number)
        }
    }

    /// Are all numbers of the ranking below the bound?
    pub fn is_under(&self, bound: u8) -> bool
        ensures { result ≡ all_under bound (listed self.now) }
    {
        self.as_slice().iter().all(|one| *one < bound)
    }

    /// Ranks a number last. A number at or past `N` is refused, then one that is there already;
    /// nothing changes then.
    pub fn push(&mut self, number: u8) -> Result<(), Refusal>
        ensures answer { push_answer result ≡ pushing N (listed self.old) number }
        ensures after { listed self.new ≡ pushed N (listed self.old) number }
    {
        if number as usize >= N {
            return Err(Refusal::OutOfRange);
        }
        if self.contains(number) {
            return Err(Refusal::Repeated);
        }
        self.append(number);
        Ok(())
    }

    /// Ranks a number last. There is room: a full ranking has every number below `N`.
    fn append(&mut self, number: u8)
        requires { (number < N) × (among (listed self.old) number ≡ false) }
        ensures { listed self.new ≡ listed self.old ++ (number ∷ []) }
    {
        self.items[self.len] = number;
        self.len += 1;
    }
}

/// The place of a number among others, or the count of these where it is not among them.
fn rank_among(numbers: &[u8], number: u8) -> usize
    ensures { result ≡ rank numbers.now number }
{
    place_among(numbers, number).unwrap_or(numbers.len())
}

// A function of its own, since the search knows what `position` finds only where nothing follows it.
/// The place of the first of the numbers that is this one.
fn place_among(numbers: &[u8], number: u8) -> Option<usize>
    ensures { result ≡ position (λ one. one == number) numbers.now }
{
    numbers.iter().position(|one| *one == number)
}
