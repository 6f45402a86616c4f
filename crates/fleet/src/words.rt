// Sets of the numbers 0 to 63 as the bits of one word: number w is a member where bit w is set. Kept apart from the sets of workers: what the operations on
// bits do is proved here, and the methods of a set follow from these contracts with no proof of their own.
ghost use Rattle.std.specs.Prelude.{◌≡◌, Decides};
ghost use Rattle.fleet.specs.Sets.{nobody, with_worker, singleton, union, minus, Within, size, lowest};
ghost use Rattle.fleet.specs.Members.{bit};

/// The word without members.
pub(crate) fn empty() -> u64
    ensures { bit result ≡ nobody }
{
    0
}

/// Is the number a member?
pub(crate) fn contains(word: u64, number: u8) -> bool
    ensures { result ≡ bit word number }
{
    number < 64 && (word >> number) & 1 == 1
}

/// The word with the number as a member too; one past 63 adds nothing.
pub(crate) fn insert(word: u64, number: u8) -> u64
    ensures { bit result ≡ with_worker (bit word) number }
{
    if number >= 64 {
        return word;
    }
    word | (1 << number)
}

/// The word without the number.
pub(crate) fn remove(word: u64, number: u8) -> u64
    ensures { bit result ≡ minus (bit word) (singleton number) }
{
    if number >= 64 {
        return word;
    }
    word & !(1 << number)
}

/// The members of either word.
pub(crate) fn union(word: u64, other: u64) -> u64
    ensures { bit result ≡ union (bit word) (bit other) }
{
    word | other
}

/// The members that the other word does not have.
pub(crate) fn minus(word: u64, other: u64) -> u64
    ensures { bit result ≡ minus (bit word) (bit other) }
{
    word & !other
}

/// Is every member a member of the other word?
pub(crate) fn is_within(word: u64, other: u64) -> bool
    ensures { Decides result (Within (bit word) (bit other)) }
{
    minus(word, other) == 0
}

/// How many members there are.
pub(crate) fn count(word: u64) -> u8
    ensures { result ≡ size (bit word) }
{
    word.count_ones() as u8
}

/// The lowest member.
pub(crate) fn lowest(word: u64) -> Option<u8>
    ensures { result ≡ lowest 64 (bit word) }
{
    let low = word.trailing_zeros() as u8;
    if low < 64 { Some(low) } else { None }
}
