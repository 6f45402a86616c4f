// The search for the first entries of a table that break a law.
ghost use Rattle.std.specs.Prelude.{◌≡◌, ◌<◌, ◌≤◌, length, None, nat_eq};
ghost use Rattle.policy.specs.Search.{seek, seek_pair};
ghost use Rattle.policy.specs.Tables.{bits_within, outside, table_length};
ghost use Rattle.policy.specs.Faults.{breaks, law_fault as defined_law_fault, entries_fault as defined_entries_fault};

use crate::fault::{TableFault, TableLaw};

// The nine lengths that a table can have stand here once: the workers and entries of a table over 0 to 8 workers, counted together.
const LENGTHS: [u16; 9] = [1, 3, 6, 11, 20, 37, 70, 135, 264];

/// The workers and entries of a table over so many workers, counted together.
fn length_of(workers: u8) -> u16
    requires { workers < 9 }
    ensures { result ≡ table_length workers }
{
    LENGTHS[workers as usize]
}

// Kept here and in `first_outside`: numbers are searched, since the number is what is looked for.
/// How many workers a table has whose workers and entries are so many together.
pub fn workers_of(total: u16) -> Option<u8>
    ensures { result ≡ seek 9 0 (λ n. nat_eq (table_length n) total) }
{
    (0..9).find(|&workers| length_of(workers) == total)
}

/// Is every bit of the one a bit of the other?
fn is_within(one: usize, other: usize) -> bool
    ensures { result ≡ bits_within one other }
{
    one & other == one
}

/// Do the entries of a set and of a part of it break the law?
fn is_broken(law: TableLaw, entries: &[u8], whole: usize, part: usize) -> bool
    requires { (whole < length entries.now) × (part < length entries.now) }
    ensures { result ≡ breaks law entries.now whole part }
{
    let chosen = entries[whole] as usize;
    let of_part = entries[part] as usize;
    if !is_within(part, whole) {
        return false;
    }
    // Kept: one match on the law, as each law is one test of the same two entries.
    match law {
        TableLaw::Substitutability => !is_within(chosen & part, of_part),
        TableLaw::Monotonicity => chosen.count_ones() < of_part.count_ones(),
        TableLaw::Consistency => is_within(chosen, part) && of_part != chosen,
    }
}

/// The least index whose entry is not within it.
fn first_outside(entries: &[u8]) -> Option<usize>
    ensures { result ≡ seek (length entries.now) 0 (outside entries.now) }
{
    (0..entries.len()).find(|&index| !is_within(entries[index] as usize, index))
}

// Kept: two loops, left by the label at the first pair, as the least set comes first and then its least part.
/// The least set, and then its least part, whose entries break the law.
fn first_broken(law: TableLaw, entries: &[u8]) -> Option<(usize, usize)>
    ensures { result ≡ seek_pair (length entries.now) 0 (length entries.now) (breaks law entries.now) }
{
    let count = entries.len();
    let mut found = None;
    'sets: for whole in 0..count {
        for part in 0..count {
            if is_broken(law, entries, whole, part) {
                found = Some((whole, part));
                break 'sets;
            }
        }
    }
    found
}

/// The fault of the first entries that break the law.
fn law_fault(law: TableLaw, entries: &[u8]) -> Option<TableFault>
    requires { length entries.now ≤ 256 }
    ensures { result ≡ defined_law_fault law (length entries.now) entries.now None }
{
    let (whole, part) = first_broken(law, entries)?;
    Some(TableFault::Broken {
        law,
        whole: whole as u8,
        part: part as u8,
    })
}

// The laws stand one by one, in the order in which they are looked at.
/// The first fault of the entries.
pub(crate) fn entries_fault(entries: &[u8]) -> Option<TableFault>
    requires { length entries.now ≤ 256 }
    ensures { result ≡ defined_entries_fault (length entries.now) entries.now }
{
    first_outside(entries)
        .map(|index| TableFault::Outside { index: index as u8 })
        .or_else(|| law_fault(TableLaw::Substitutability, entries))
        .or_else(|| law_fault(TableLaw::Monotonicity, entries))
        .or_else(|| law_fault(TableLaw::Consistency, entries))
}
