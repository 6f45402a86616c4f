// Why a table of choices is refused.

/// A law that two entries of a table can break, by the number of its fault.
#[derive(Clone, Copy, PartialEq, Eq, Debug)]
pub enum TableLaw {
    /// Who is chosen out of many is chosen out of fewer.
    Substitutability = 21,
    /// No fewer are chosen out of more.
    Monotonicity = 22,
    /// Leaving out those who are not chosen changes nothing.
    Consistency = 23,
}

/// Why a table is refused.
#[derive(Clone, Copy, PartialEq, Eq, Debug)]
pub enum TableFault {
    /// There are more than eight workers.
    Workers,
    /// There are not as many entries as there are sets of the workers.
    Entries,
    /// The entry at this index chooses a worker who is not in its set.
    Outside { index: u8 },
    /// The entries at these indices, of a set and of a part of it, break the law.
    Broken { law: TableLaw, whole: u8, part: u8 },
}
