// The kinds of field, and which of them are due.
ghost use Rattle.sheet.specs.Fields.{Decodes};

// Kept without its bounds: the field that says the size is read under the size of nothing, so the functions that need bounds ask for them.
/// How many workers and tenants a sheet has.
#[derive(Clone, Copy, PartialEq, Eq, Debug, Default)]
pub struct Size {
    pub workers: u8,
    pub tenants: u8,
}

/// The kinds of field, by tag.
#[derive(Clone, Copy, PartialEq, Eq, Debug)]
pub enum Kind {
    /// How many workers and tenants there are.
    Counts = 1,
    /// A worker: its class and its list of tenants.
    Worker = 2,
    /// A tenant that takes the first so many of a list of workers.
    Ranked = 3,
    /// A tenant that also has caps for the classes of workers.
    Seated = 4,
    /// A tenant whose choice is written down for each set of a few workers.
    Table = 5,
    /// The workers in quarantine.
    Quarantine = 6,
}

/// A tag that no kind of field has.
#[derive(Clone, Copy, PartialEq, Eq, Debug)]
pub struct UnknownTag(pub u8);

impl TryFrom<u8> for Kind {
    type Error = UnknownTag;

    ghost try_from_gives = { Decodes };

    fn try_from(tag: u8) -> Result<Kind, UnknownTag> {
        match tag {
            1 => Ok(Kind::Counts),
            2 => Ok(Kind::Worker),
            3 => Ok(Kind::Ranked),
            4 => Ok(Kind::Seated),
            5 => Ok(Kind::Table),
            6 => Ok(Kind::Quarantine),
            _ => Err(UnknownTag(tag)),
        }
    }
}

// Kept: the lowest tag is a number, since the rule for the tenants is one on numbers, that tags never fall.
/// What kind of field comes next; the tags of tenants never fall.
#[derive(Clone, Copy)]
pub enum Due {
    First,
    NextWorker,
    NextTenant { lowest: u8 },
    Last,
}

/// A field: a case for each tag, with the content as the part of the input that it is, and the offset of the tag.
// Kept: each tag has a case of its own, so what all fields have is asked case by case; and that a field fits is said by clauses, as an enum has no ghost fields.
#[derive(Clone, Copy)]
pub enum Field<'a> {
    Counts { at: usize, content: &'a [u8] },
    Worker { at: usize, content: &'a [u8] },
    Ranked { at: usize, content: &'a [u8] },
    Seated { at: usize, content: &'a [u8] },
    Table { at: usize, content: &'a [u8] },
    Quarantine { at: usize, content: &'a [u8] },
}
