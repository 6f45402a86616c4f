// The tenants of a sheet, by kind.
use policy::{Ranked, Seated, Table};

/// The tenants of a sheet: the ranked ones come first, then the seated ones, then the tables.
#[derive(Clone, Copy)]
pub struct Tenants {
    pub(crate) ranked: Ranked,
    pub(crate) seated: Seated,
    pub(crate) tables: Table,
}
