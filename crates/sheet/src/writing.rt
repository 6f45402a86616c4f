// Writes the bytes of a sheet, field by field.
ghost use Rattle.std.specs.Prelude.{◌≡◌, ℕ, ◌+◌, ◌<◌, ◌≤◌, List, [], ◌∷◌, ◌++◌, map, length, slice_index_or};
ghost use Rattle.fleet.specs.Lists.{market};
ghost use Rattle.policy.specs.Rosters.{rules};
ghost use Rattle.policy.specs.Kinds.{RankedRule, SeatedRule};
ghost use Rattle.policy.specs.Tables.{TableRule};
ghost use Rattle.policy.specs.Ranks.{rank_rule};
ghost use Rattle.policy.specs.Seats.{seat_rule};
ghost use Rattle.policy.specs.Entries.{table_rule};
ghost use Rattle.sheet.specs.declared.fields.Kind.{Kind as FieldKind};
ghost use Rattle.sheet.specs.declared.fields.Kind.TheVariants.{Worker, Ranked as RankedKind, Seated as SeatedKind, Table as TableKind};
ghost use Rattle.sheet.specs.Sheets.{rows_of, written, worker_content, ranked_content, seated_content, table_content, encode};
ghost use Rattle.sheet.specs.Says.{text};
ghost use Rattle.sheet.specs.Encoding.{held, fields};

use crate::encoded::Encoded;
use crate::fields::Kind;
use crate::sheet::Sheet;
use fleet::Lists;
use policy::{RankedTenant, Roster, SeatedTenant, TableTenant, Tenant};

impl Encoded {
    /// The bytes so far.
    pub(crate) fn as_slice(&self) -> &[u8]
        ensures { result.now ≡ held self.now }
    {
        &self.bytes[..self.len]
    }

    /// No bytes yet.
    fn empty() -> Encoded
        ensures { held result ≡ [] }
    {
        Encoded {
            bytes: [0; 5624],
            len: 0,
        }
    }

    /// Puts bytes behind those that are there.
    fn put(&mut self, bytes: &[u8])
        requires { length (held self.old) + length bytes.now ≤ 5624 }
        ensures { held self.new ≡ held self.old ++ bytes.now }
    {
        let end = self.len + bytes.len();
        self.bytes[self.len..end].copy_from_slice(bytes);
        self.len = end;
    }

    /// Puts a field with a content of two parts.
    fn field(&mut self, kind: Kind, first: &[u8], second: &[u8])
        requires { length (held self.old) + length (written kind (first.now ++ second.now)) ≤ 5624 }
        ensures { held self.new ≡ held self.old ++ written kind (first.now ++ second.now) }
    {
        let [low, high] = ((first.len() + second.len()) as u16).to_le_bytes();
        self.put(&[kind as u8, low, high]);
        self.put(first);
        self.put(second);
    }

    /// Puts a field for each row.
    fn rows<R: Rows>(&mut self, rows: &R)
        requires { length (held self.old) + length (fields R.kind (R.contents rows.now)) ≤ 5624 }
        ensures { held self.new ≡ held self.old ++ fields R.kind (R.contents rows.now) }
    {
        // Kept: by number, since workers have no items to go over, only numbers.
        for number in 0..rows.rows() {
            rows.put(number, self);
        }
    }
}

/// Rows of one kind in a sheet, by number: each is written as a field.
trait Rows {
    ghost kind: { FieldKind };

    ghost contents: { Self → List (List ℕ) };

    /// How many rows there are.
    fn rows(&self) -> u8
        ensures { result ≡ length (contents self.now) };

    /// Puts the field of the row of this number.
    fn put(&self, number: u8, sheet: &mut Encoded)
        requires known { number < length (contents self.now) }
        requires room { length (held sheet.old) + length (written kind (slice_index_or (contents self.now) number [])) ≤ 5624 }
        ensures { held sheet.new ≡ held sheet.old ++ written kind (slice_index_or (contents self.now) number []) };
}

/// The workers of a sheet: their lists, and their classes.
#[derive(Clone, Copy)]
struct Workers<'a> {
    lists: &'a Lists,
    classes: &'a [u8; 64],
}

impl Rows for Workers<'_> {
    ghost kind = { Worker };

    ghost contents = { λ w. map worker_content (rows_of (market w.lists.now) w.classes.now (market w.lists.now).workers) };

    fn rows(&self) -> u8 {
        self.lists.workers()
    }

    fn put(&self, number: u8, sheet: &mut Encoded) {
        let list = self.lists.list(number);
        // Kept: the class at the number by which rows are asked for.
        let class = self.classes[number as usize];
        sheet.field(Kind::Worker, &[class], list.as_slice());
    }
}

/// A tenant that a row of a sheet says.
trait Row: Tenant {
    ghost kind: { FieldKind };

    ghost Said: { Type 0 };

    ghost said: { Self → Said };

    ghost content: { Said → List ℕ };

    /// Puts the field of the tenant.
    fn put(&self, sheet: &mut Encoded)
        requires { length (held sheet.old) + length (written kind (content (said self.now))) ≤ 5624 }
        ensures { held sheet.new ≡ held sheet.old ++ written kind (content (said self.now)) };
}

impl<T: Row> Rows for Roster<T, T::Common> {
    ghost kind = { T.kind };

    ghost contents = { λ t. map T.content (rules T.said t) };

    fn rows(&self) -> u8 {
        self.as_slice().len() as u8
    }

    fn put(&self, number: u8, sheet: &mut Encoded) {
        self.as_slice()[number as usize].put(sheet);
    }
}

impl Row for RankedTenant {
    ghost kind = { RankedKind };

    ghost Said = { RankedRule };

    ghost said = { rank_rule };

    ghost content = { ranked_content };

    fn put(&self, sheet: &mut Encoded) {
        sheet.field(Kind::Ranked, &[self.cap()], self.list().as_slice());
    }
}

impl Row for SeatedTenant {
    ghost kind = { SeatedKind };

    ghost Said = { SeatedRule };

    ghost said = { seat_rule };

    ghost content = { seated_content };

    fn put(&self, sheet: &mut Encoded) {
        sheet.field(Kind::Seated, &all_caps(self), self.list().as_slice());
    }
}

impl Row for TableTenant {
    ghost kind = { TableKind };

    ghost Said = { TableRule };

    ghost said = { table_rule };

    ghost content = { table_content };

    fn put(&self, sheet: &mut Encoded) {
        sheet.field(Kind::Table, self.workers().as_slice(), self.entries());
    }
}

/// The overall cap of a seated tenant, and then its caps for the classes.
fn all_caps(tenant: &SeatedTenant) -> [u8; 9]
    ensures { result ≡ (seat_rule tenant.now).overall ∷ (seat_rule tenant.now).caps }
{
    let mut caps = [0; 9];
    caps[0] = tenant.overall();
    caps[1..9].copy_from_slice(tenant.caps());
    caps
}

impl Sheet {
    /// The bytes of the sheet.
    pub(crate) fn encoded(&self) -> Encoded
        ensures { held result ≡ encode (text self.now) }
    {
        let workers = Workers {
            lists: &self.lists,
            classes: self.tenants.seated.classes(),
        };
        let mut sheet = Encoded::empty();
        sheet.field(
            Kind::Counts,
            &[self.lists.workers()],
            &[self.lists.tenants()],
        );
        sheet.rows(&workers);
        sheet.rows(&self.tenants.ranked);
        sheet.rows(&self.tenants.seated);
        sheet.rows(&self.tenants.tables);
        sheet.field(Kind::Quarantine, self.quarantine.as_slice(), &[]);
        sheet
    }
}
