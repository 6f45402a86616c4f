// Layer 3: adds the tenant that a field says to those of its kind.
ghost use Rattle.std.specs.Prelude.{◌≡◌, ℕ, ◌+◌, ◌^◌, ◌<◌, ◌≤◌, true, List, [], ◌∷◌, ◌++◌, length};
ghost use Rattle.policy.specs.Ranks.{ranks};
ghost use Rattle.policy.specs.Seats.{seats};
ghost use Rattle.policy.specs.Entries.{tables as tables_of};
ghost use Rattle.sheet.specs.Fields.{Field as AnyField, field_of};
ghost use Rattle.sheet.specs.Sheets.{WorkerRow, good_ranked, good_seated, broken_law};
ghost use Rattle.sheet.specs.declared.fields.Kind.TheVariants.{Table};
ghost use Rattle.sheet.specs.Reading.{ranked_row, seated_row, table_row, fault_of, good_tenant, table_told, one_table, added_text, tenants_text, tenant_text};

use crate::faults::{FieldFault, SheetFault};
use crate::fields::{Field, Kind};
use crate::reading::{number, ranking, rest};
use crate::tenants::Tenants;
use policy::{Ranked, Seated, Table as Tables, TableFault, TableTenant};

/// Adds the ranked tenant that a content says.
fn add_ranked(ranked: &mut Ranked, content: &[u8])
    requires { (good_ranked 64 (ranked_row content.now) ≡ true) × (length (ranks ranked.old) < 16) }
    ensures { ranks ranked.new ≡ ranks ranked.old ++ (ranked_row content.now ∷ []) }
{
    let list = ranking(rest(content, 1));
    ranked.push(number(content, 0), list).unwrap();
}

/// The eight caps of the classes in the content of a seated tenant.
fn class_caps(content: &[u8]) -> [u8; 8]
    requires { 9 ≤ length content.now }
    ensures { result ≡ (seated_row content.now).caps }
{
    <[u8; 8]>::try_from(&content[1..9]).unwrap()
}

/// Adds the seated tenant that a content says.
fn add_seated(seated: &mut Seated, content: &[u8])
    requires { (good_seated 64 (seated_row content.now) ≡ true) × (length (seats seated.old) < 16) }
    ensures rows { seats seated.new ≡ seats seated.old ++ (seated_row content.now ∷ []) }
    ensures classes { seated.new.common.classes ≡ seated.old.common.classes }
{
    let list = ranking(rest(content, 9));
    seated
        .push(number(content, 0), class_caps(content), list)
        .unwrap();
}

/// The fault of a table of so many workers at this offset.
fn table_fault(at: usize, workers: usize, fault: TableFault) -> SheetFault
    requires { at + 3 + workers < 2 ^ 63 }
    ensures { result ≡ fault_of at workers fault }
{
    match fault {
        TableFault::Outside { index } => SheetFault::Outside {
            at: at + 3 + workers + index as usize,
        },
        TableFault::Broken { law, whole, part } => SheetFault::Broken {
            at,
            law,
            whole,
            part,
        },
        TableFault::Workers | TableFault::Entries => SheetFault::Field(FieldFault::Length { at }),
    }
}

/// Adds the table that a content says, unless its entries break a law.
fn add_table(tables: &mut Tables, at: usize, content: &[u8]) -> Result<(), SheetFault>
    requires { (good_tenant Table 64 content.now ≡ true) × ((length (tables_of tables.old) < 16) × (at + 3 + length content.now < 2 ^ 63)) }
    ensures { table_told result (tables_of tables.new) ≡ one_table at (tables_of tables.old) (table_row content.now) (broken_law (table_row content.now).entries) }
{
    let count = Kind::Table.list_end(content.len());
    let workers = ranking(&content[0..count]);
    let tenant = TableTenant::new(workers, rest(content, count)).map_err(|fault| table_fault(
        at, count, fault,
    ))?;
    tables.push(tenant).unwrap();
    Ok(())
}

impl Tenants {
    /// Adds the tenant that a field says.
    pub(crate) fn add(&mut self, field: Field<'_>) -> Result<(), SheetFault>
        requires good { good_tenant (field_of field).kind 64 (field_of field).content ≡ true }
        requires room { (length (ranks self.old.ranked) < 16) × ((length (seats self.old.seated) < 16) × (length (tables_of self.old.tables) < 16)) }
        requires fits { (field_of field).at + 3 + length (field_of field).content < 2 ^ 63 }
        ensures text { (rows : List WorkerRow) → added_text result (tenants_text rows self.new) ≡ tenant_text (tenants_text rows self.old) (field_of field.entry).at (field_of field.entry).content (field_of field.entry).kind }
        ensures classes { self.new.seated.common.classes ≡ self.old.seated.common.classes }
    {
        match field {
            Field::Ranked { content, .. } => add_ranked(&mut self.ranked, content),
            Field::Seated { content, .. } => add_seated(&mut self.seated, content),
            Field::Table { at, content } => return add_table(&mut self.tables, at, content),
            _ => {}
        }
        Ok(())
    }
}
