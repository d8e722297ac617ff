ghost use Rattle.std.specs.Prelude.{◌≡◌, ◌+◌, ◌<◌, ◌≤◌, length, false, None, IsTrue, IfOk, IfErr, OnOk, OnErr};
ghost use Rattle.im_values.specs.Fits.{may_stand};
ghost use Rattle.im_history.specs.declared.entry.What.TheVariants as what;
ghost use Rattle.im_history.specs.Commits.{scn};
ghost use Rattle.im_history.specs.Legal.{AreNarrow, Exists, text_limit};
ghost use Rattle.im_history.specs.Refusals.{add_refusal, create_refusal};
ghost use Rattle.im_history.specs.Tables.{new_table, tables};
ghost use Rattle.im_history.specs.Transactions.{is_open};
ghost use Rattle.im_core.specs.Answers.{IsRefusal};
ghost use Rattle.im_core.specs.Seen.{Adds};

use crate::answers::{AddedColumn, Made};
use crate::store::{Core, owed};
use im_history::{Entry, Refused, Shape, TableInfo, UnitLike, What, Who, Why};
use im_values::limits::NUMBERS;
use im_values::{Column, Kind, Name, NoMemory, Schema, Value};
use std::alloc::Global;

impl<U: UnitLike> Core<U> {
    /// Creates a table. It is refused where a table has the name, and then where there are
    /// [`MOST_TABLES`](im_values::limits::MOST_TABLES) tables.
    pub fn create(
        &mut self,
        who: u32,
        name: Name,
        schema: Schema,
        shape: Shape,
    ) -> Result<Made, Refused>
        requires session { who < NUMBERS }
        requires idle { is_open self.old.log who ≡ false }
        ensures ok { OnOk result (Adds self.old who (what.Create name schema shape) self.new) }
        ensures allowed { OnOk result (create_refusal self.old.log name ≡ None) }
        ensures made { IfOk result (λ made. made ≡ record {
          place = length self.old.log;
          table = length (tables self.old.log) + 1;
          scn = scn self.old.log + 1;
        }) }
        ensures err { OnErr result (self.new ≡ self.old) }
        ensures refused { IfErr result (λ why. IsRefusal self.old.log (create_refusal self.old.log name) why) }
    {
        let caller = Who::of(who);
        if let Some(why) = self.create_refusal(name.bytes()) {
            return Err(self.refused(why));
        }
        match self.record_create(caller, name, schema, shape) {
            Ok(made) => Ok(made),
            Err(NoMemory) => Err(self.refused(Why::NoMemory)),
        }
    }

    fn record_create(
        &mut self,
        who: Who,
        name: Name,
        schema: Schema,
        shape: Shape,
    ) -> Result<Made, NoMemory>
        requires idle { is_open self.old.log who ≡ false }
        requires allowed { create_refusal self.old.log name ≡ None }
        ensures ok { OnOk result (Adds self.old who (what.Create name schema shape) self.new) }
        ensures made { IfOk result (λ made. made ≡ record {
          place = length self.old.log;
          table = length (tables self.old.log) + 1;
          scn = scn self.old.log + 1;
        }) }
        ensures err { OnErr result (self.new ≡ self.old) }
    {
        let shape = shape.known();
        known_widths(&schema);
        let table = table_info(self.alloc, &name, &schema, shape)?;
        let catalog = self.catalog.with(self.alloc, table)?;
        self.history
            .reserve(owed(&self.sessions, &self.directory) + 1)?;
        let made = Made {
            place: self.history.len(),
            table: self.catalog.tables().len() as u32 + 1,
            scn: self.history.scn() + 1,
        };
        self.given.push(0)?;
        self.catalog = catalog;
        self.history.append(Entry {
            who: who.number(),
            what: What::Create {
                name,
                schema,
                shape,
            },
        });
        Ok(made)
    }

    /// Adds a column to a table behind those that it has, and its default. It is refused where a column of the table has the name, and
    /// then where the table has [`MOST_COLUMNS`](im_values::limits::MOST_COLUMNS) columns.
    ///
    /// It changes no row: rows that were written before are lengthened where they are read. It costs what the table's columns do.
    pub fn add_column(
        &mut self,
        who: u32,
        table: u32,
        column: Column,
        default: Value,
    ) -> Result<AddedColumn, Refused>
        requires session { who < NUMBERS }
        requires exists { Exists self.old.log table }
        requires idle { is_open self.old.log who ≡ false }
        requires fits { IsTrue (may_stand column.kind default) }
        ensures ok { OnOk result (Adds self.old who (what.Add table column default) self.new) }
        ensures allowed { OnOk result (add_refusal self.old.log table column.name ≡ None) }
        ensures added { IfOk result (λ added. added ≡ record { place = length self.old.log; scn = scn self.old.log + 1 }) }
        ensures err { OnErr result (self.new ≡ self.old) }
        ensures refused { IfErr result (λ why. IsRefusal self.old.log (add_refusal self.old.log table column.name) why) }
    {
        let caller = Who::of(who);
        if let Some(why) = self.add_refusal(table, column.name.bytes()) {
            return Err(self.refused(why));
        }
        match self.record_add(caller, table, column, default) {
            Ok(added) => Ok(added),
            Err(NoMemory) => Err(self.refused(Why::NoMemory)),
        }
    }

    fn record_add(
        &mut self,
        who: Who,
        table: u32,
        column: Column,
        default: Value,
    ) -> Result<AddedColumn, NoMemory>
        requires exists { Exists self.old.log table }
        requires idle { is_open self.old.log who ≡ false }
        requires fits { IsTrue (may_stand column.kind default) }
        requires allowed { add_refusal self.old.log table column.name ≡ None }
        ensures ok { OnOk result (Adds self.old who (what.Add table column default) self.new) }
        ensures added { IfOk result (λ added. added ≡ record { place = length self.old.log; scn = scn self.old.log + 1 }) }
        ensures err { OnErr result (self.new ≡ self.old) }
    {
        known_width(column.kind);
        let catalog = self
            .catalog
            .with_column(self.alloc, table, &column, &default)?;
        self.history
            .reserve(owed(&self.sessions, &self.directory) + 1)?;
        let added = AddedColumn {
            place: self.history.len(),
            scn: self.history.scn() + 1,
        };
        self.catalog = catalog;
        self.history.append(Entry {
            who: who.number(),
            what: What::Add {
                table,
                column,
                default,
            },
        });
        Ok(added)
    }
}

/// No text of a column is longer than 65,535 bytes.
fn known_width(kind: Kind)
    ensures { text_limit kind ≤ 65535 }
{
    match kind {
        Kind::Int => (),
        Kind::Text(limit) => {
            let _ = usize::from(limit);
        }
    }
}

/// Nor is one of any of these columns.
fn known_widths(schema: &Schema)
    ensures { AreNarrow schema.now }
{
    for column in schema.columns() {
        known_width(column.kind);
    }
}

/// A table as it is created.
fn table_info(
    alloc: Global,
    name: &Name,
    schema: &Schema,
    shape: Shape,
) -> Result<TableInfo, NoMemory>
    ensures { IfOk result (λ table. table ≡ new_table name.now schema.now shape) }
{
    let name = name.copy(alloc)?;
    let schema = schema.share()?;
    Ok(TableInfo::new(alloc, name, schema, shape)?)
}
