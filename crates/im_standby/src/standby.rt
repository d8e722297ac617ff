ghost use Rattle.std.specs.Prelude.{◌≡◌, ◌+◌, ◌^◌, ◌<◌, ◌≤◌, [], ◌∷◌, ◌++◌, length, option_copied, IfOk, IfErr, OnOk, OnErr};
ghost use Rattle.im_values.specs.declared.limits.TheConstants.{MOST_COLUMNS, MOST_TABLES};
ghost use Rattle.im_history.specs.declared.member.Member.TheVariants as made;
ghost use Rattle.im_history.specs.Columns.{columns_of};
ghost use Rattle.im_history.specs.Fetched.{all_widened};
ghost use Rattle.im_history.specs.Puts.{all_changes};
ghost use Rattle.im_history.specs.Tables.{table_among};
ghost use Rattle.im_history.specs.Views.{defaults_of};
ghost use Rattle.im_standby.specs.Members.{given_of, row_of, rows_among_of, rows_from_of, tables_of};
ghost use Rattle.im_standby.specs.Standing.{ForMembers, IsNext, IsOf};
ghost use Rattle.im_standby.specs.inner.Applying.{Becomes, IsSame};

use crate::ends::{end_of, noted};
use im_blocks::Blocks;
use im_history::{Catalog, Changes, Fetched, Member, Shape, ShownRows, TableInfo};
use im_values::{Column, Name, NoMemory, Row, Schema, Steps, Value, clone_row};
use std::alloc::Global;
use std::marker::Model;
use std::sync::ledger::Ledger;

/// A second store: the tables and rows that the members of a store make, applied one after the other.
///
/// Contracts say what it shows by the members that it has applied, `IsOf` of `specs/Standing.antt`. It keeps no list of them: of each
/// row it keeps the versions, of each table the columns as they stand, and the number of the members, which is its SCN.
#[derive(Drop)]
pub struct Standby {
    alloc: Global,
    scn: u64,
    catalog: Catalog,
    /// By table, how many row numbers were given; of tables behind the last none.
    ends: Vec<u64>,
    blocks: Blocks,
}

impl Model for Standby {
    ghost use Rattle.im_standby.specs.Standing.{Standing};

    ghost Value = { Standing };

    ghost use Rattle.std.specs.Prelude.{◌+◌};
    ghost use Rattle.im_blocks.specs.Transitions.{IsBefore};

    ghost view = { λ s. record { scn = s.scn; tables = s.catalog; ends = s.ends.items; blocks = s.blocks } };

    ghost invariant = { λ s. IsBefore s.blocks (s.scn + 1) };
}

impl Standby {
    /// A standby that has applied nothing.
    pub fn new(alloc: Global) -> Result<Standby, NoMemory>
        ensures { IfOk result (λ standby. IsOf standby []) }
    {
        Ok(Standby {
            alloc,
            scn: 0,
            catalog: Catalog::new(alloc)?,
            ends: Vec::new(alloc),
            blocks: Blocks::new(alloc),
        })
    }

    /// Applies one more member. For want of memory nothing is changed, and the member comes back.
    ///
    /// It shares the rows of the member. It costs what [`Blocks::reserve`] does, a number for each table, and for a table or a column a
    /// list of all tables.
    pub fn apply(&mut self, member: Member) -> Result<(), Member>
        requires next { IsNext self.old member }
        ensures ok { OnOk result (ForMembers self.old (λ members. IsOf self.new (members ++ member ∷ []))) }
        ensures err { OnErr result (ForMembers self.old (λ members. IsOf self.new members)) }
        ensures back { IfErr result (λ back. back ≡ member) }
    {
        match self.take_in(&member) {
            Ok(()) => {
                drop(member);
                Ok(())
            }
            Err(NoMemory) => Err(member),
        }
    }

    fn take_in(&mut self, member: &Member) -> Result<(), NoMemory>
        requires next { IsNext self.old member.now }
        ensures ok { OnOk result (Becomes self.old self.new member.now) }
        ensures err { OnErr result (IsSame self.old self.new) }
    {
        match member {
            Member::Create {
                name,
                schema,
                shape,
            } => self.create(name, schema, *shape),
            Member::Add {
                table,
                column,
                default,
            } => self.add_column(*table, column, default),
            Member::Changes(changes) => self.change(changes.writes()),
        }
    }

    /// Creates a table.
    fn create(&mut self, name: &Name, schema: &Schema, shape: Shape) -> Result<(), NoMemory>
        requires room { length self.old.tables < MOST_TABLES }
        ensures ok { OnOk result (Becomes self.old self.new (made.Create name.now schema.now shape)) }
        ensures err { OnErr result (IsSame self.old self.new) }
    {
        let scn = next_scn(self.scn)?;
        let name = name.copy(self.alloc)?;
        let schema = schema.share()?;
        let table = TableInfo::new(self.alloc, name, schema, shape)?;
        let catalog = self.catalog.with(self.alloc, table)?;
        self.catalog = catalog;
        self.scn = scn;
        Ok(())
    }

    /// Adds a column to a table, with its default.
    fn add_column(&mut self, table: u32, column: &Column, default: &Value) -> Result<(), NoMemory>
        requires room { columns_of (table_among self.old.tables table) < MOST_COLUMNS }
        ensures ok { OnOk result (Becomes self.old self.new (made.Add table column.now default.now)) }
        ensures err { OnErr result (IsSame self.old self.new) }
    {
        let scn = next_scn(self.scn)?;
        let catalog = self
            .catalog
            .with_column(self.alloc, table, column, default)?;
        self.catalog = catalog;
        self.scn = scn;
        Ok(())
    }

    /// Puts in the changes of a commit.
    fn change(&mut self, pieces: &[Changes]) -> Result<(), NoMemory>
        ensures ok { OnOk result (Becomes self.old self.new (made.Changes (all_changes pieces.now))) }
        ensures err { OnErr result (IsSame self.old self.new) }
    {
        let scn = next_scn(self.scn)?;
        let ends = noted(self.alloc, self.ends.as_slice(), pieces)?;
        let ready = self.blocks.reserve(pieces)?;
        self.blocks.apply(scn, ready);
        self.ends = ends;
        self.scn = scn;
        Ok(())
    }

    /// How many members were applied: the SCN that it shows.
    pub fn scn(&self) -> u64
        ensures { ForMembers self.now (λ members. result ≡ length members) }
    {
        self.scn
    }

    /// The tables, with the columns that they have at its SCN. None is in the column store.
    pub fn catalog(&self) -> &Catalog
        ensures { ForMembers self.now (λ members. result.now ≡ tables_of members) }
    {
        &self.catalog
    }

    /// The table of a number, from 1.
    pub fn table(&self, table: u32) -> Option<&TableInfo>
        ensures { ForMembers self.now (λ members. option_copied result ≡ table_among (tables_of members) table) }
    {
        self.info(table)
    }

    /// How many row numbers of a table were given: one more than the greatest that the members touched.
    pub fn given(&self, table: u32) -> u64
        ensures { ForMembers self.now (λ members. result ≡ given_of members table) }
    {
        end_of(self.ends.as_slice(), table)
    }

    /// The values of the row of a row number, or none where there is none. It is at most one step.
    pub fn row<L: Ledger>(&self, table: u32, rid: u64, steps: &mut Steps<L>) -> Option<&[Value]>
        ensures row { ForMembers self.now (λ members. option_copied result ≡ row_of members table rid) }
        ensures few { steps.new ≤ steps.old + 1 }
    {
        self.blocks.at(table, rid, self.scn, steps)
    }

    /// So many row numbers from the first on, each with its row as it was written, or none. It is at most one step for each.
    pub fn rows<L: Ledger>(
        &self,
        table: u32,
        first: u64,
        count: u64,
        steps: &mut Steps<L>,
    ) -> Result<Fetched, NoMemory>
        requires { first + count < 2 ^ 64 }
        ensures rows { IfOk result (λ rows. ForMembers self.now (λ members. rows ≡ rows_from_of members table first count)) }
        ensures few { steps.new ≤ steps.old + count }
    {
        let rows = self
            .blocks
            .extent_rows(self.alloc, table, first, count, self.scn, steps)?;
        Ok(rows)
    }

    /// These row numbers, each with its row as it was written, or none. It is at most one step for each.
    pub fn rows_of<L: Ledger>(
        &self,
        table: u32,
        rids: &[u64],
        steps: &mut Steps<L>,
    ) -> Result<Fetched, NoMemory>
        ensures rows { IfOk result (λ rows. ForMembers self.now (λ members. rows ≡ rows_among_of members table rids.now)) }
        ensures few { steps.new ≤ steps.old + length rids.now }
    {
        let rows = self
            .blocks
            .rows_of(self.alloc, table, rids, self.scn, steps)?;
        Ok(rows)
    }

    /// What was read of a table, as it stands: with the defaults of the columns that it got since each row was written. They are
    /// shared.
    pub fn shown(&self, table: u32, read: Fetched) -> Result<ShownRows, NoMemory>
        ensures { IfOk result (λ shown. ForMembers self.now (λ members.
            shown ≡ all_widened (defaults_of (table_among (tables_of members) table)) read)) }
    {
        let defaults = self.defaults(table)?;
        let columns = defaults.values().len();
        Ok(ShownRows::of(read, defaults, columns))
    }

    /// So many row numbers of a table from the first on, each with its row as the table stands, or none. It is at most one step for each.
    pub fn shown_rows<L: Ledger>(
        &self,
        table: u32,
        first: u64,
        count: u64,
        steps: &mut Steps<L>,
    ) -> Result<ShownRows, NoMemory>
        requires { first + count < 2 ^ 64 }
        ensures rows { IfOk result (λ shown. ForMembers self.now (λ members.
            shown ≡ all_widened (defaults_of (table_among (tables_of members) table)) (rows_from_of members table first count))) }
        ensures few { steps.new ≤ steps.old + count }
    {
        let read = self.rows(table, first, count, steps)?;
        self.shown(table, read)
    }

    /// The defaults of the columns of a table; where there is none, none.
    fn defaults(&self, table: u32) -> Result<Row, NoMemory>
        ensures { IfOk result (λ defaults. defaults ≡ defaults_of (table_among self.now.tables table)) }
    {
        match self.info(table) {
            Some(info) => clone_row(self.alloc, &info.defaults),
            None => Row::shared(self.alloc, Vec::new(self.alloc)),
        }
    }

    fn info(&self, table: u32) -> Option<&TableInfo>
        ensures { option_copied result ≡ table_among self.now.tables table }
    {
        if table == 0 {
            return None;
        }
        match self.catalog.tables().get(table as usize - 1) {
            Some(table) => Some(table.info()),
            None => None,
        }
    }

    /// Lets the images of so many row numbers from the first on be made anew, where that is due: so many of their rows at most are read
    /// next. Nothing that is read is another.
    pub fn draw(&mut self, table: u32, first: u64, count: u64, most: u64)
        ensures { self.new ≡ self.old }
    {
        self.blocks.draw(table, first, count, self.scn, most);
    }
}

/// The SCN behind this one. More than 64 bits can count have no room in memory.
fn next_scn(scn: u64) -> Result<u64, NoMemory>
    ensures { IfOk result (λ next. next ≡ scn + 1) }
{
    match scn.checked_add(1) {
        Some(next) => Ok(next),
        None => Err(NoMemory),
    }
}
