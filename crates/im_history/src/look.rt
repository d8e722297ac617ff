ghost use Rattle.std.specs.Prelude.{◌≡◌, ◌<◌, ◌≤◌, [], ◌∷◌, ◌++◌, length, IfOk, IfSome, OnOk, Some};
ghost use Rattle.std.specs.List.{list_any, position};
ghost use Rattle.im_history.specs.Columns.{columns_of};
ghost use Rattle.im_history.specs.Refusals.{is_column};
ghost use Rattle.im_history.specs.Views.{schema_of};
ghost use Rattle.im_history.specs.Tables.{is_named, lengthened, longer_by, new_table, nulls, number_among, remembered, table_among};

use crate::entry::Mode;
use crate::shape::Shape;
use im_values::limits::{MOST_COLUMNS, MOST_TABLES};
use im_values::{Column, Name, NoMemory, Priority, Row, Schema, Value, clone_row};
use std::alloc::Global;
use std::marker::Model;
use std::sync::Arc;

/// A table as it stands.
#[derive(Drop)]
pub struct TableInfo {
    pub name: Name,
    pub schema: Schema,
    pub shape: Shape,
    /// How soon its extents are populated in memory, or None where the table is not in the column store.
    pub memory: Option<Priority>,
    /// The default of each column: what a row that was written before the column was there has in it. Shared.
    pub defaults: Row,
}

impl TableInfo {
    /// A table as it is created: outside the column store, and the default of each column is NULL.
    pub fn new(
        alloc: Global,
        name: Name,
        schema: Schema,
        shape: Shape,
    ) -> Result<TableInfo, NoMemory>
        ensures { IfOk result (λ table. table ≡ new_table name schema shape) }
    {
        let defaults = nulls_for(alloc, &schema)?;
        Ok(TableInfo {
            name,
            schema,
            shape,
            memory: None,
            defaults,
        })
    }

    /// The same with one column more, and its default. It copies the columns and the defaults.
    fn with_column(
        &self,
        alloc: Global,
        column: &Column,
        default: &Value,
    ) -> Result<TableInfo, NoMemory>
        requires { length self.now.schema < MOST_COLUMNS }
        ensures { IfOk result (λ table. table ≡ longer_by column.now default.now self.now) }
    {
        Ok(TableInfo {
            name: self.name.copy(alloc)?,
            schema: self.schema.with(alloc, column)?,
            shape: self.shape,
            memory: self.memory,
            defaults: self.defaults.with(alloc, default)?,
        })
    }

    /// The same with this priority in the column store, or outside it where none is given.
    fn with_memory(&self, alloc: Global, memory: Option<Priority>) -> Result<TableInfo, NoMemory>
        ensures { IfOk result (λ table. table ≡ record self.now { memory = memory }) }
    {
        Ok(TableInfo {
            name: self.name.copy(alloc)?,
            schema: self.schema.share()?,
            shape: self.shape,
            memory,
            defaults: clone_row(alloc, &self.defaults)?,
        })
    }
}

/// A table of a catalog. It never changes, so all catalogs that have it share it.
///
/// Contracts see the [`TableInfo`].
#[derive(Drop)]
pub struct SharedTable {
    info: Arc<TableInfo>,
}

impl Model for SharedTable {
    ghost use Rattle.im_history.specs.declared.look.TableInfo.{TableInfo as Info};

    ghost Value = { Info };

    ghost view = { λ t. t.info.value };
}

impl SharedTable {
    fn of(alloc: Global, info: TableInfo) -> Result<SharedTable, NoMemory>
        ensures { IfOk result (λ table. table ≡ info) }
    {
        Ok(SharedTable {
            info: Arc::new(alloc, info)?,
        })
    }

    /// The table as it stands.
    pub fn info(&self) -> &TableInfo
        ensures { result.now ≡ self.now }
    {
        &self.info
    }

    fn share(&self) -> Result<SharedTable, NoMemory>
        ensures { IfOk result (λ table. table ≡ self.now) }
    {
        Ok(SharedTable {
            info: Arc::try_clone(&self.info)?,
        })
    }
}

/// The tables in the order of their creation: the first of them is table 1.
///
/// Contracts see the list, which has at most [`MOST_TABLES`]. A catalog never changes, so one list serves all who look at it.
#[derive(Drop)]
pub struct Catalog {
    tables: Arc<Vec<SharedTable>>,
}

impl Model for Catalog {
    ghost use Rattle.std.specs.Prelude.{List};
    ghost use Rattle.im_history.specs.declared.look.TableInfo.{TableInfo};

    ghost Value = { List TableInfo };

    ghost use Rattle.std.specs.Prelude.{◌≤◌, length};
    ghost use Rattle.im_values.specs.declared.limits.TheConstants.{MOST_TABLES};

    ghost view = { λ c. c.tables.value.items };

    ghost invariant = { λ c. length c.tables.value.items ≤ MOST_TABLES };
}

impl Catalog {
    /// No tables.
    pub fn new(alloc: Global) -> Result<Catalog, NoMemory>
        ensures { IfOk result (λ catalog. catalog ≡ []) }
    {
        Ok(Catalog {
            tables: Arc::new(alloc, Vec::new(alloc))?,
        })
    }

    /// The tables, in order.
    pub fn tables(&self) -> &[SharedTable]
        ensures tables { result.now ≡ self.now }
        ensures few { length self.now ≤ MOST_TABLES }
    {
        self.tables.as_slice()
    }

    /// The same list, shared. It is refused where as many share it as can.
    pub fn share(&self) -> Result<Catalog, NoMemory>
        ensures { IfOk result (λ catalog. catalog ≡ self.now) }
    {
        Ok(Catalog {
            tables: Arc::try_clone(&self.tables)?,
        })
    }

    /// The number of the table of this name, from 1.
    pub fn number_of(&self, name: &[u8]) -> Option<u32>
        ensures { result ≡ number_among self.now name.now }
    {
        let place = place_named(self.tables(), name)?;
        Some(place as u32 + 1)
    }

    /// How many columns the table of a number has; where there is none, none.
    pub fn columns_of(&self, table: u32) -> u32
        ensures { result ≡ columns_of (table_among self.now table) }
    {
        if table == 0 {
            return 0;
        }
        match self.tables().get(table as usize - 1) {
            Some(table) => table.info().schema.columns().len() as u32,
            None => 0,
        }
    }

    /// Whether a column of the table of a number has this name; where there is no table, none has.
    pub fn has_column(&self, table: u32, name: &[u8]) -> bool
        ensures { result ≡ list_any (is_column name.now) (schema_of (table_among self.now table)) }
    {
        if table == 0 {
            return false;
        }
        match self.tables().get(table as usize - 1) {
            Some(table) => any_named(table.info().schema.columns(), name),
            None => false,
        }
    }

    /// A list of these tables, which it shares, and one more.
    pub fn with(&self, alloc: Global, table: TableInfo) -> Result<Catalog, NoMemory>
        requires { length self.now < MOST_TABLES }
        ensures { IfOk result (λ catalog. catalog ≡ self.now ++ table ∷ []) }
    {
        let mut tables = shared(alloc, self.tables())?;
        tables.push(SharedTable::of(alloc, table)?)?;
        Ok(Catalog {
            tables: Arc::new(alloc, tables)?,
        })
    }

    /// A list of these tables, the one of this number having got a column with its default. It copies that one, and shares the others.
    pub fn with_column(
        &self,
        alloc: Global,
        table: u32,
        column: &Column,
        default: &Value,
    ) -> Result<Catalog, NoMemory>
        requires { columns_of (table_among self.now table) < MOST_COLUMNS }
        ensures { IfOk result (λ catalog. catalog ≡ lengthened table column.now default.now self.now) }
    {
        let mut tables = shared(alloc, self.tables())?;
        lengthen(alloc, tables.as_mut_slice(), table, column, default)?;
        Ok(Catalog {
            tables: Arc::new(alloc, tables)?,
        })
    }

    /// A list of these tables, the one of this number having joined the column store with a priority, or left it where none
    /// is given. It copies that one, and shares the others.
    pub fn with_memory(
        &self,
        alloc: Global,
        table: u32,
        priority: Option<Priority>,
    ) -> Result<Catalog, NoMemory>
        ensures { IfOk result (λ catalog. catalog ≡ remembered table priority self.now) }
    {
        let mut tables = shared(alloc, self.tables())?;
        remember(alloc, tables.as_mut_slice(), table, priority)?;
        Ok(Catalog {
            tables: Arc::new(alloc, tables)?,
        })
    }
}

/// The same tables, shared.
fn shared(alloc: Global, tables: &[SharedTable]) -> Result<Vec<SharedTable>, NoMemory>
    ensures { IfOk result (λ copies. copies.items ≡ tables.now) }
{
    let mut copies = Vec::with_capacity(alloc, tables.len())?;
    for table in tables {
        copies.push(table.share()?)?;
    }
    Ok(copies)
}

/// A NULL for each column.
fn nulls_for(alloc: Global, schema: &Schema) -> Result<Row, NoMemory>
    ensures { IfOk result (λ row. row ≡ nulls schema.now) }
{
    let columns = schema.columns();
    let mut values = Vec::with_capacity(alloc, columns.len())?;
    for _column in columns {
        values.push(Value::null())?;
    }
    Row::shared(alloc, values)
}

/// Gives the table of a number one more column with its default.
fn lengthen(
    alloc: Global,
    tables: &mut [SharedTable],
    table: u32,
    column: &Column,
    default: &Value,
) -> Result<(), NoMemory>
    requires { columns_of (table_among tables.old table) < MOST_COLUMNS }
    ensures { OnOk result (tables.new ≡ lengthened table column.now default.now tables.old) }
{
    if table > 0 && table as usize <= tables.len() {
        let place = table as usize - 1;
        let info = tables[place].info().with_column(alloc, column, default)?;
        tables[place] = SharedTable::of(alloc, info)?;
    }
    Ok(())
}

/// Lets the table of a number join the column store with a priority, or leave it.
fn remember(
    alloc: Global,
    tables: &mut [SharedTable],
    table: u32,
    priority: Option<Priority>,
) -> Result<(), NoMemory>
    ensures { OnOk result (tables.new ≡ remembered table priority tables.old) }
{
    if table > 0 && table as usize <= tables.len() {
        let place = table as usize - 1;
        let info = tables[place].info().with_memory(alloc, priority)?;
        tables[place] = SharedTable::of(alloc, info)?;
    }
    Ok(())
}

/// Whether one of these columns has this name.
fn any_named(columns: &[Column], name: &[u8]) -> bool
    ensures { result ≡ list_any (is_column name.now) columns.now }
{
    columns.iter().any(|column| name == column.name.bytes())
}

/// The place of the first table of this name.
fn place_named(tables: &[SharedTable], name: &[u8]) -> Option<usize>
    ensures place { result ≡ position (is_named name.now) tables.now }
    ensures within { IfSome result (λ place. place < length tables.now) }
{
    tables
        .iter()
        .position(|table| name == table.info().name.bytes())
}

/// What a session finds when it looks at the store.
#[derive(Drop)]
pub struct Look {
    /// The place of the look: how many entries there were.
    pub place: u64,
    /// The SCN.
    pub scn: u64,
    /// Where the session's open transaction began.
    pub begun: Option<u64>,
    /// Its mode.
    pub mode: Mode,
    pub tables: Catalog,
}
