ghost use Rattle.std.specs.Prelude.{◌≡◌, ◌<◌, ◌≤◌, ◌++◌, [], ◌∷◌, IfOk, length};
ghost use Rattle.im_values.specs.Fits as spec;

use crate::limits::MOST_COLUMNS;
use crate::name::Name;
use crate::no_memory::NoMemory;
use crate::row::Row;
use crate::value::{Seen, Value};
use std::alloc::Global;
use std::marker::Model;
use std::sync::Arc;

/// What a column holds: whole numbers, or texts of at most so many bytes. NULL stands in either.
#[derive(Clone, Copy)]
pub enum Kind {
    Int,
    Text(u16),
}

impl Kind {
    /// Whether a value may stand in a column of this kind.
    pub fn holds(self, value: &Value) -> bool
        ensures { result ≡ spec.may_stand self value.now }
    {
        match (self, value.seen()) {
            (_, Seen::Null) | (Kind::Int, Seen::Int(_)) => true,
            (Kind::Text(limit), Seen::Text(text)) => text.len() <= usize::from(limit),
            _ => false,
        }
    }
}

/// A column of a table.
#[derive(Drop)]
pub struct Column {
    pub name: Name,
    pub kind: Kind,
}

impl Column {
    /// The same column once more.
    pub fn copy(&self, alloc: Global) -> Result<Column, NoMemory>
        ensures { IfOk result (λ column. column ≡ self.now) }
    {
        Ok(Column {
            name: self.name.copy(alloc)?,
            kind: self.kind,
        })
    }
}

/// The columns of a table, in order: at least one, and at most [`MOST_COLUMNS`].
///
/// A schema never changes, so all who know it share one list.
#[derive(Drop)]
pub struct Schema {
    columns: Arc<Vec<Column>>,
}

impl Model for Schema {
    ghost use Rattle.std.specs.Prelude.{List};
    ghost use Rattle.im_values.specs.declared.schema.Column.{Column};

    ghost Value = { List Column };

    ghost use Rattle.std.specs.Prelude.{◌≤◌, length};
    ghost use Rattle.im_values.specs.declared.limits.TheConstants.{MOST_COLUMNS};

    ghost view = { λ s. s.columns.value.items };

    ghost invariant = { λ s. (1 ≤ length s.columns.value.items) × (length s.columns.value.items ≤ MOST_COLUMNS) };
}

impl Schema {
    /// A schema of these columns.
    pub fn of(alloc: Global, columns: Vec<Column>) -> Result<Schema, NoMemory>
        requires some { 1 ≤ length columns.items }
        requires few { length columns.items ≤ MOST_COLUMNS }
        ensures { IfOk result (λ schema. schema ≡ columns.items) }
    {
        Ok(Schema {
            columns: Arc::new(alloc, columns)?,
        })
    }

    /// The columns, in order.
    pub fn columns(&self) -> &[Column]
        ensures columns { result.now ≡ self.now }
        ensures some { 1 ≤ length self.now }
        ensures few { length self.now ≤ MOST_COLUMNS }
    {
        self.columns.as_slice()
    }

    /// A schema of these columns and one more. It copies them.
    pub fn with(&self, alloc: Global, column: &Column) -> Result<Schema, NoMemory>
        requires { length self.now < MOST_COLUMNS }
        ensures { IfOk result (λ schema. schema ≡ self.now ++ column.now ∷ []) }
    {
        let mut columns = copies(alloc, self.columns())?;
        columns.push(column.copy(alloc)?)?;
        Schema::of(alloc, columns)
    }

    /// The same schema, shared. It is refused where as many share it as can.
    pub fn share(&self) -> Result<Schema, NoMemory>
        ensures { IfOk result (λ schema. schema ≡ self.now) }
    {
        Ok(Schema {
            columns: Arc::try_clone(&self.columns)?,
        })
    }
}

/// The same columns once more.
fn copies(alloc: Global, columns: &[Column]) -> Result<Vec<Column>, NoMemory>
    ensures { IfOk result (λ copies. copies.items ≡ columns.now) }
{
    let mut copies = Vec::with_capacity(alloc, columns.len())?;
    for column in columns {
        copies.push(column.copy(alloc)?)?;
    }
    Ok(copies)
}

/// Whether a row may stand in a table: it has a value for each column, and each is NULL or of the column's kind and
/// not longer than it.
pub fn fits(row: &Row, schema: &Schema) -> bool
    ensures { result ≡ spec.fits row.now schema.now }
{
    let mut columns = schema.columns();
    for value in row.values() {
        let [column, others @ ..] = columns else {
            return false;
        };
        if !column.kind.holds(value) {
            return false;
        }
        columns = others;
    }
    columns.is_empty()
}
