ghost use Rattle.std.specs.Prelude.{◌≡◌, ◌+◌, ◌^◌, ◌<◌, ◌≤◌, ◌==◌, length, slice_get, IfOk, IfSome, Some};
ghost use Rattle.im_history.specs.Puts.{put_from, lent_change};

use crate::change::Change;
use im_values::{NoMemory, Row, Rows, Value};
use std::alloc::Global;
use std::marker::Model;

/// A change that is lent.
#[derive(Clone, Copy)]
pub struct LentChange<'a> {
    /// The table's number, from 1.
    pub table: u32,
    /// The row number, from 0.
    pub rid: u64,
    /// The values of the row that is put, or None where the row is taken away.
    pub row: Option<&'a [Value]>,
}

/// Rows that are put at row numbers of a table, from the first on.
#[derive(Clone, Copy)]
pub struct LentPut<'a> {
    /// The table's number, from 1.
    pub table: u32,
    /// The row number of the first of the rows, from 0.
    pub first: u64,
    /// The rows.
    pub rows: &'a Rows,
}

/// How changes are kept: rows put from a row number of a table on, or each change by itself.
#[derive(Drop)]
enum Form {
    Put(u32, u64, Rows),
    Each(Vec<Change>),
}

/// Changes in the order in which they were written.
///
/// Contracts see the list. Rows that were put at row numbers in a row are kept as they are, with the first number.
#[derive(Drop)]
pub struct Changes {
    form: Form,
}

impl Model for Changes {
    ghost use Rattle.std.specs.Prelude.{List};
    ghost use Rattle.im_history.specs.declared.change.Change.{Change as AnyChange};

    ghost Value = { List AnyChange };

    ghost use Rattle.im_history.specs.inner.Forms.{changes_in, HasNumbers};

    ghost view = { λ c. changes_in c.form };

    ghost invariant = { λ c. HasNumbers c.form };
}

impl Changes {
    /// These changes, in this order. It takes no memory.
    pub fn of(changes: Vec<Change>) -> Changes
        ensures { result ≡ changes.items }
    {
        Changes {
            form: Form::Each(changes),
        }
    }

    /// Rows put at row numbers of a table, from the first on. It takes no memory.
    pub fn put(table: u32, first: u64, rows: Rows) -> Changes
        requires { first + length rows ≤ 2 ^ 63 }
        ensures { result ≡ put_from table first rows }
    {
        Changes {
            form: Form::Put(table, first, rows),
        }
    }

    /// The same changes once more. Rows that were put together are shared, and each other row is; it is refused where as many
    /// share one as can.
    pub fn share(&self, alloc: Global) -> Result<Changes, NoMemory>
        ensures { IfOk result (λ changes. changes ≡ self.now) }
    {
        match &self.form {
            Form::Put(table, first, rows) => shared_put(*table, *first, rows),
            Form::Each(changes) => Ok(Changes::of(copies(alloc, changes.as_slice())?)),
        }
    }

    /// The rows that are put, where they are kept together: at row numbers in a row. It takes no memory.
    pub fn as_put(&self) -> Option<LentPut<'_>>
        ensures put { IfSome result (λ put. self.now ≡ put_from put.table put.first put.rows.now) }
        ensures numbers { IfSome result (λ put. put.first + length put.rows.now ≤ 2 ^ 63) }
    {
        match &self.form {
            Form::Put(table, first, rows) => Some(LentPut {
                table: *table,
                first: *first,
                rows,
            }),
            Form::Each(_) => None,
        }
    }

    /// How many changes there are.
    pub fn len(&self) -> usize
        ensures { result ≡ length self.now }
    {
        match &self.form {
            Form::Put(_, _, rows) => rows.len(),
            Form::Each(changes) => changes.len(),
        }
    }

    /// Whether there is no change.
    pub fn is_empty(&self) -> bool
        ensures { result ≡ (length self.now == 0) }
    {
        self.len() == 0
    }

    /// The change at a place, from 0.
    pub fn at(&self, place: usize) -> LentChange<'_>
        requires { place < length self.now }
        ensures { slice_get self.now place ≡ Some (lent_change result) }
    {
        match &self.form {
            Form::Put(table, first, rows) => LentChange {
                table: *table,
                rid: *first + place as u64,
                row: Some(rows.values(place)),
            },
            Form::Each(changes) => lent(&changes[place]),
        }
    }

    /// The change at a place, from 0, once more. Its row is shared, and it is refused where as many share it as can.
    pub fn change(&self, alloc: Global, place: usize) -> Result<Change, NoMemory>
        requires { place < length self.now }
        ensures { IfOk result (λ change. slice_get self.now place ≡ Some change) }
    {
        match &self.form {
            Form::Put(table, first, rows) => change_of_put(*table, *first, rows, place),
            Form::Each(changes) => changes[place].copy(alloc),
        }
    }
}

/// The same rows put once more.
fn shared_put(table: u32, first: u64, rows: &Rows) -> Result<Changes, NoMemory>
    requires { first + length rows.now ≤ 2 ^ 63 }
    ensures { IfOk result (λ changes. changes ≡ put_from table first rows.now) }
{
    let rows = rows.share()?;
    Ok(Changes::put(table, first, rows))
}

/// Of rows that are put from a row number on the one at a place.
fn change_of_put(table: u32, first: u64, rows: &Rows, place: usize) -> Result<Change, NoMemory>
    requires within { place < length (put_from table first rows.now) }
    requires numbers { first + length rows.now ≤ 2 ^ 63 }
    ensures { IfOk result (λ change. slice_get (put_from table first rows.now) place ≡ Some change) }
{
    let row = rows.row(place)?;
    Ok(Change {
        table,
        rid: first + place as u64,
        row: Some(row),
    })
}

/// The same changes once more.
fn copies(alloc: Global, changes: &[Change]) -> Result<Vec<Change>, NoMemory>
    ensures { IfOk result (λ copies. copies.items ≡ changes.now) }
{
    let mut copies = Vec::with_capacity(alloc, changes.len())?;
    for change in changes {
        copies.push(change.copy(alloc)?)?;
    }
    Ok(copies)
}

/// A change, lent.
fn lent(change: &Change) -> LentChange<'_>
    ensures { lent_change result ≡ change.now }
{
    LentChange {
        table: change.table,
        rid: change.rid,
        row: change.row.as_ref().map(Row::values),
    }
}
