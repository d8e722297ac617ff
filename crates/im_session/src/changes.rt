ghost use Rattle.std.specs.Prelude.{◌≡◌, slice_set, IfOk, OnOk};
ghost use Rattle.im_statements.specs.Assigned.{assigned};
ghost use Rattle.im_statements.specs.Writes as plan;

use im_history::Change;
use im_statements::Rewriting;
use im_values::{NoMemory, Row, Value, copied};
use std::alloc::Global;
use std::mem::replace;

/// What becomes of these rows of a table.
pub fn changes_to(
    alloc: Global,
    table: u32,
    rewriting: &Rewriting,
    rows: Vec<(u64, Row)>,
) -> Result<Vec<Change>, NoMemory>
    ensures { IfOk result (λ changes. changes.items ≡ plan.changes_to table rewriting.now rows.items) }
{
    let mut changes = Vec::with_capacity(alloc, rows.len())?;
    for (rid, row) in rows {
        let made = rewritten(alloc, rewriting, &row);
        drop(row);
        changes.push(Change {
            table,
            rid,
            row: made?,
        })?;
    }
    Ok(changes)
}

/// What becomes of a row.
fn rewritten(alloc: Global, rewriting: &Rewriting, row: &Row) -> Result<Option<Row>, NoMemory>
    ensures { IfOk result (λ made. made ≡ plan.rewritten rewriting.now row.now) }
{
    match rewriting {
        Rewriting::Updating(sets) => Ok(Some(row_with(alloc, row, sets.items())?)),
        Rewriting::Deleting => Ok(None),
    }
}

/// A row with values assigned to its columns.
fn row_with(alloc: Global, row: &Row, sets: &[(u32, Value)]) -> Result<Row, NoMemory>
    ensures { IfOk result (λ made. made ≡ assigned sets.now row.now) }
{
    let mut copy = copied(alloc, row.values())?;
    assign(alloc, copy.as_mut_slice(), sets)?;
    Ok(Row::of(copy))
}

/// Assigns values to columns.
fn assign(alloc: Global, values: &mut [Value], sets: &[(u32, Value)]) -> Result<(), NoMemory>
    ensures { OnOk result (values.new ≡ assigned sets.now values.old) }
{
    for (column, value) in sets {
        put_at(values, u64::from(*column), value.copy(alloc)?);
    }
    Ok(())
}

/// Puts a value in place of another, where there is one at this index.
fn put_at(values: &mut [Value], index: u64, value: Value)
    ensures { values.new ≡ slice_set values.old index value }
{
    if index < values.len() as u64 {
        drop(replace(&mut values[index as usize], value));
    }
}
