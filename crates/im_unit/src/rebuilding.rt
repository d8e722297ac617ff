ghost use Rattle.std.specs.Prelude.{◌≡◌, ◌+◌, ◌<◌, ◌≤◌, ◌^◌, ◌++◌, ◌∷◌, [], All, IfOk, length, map, vec_len, vec_capacity};
ghost use Rattle.std.specs.Arc.{arc_value};
ghost use Rattle.im_column.specs.Forms.{IsShort};
ghost use Rattle.im_column.specs.Picks.{values_picked};
ghost use Rattle.im_unit.specs.Holding.{present_rows, values_in};
ghost use Rattle.im_unit.specs.Rebuilt.{fetched_rows};
ghost use Rattle.im_unit.specs.inner.Kept.{AreRows, HaveLength, lent_values};
ghost use Rattle.im_unit.specs.inner.Planned.{columns_picked};

use im_column::Column;
use im_history::LentRow;
use im_values::{NoMemory, RowValues, Value};
use std::alloc::Global;
use std::sync::Arc;

/// Puts a row that was fetched, where there is one, behind others. There is room for one.
fn put_fresh<'a>(row: &Option<RowValues<'a>>, fresh: &mut Vec<RowValues<'a>>)
    requires { vec_len fresh.old < vec_capacity fresh.old }
    ensures rows { fresh.new.items ≡ fresh.old.items ++ present_rows (row.now ∷ []) }
    ensures room { vec_capacity fresh.new ≡ vec_capacity fresh.old }
    ensures few { vec_len fresh.new ≤ vec_len fresh.old + 1 }
{
    if let Some(row) = row {
        fresh.push_reserved(row.again());
    }
}

/// The rows that were fetched and are there. They stay where they are.
pub fn fresh_rows<'a>(
    alloc: Global,
    fetched: &[LentRow<'a>],
) -> Result<Vec<RowValues<'a>>, NoMemory>
    ensures { IfOk result (λ fresh. fresh.items ≡ present_rows (fetched_rows fetched.now)) }
{
    let mut fresh = Vec::with_capacity(alloc, fetched.len())?;
    for i in 0..fetched.len() {
        put_fresh(&fetched[i].1, &mut fresh);
    }
    Ok(fresh)
}

/// The values of fresh rows in one column, lent.
fn values_fresh<'a>(
    alloc: Global,
    fresh: &[RowValues<'a>],
    column: usize,
    width: usize,
) -> Result<Vec<&'a Value>, NoMemory>
    requires rows { AreRows width fresh.now }
    requires inside { column < width }
    ensures { IfOk result (λ values. lent_values values.items ≡ values_in column fresh.now) }
{
    let mut values = Vec::with_capacity(alloc, fresh.len())?;
    for i in 0..fresh.len() {
        values.push_reserved(fresh[i].at(column));
    }
    Ok(values)
}

/// A column of the values at places, where those of an old column come first and fresh ones behind them. Where they are those of
/// the old column, that one is shared.
fn column_again(
    alloc: Global,
    old: &Arc<Column>,
    fresh: &[&Value],
    places: &[u32],
) -> Result<Arc<Column>, NoMemory>
    requires few { length places.now < 2 ^ 31 }
    requires places { All (λ place. place < length (arc_value old.now) + length fresh.now) places.now }
    requires short_old { All IsShort (arc_value old.now) }
    requires short_fresh { All IsShort (lent_values fresh.now) }
    ensures { IfOk result (λ column. arc_value column ≡ values_picked (arc_value old.now) (lent_values fresh.now) places.now) }
{
    if old.is_picked(fresh, places) {
        return Ok(old.clone()?);
    }
    Ok(Arc::new(alloc, Column::picked(alloc, old, fresh, places)?)?)
}

/// Columns of the values at places, where those of old columns come first, and those of fresh rows behind them.
pub fn columns_again(
    alloc: Global,
    old: &[Arc<Column>],
    fresh: &[RowValues<'_>],
    places: &[u32],
    count: u64,
) -> Result<Vec<Arc<Column>>, NoMemory>
    requires few { length places.now < 2 ^ 31 }
    requires long { HaveLength count (map arc_value old.now) }
    requires places { All (λ place. place < count + length fresh.now) places.now }
    requires short { All (λ column. All IsShort column) (map arc_value old.now) }
    requires rows { AreRows (length old.now) fresh.now }
    ensures { IfOk result (λ columns. map arc_value columns.items ≡ columns_picked (map arc_value old.now) fresh.now places.now) }
{
    let mut columns = Vec::with_capacity(alloc, old.len())?;
    for column in 0..old.len() {
        let values = values_fresh(alloc, fresh, column, old.len())?;
        columns.push(column_again(alloc, &old[column], values.as_slice(), places)?)?;
    }
    Ok(columns)
}
