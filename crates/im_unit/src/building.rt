ghost use Rattle.std.specs.Prelude.{◌≡◌, ◌+◌, ◌<◌, ◌≤◌, ◌++◌, ◌∷◌, [], IfOk, IfSome, get_or, length, map, vec_len, vec_capacity};
ghost use Rattle.im_values.specs.declared.content.Content.TheVariants.{Int, Null};
ghost use Rattle.std.specs.Arc.{arc_value};
ghost use Rattle.std.specs.List.{range_with_len};
ghost use Rattle.std.specs.Option.{option_copied};
ghost use Rattle.im_unit.specs.Holding.{lent_slots, present_rows, values_in};
ghost use Rattle.im_unit.specs.inner.Kept.{AreRows, lent, lent_values, lent_wide};
ghost use Rattle.im_values.specs.Widened.{widened};

use im_column::Column;
use im_history::lent_values;
use im_values::{NoMemory, Row, Seen, Value};
use std::alloc::Global;
use std::sync::Arc;

/// Rows, or none, lent.
pub fn lend_slots<'a>(
    alloc: Global,
    rows: &'a [Option<Row>],
) -> Result<Vec<Option<&'a [Value]>>, NoMemory>
    ensures { IfOk result (λ slots. lent_slots slots.items ≡ rows.now) }
{
    let mut slots = Vec::with_capacity(alloc, rows.len())?;
    for row in rows {
        slots.push(lent_values(row))?;
    }
    Ok(slots)
}

/// Puts a row, where there is one, behind others. There is room for one.
fn put_present<'a>(row: Option<&'a [Value]>, present: &mut Vec<&'a [Value]>)
    requires { vec_len present.old < vec_capacity present.old }
    ensures rows { lent present.new.items ≡ lent present.old.items ++ present_rows (option_copied row.entry ∷ []) }
    ensures room { vec_capacity present.new ≡ vec_capacity present.old }
    ensures few { vec_len present.new ≤ vec_len present.old + 1 }
{
    if let Some(row) = row {
        present.push_reserved(row);
    }
}

/// The rows that are present. They stay where they are.
pub fn rows_present<'a>(
    alloc: Global,
    rows: &[Option<&'a [Value]>],
) -> Result<Vec<&'a [Value]>, NoMemory>
    ensures { IfOk result (λ present. lent present.items ≡ present_rows (lent_slots rows.now)) }
{
    let mut present = Vec::with_capacity(alloc, rows.len())?;
    for i in 0..rows.len() {
        put_present(rows[i], &mut present);
    }
    Ok(present)
}

/// The value of a row in one column, which is the default of it where the row lacks it.
#[inline(always)]
fn value_in<'a>(row: &'a [Value], defaults: &'a [Value], column: usize) -> &'a Value
    requires { column < length (widened defaults.now row.now) }
    ensures { result.now ≡ get_or (widened defaults.now row.now) column Null }
{
    if column < row.len() {
        &row[column]
    } else {
        &defaults[column]
    }
}

/// The values of rows in one column, lent.
fn values_lent<'a>(
    alloc: Global,
    rows: &[&'a [Value]],
    defaults: &'a [Value],
    column: usize,
    width: usize,
) -> Result<Vec<&'a Value>, NoMemory>
    requires rows { AreRows width (lent_wide defaults.now rows.now) }
    requires inside { column < width }
    ensures { IfOk result (λ values. lent_values values.items ≡ values_in column (lent_wide defaults.now rows.now)) }
{
    let mut values = Vec::with_capacity(alloc, rows.len())?;
    for i in 0..rows.len() {
        values.push_reserved(value_in(rows[i], defaults, column));
    }
    Ok(values)
}

/// The whole number of a row in one column, where it is one.
#[inline(always)]
fn number_in(row: &[Value], defaults: &[Value], column: usize) -> Option<i64>
    requires { column < length (widened defaults.now row.now) }
    ensures { IfSome result (λ number. get_or (widened defaults.now row.now) column Null ≡ Int number) }
{
    match value_in(row, defaults, column).seen() {
        Seen::Int(number) => Some(number),
        Seen::Text(_) | Seen::Null => None,
    }
}

/// The values of rows in one column, where all are whole numbers.
fn numbers_in(
    alloc: Global,
    rows: &[&[Value]],
    defaults: &[Value],
    column: usize,
    width: usize,
) -> Result<Option<Vec<i64>>, NoMemory>
    requires rows { AreRows width (lent_wide defaults.now rows.now) }
    requires inside { column < width }
    ensures { IfOk result (λ found. IfSome found (λ numbers. map (λ number. Int number) numbers.items ≡ values_in column (lent_wide defaults.now rows.now))) }
{
    let mut numbers = Vec::with_capacity(alloc, rows.len())?;
    for i in 0..rows.len() {
        let Some(number) = number_in(rows[i], defaults, column) else {
            return Ok(None);
        };
        numbers.push_reserved(number);
    }
    Ok(Some(numbers))
}

/// One column of rows.
fn column_of(
    alloc: Global,
    rows: &[&[Value]],
    defaults: &[Value],
    column: usize,
    width: usize,
) -> Result<Arc<Column>, NoMemory>
    requires rows { AreRows width (lent_wide defaults.now rows.now) }
    requires inside { column < width }
    ensures { IfOk result (λ built. arc_value built ≡ values_in column (lent_wide defaults.now rows.now)) }
{
    if let Some(numbers) = numbers_in(alloc, rows, defaults, column, width)? {
        return Ok(Arc::new(alloc, Column::of_numbers(alloc, numbers.as_slice())?)?);
    }
    let values = values_lent(alloc, rows, defaults, column, width)?;
    Ok(Arc::new(alloc, Column::build_lent(alloc, values.as_slice())?)?)
}

/// The columns of rows, each with these defaults from its length on.
pub fn columns_of(
    alloc: Global,
    rows: &[&[Value]],
    defaults: &[Value],
    width: usize,
) -> Result<Vec<Arc<Column>>, NoMemory>
    requires rows { AreRows width (lent_wide defaults.now rows.now) }
    ensures { IfOk result (λ columns.
        map arc_value columns.items ≡ map (λ column. values_in column (lent_wide defaults.now rows.now)) (range_with_len 0 width)) }
{
    let mut columns = Vec::with_capacity(alloc, width)?;
    for column in 0..width {
        columns.push(column_of(alloc, rows, defaults, column, width)?)?;
    }
    Ok(columns)
}
