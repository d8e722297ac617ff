ghost use Rattle.std.specs.Prelude.{◌≡◌, ◌+◌, ◌*◌, ◌^◌, ◌<◌, ◌≤◌, ◌++◌, ◌∷◌, All, IfOk, OnOk, length, map, get_or, true, None, Some, [], if◌then◌else◌, vec_len, vec_capacity};
ghost use Rattle.std.specs.Arc.{arc_value};
ghost use Rattle.im_values.specs.declared.content.Content.TheVariants.{Null};
ghost use Rattle.std.specs.Vec.Iter.{into_iter_items};
ghost use Rattle.im_unit.specs.inner.Kept.{HaveLength, IsPiece, Takes, lent_values, row_across, rows_across, rows_from, spread};

use crate::presence::Presence;
use im_column::Column;
use im_values::{NoMemory, Row, Value, rows_of_block};
use std::alloc::Global;
use std::sync::Arc;
use std::vec::IntoIter;

/// Puts the values at a place of columns behind others.
pub fn push_row(
    alloc: Global,
    values: &mut Vec<Value>,
    columns: &[Arc<Column>],
    spot: u64,
    count: u64,
) -> Result<(), NoMemory>
    requires long { HaveLength count (map arc_value columns.now) }
    requires inside { spot < count }
    ensures { OnOk result (values.new.items ≡ values.old.items ++ row_across (map arc_value columns.now) spot) }
{
    for column in columns {
        values.push(column.get(spot).copy(alloc)?)?;
    }
    Ok(())
}

/// The row at a place of columns.
pub fn row_at(
    alloc: Global,
    columns: &[Arc<Column>],
    spot: u64,
    count: u64,
) -> Result<Row, NoMemory>
    requires long { HaveLength count (map arc_value columns.now) }
    requires inside { spot < count }
    ensures { IfOk result (λ row. row ≡ row_across (map arc_value columns.now) spot) }
{
    let mut values = Vec::with_capacity(alloc, columns.len())?;
    push_row(alloc, &mut values, columns, spot, count)?;
    Ok(Row::of(values))
}

/// How many values a column lends at a time, and how many rows share a block of values.
const PIECE: u64 = 64;

/// Room for what columns lend at 64 places.
fn piece_for<'a>(
    alloc: Global,
    columns: &'a [Arc<Column>],
    count: u64,
) -> Result<Vec<[&'a Value; 64]>, NoMemory>
    requires long { HaveLength count (map arc_value columns.now) }
    requires some { 0 < count }
    ensures { IfOk result (λ piece. length piece.items ≡ length columns.now) }
{
    let mut piece = Vec::with_capacity(alloc, columns.len())?;
    for column in columns {
        piece.push([column.get(0); 64])?;
    }
    Ok(piece)
}

/// Lends the values of columns at 64 places from one on.
fn lend_piece<'a>(columns: &'a [Arc<Column>], first: u64, piece: &mut Vec<[&'a Value; 64]>)
    requires within { All (λ column. first ≤ length column) (map arc_value columns.now) }
    requires many { length piece.old.items ≡ length columns.now }
    ensures { IsPiece (map arc_value columns.now) first piece.new.items }
{
    for i in 0..columns.len() {
        columns[i].lend_from(first, &mut piece[i]);
    }
}

/// Puts a copy of a value behind others.
fn push_copy(alloc: Global, values: &mut Vec<Value>, value: &Value) -> Result<(), NoMemory>
    requires room { vec_len values.old + 1 ≤ vec_capacity values.old }
    ensures items { OnOk result (values.new.items ≡ values.old.items ++ value.now ∷ []) }
    ensures len { OnOk result (vec_len values.new ≡ vec_len values.old + 1) }
    ensures capacity { vec_capacity values.new ≡ vec_capacity values.old }
{
    values.push_reserved(value.copy(alloc)?);
    Ok(())
}

/// A value of those that a column lends.
fn value_at<'a>(lent: &[&'a Value; 64], k: usize) -> &'a Value
    requires { k < 64 }
    ensures { result.now ≡ get_or (lent_values lent.now) k Null }
{
    let lent = lent.as_slice();
    lent[k]
}

/// Puts the values that columns lend for one row behind others.
fn push_lent(
    alloc: Global,
    values: &mut Vec<Value>,
    piece: &Vec<[&Value; 64]>,
    k: usize,
) -> Result<(), NoMemory>
    requires inside { k < 64 }
    requires room { vec_len values.old + vec_len piece.now ≤ vec_capacity values.old }
    ensures items { OnOk result (values.new.items ≡ values.old.items ++ row_across (map lent_values piece.now.items) k) }
    ensures len { OnOk result (vec_len values.new ≡ vec_len values.old + vec_len piece.now) }
    ensures capacity { vec_capacity values.new ≡ vec_capacity values.old }
{
    for i in 0..piece.len() {
        push_copy(alloc, values, value_at(&piece[i], k))?;
    }
    Ok(())
}

/// So many rows of columns from a place on, which share one block.
fn rows_at<'a>(
    alloc: Global,
    columns: &'a [Arc<Column>],
    first: u64,
    count: usize,
    piece: &mut Vec<[&'a Value; 64]>,
) -> Result<Vec<Row>, NoMemory>
    requires within { All (λ column. first ≤ length column) (map arc_value columns.now) }
    requires many { length piece.old.items ≡ length columns.now }
    requires few_columns { length columns.now ≤ 16 }
    requires few_rows { count ≤ 64 }
    ensures rows { IfOk result (λ rows. rows.items ≡ rows_from (map arc_value columns.now) first count) }
    ensures many { length piece.new.items ≡ length columns.now }
{
    let width = columns.len();
    lend_piece(columns, first, piece);
    let mut values = Vec::with_capacity(alloc, count * width)?;
    for k in 0..count {
        push_lent(alloc, &mut values, piece, k)?;
    }
    rows_of_block(alloc, values, width, count)
}

/// All rows of columns.
pub fn rows_of(alloc: Global, columns: &[Arc<Column>], count: u64) -> Result<Vec<Row>, NoMemory>
    requires long { HaveLength count (map arc_value columns.now) }
    requires few_rows { count < 2 ^ 31 }
    requires few_columns { length columns.now ≤ 16 }
    ensures { IfOk result (λ rows. rows.items ≡ rows_across (map arc_value columns.now) count) }
{
    if count == 0 {
        return Ok(Vec::new(alloc));
    }
    let mut piece = piece_for(alloc, columns, count)?;
    let mut rows = Vec::with_capacity(alloc, count as usize)?;
    for i in 0..count.div_ceil(PIECE) {
        let first = i * PIECE;
        let many = PIECE.min(count - first) as usize;
        rows.append(&mut rows_at(alloc, columns, first, many, &mut piece)?)?;
    }
    Ok(rows)
}

/// Puts rows behind others, each as one that is there.
fn put_rows(slots: &mut Vec<Option<Row>>, rows: Vec<Row>)
    requires room { vec_len slots.old + vec_len rows ≤ vec_capacity slots.old }
    ensures items { slots.new.items ≡ slots.old.items ++ map Some rows.items }
    ensures len { vec_len slots.new ≡ vec_len slots.old + vec_len rows }
    ensures capacity { vec_capacity slots.new ≡ vec_capacity slots.old }
{
    for row in rows {
        slots.push_reserved(Some(row));
    }
}

/// All rows of columns, each as one that is there.
pub fn slots_of(
    alloc: Global,
    columns: &[Arc<Column>],
    count: u64,
) -> Result<Vec<Option<Row>>, NoMemory>
    requires long { HaveLength count (map arc_value columns.now) }
    requires few_rows { count < 2 ^ 31 }
    requires few_columns { length columns.now ≤ 16 }
    ensures { IfOk result (λ slots. slots.items ≡ map Some (rows_across (map arc_value columns.now) count)) }
{
    if count == 0 {
        return Ok(Vec::new(alloc));
    }
    let mut piece = piece_for(alloc, columns, count)?;
    let mut slots = Vec::with_capacity(alloc, count as usize)?;
    for i in 0..count.div_ceil(PIECE) {
        let first = i * PIECE;
        let many = PIECE.min(count - first) as usize;
        let rows = rows_at(alloc, columns, first, many, &mut piece)?;
        put_rows(&mut slots, rows);
    }
    Ok(slots)
}

/// The row that comes next, where a place has one.
fn next_where(is_present: bool, rows: &mut IntoIter<Row>) -> Option<Row>
    ensures { Takes is_present (into_iter_items rows.old) result (into_iter_items rows.new) }
{
    if !is_present {
        return None;
    }
    rows.next()
}

/// Rows, put one after another where a row is present.
pub fn spread_rows(
    alloc: Global,
    presence: &Presence,
    rows: Vec<Row>,
) -> Result<Vec<Option<Row>>, NoMemory>
    ensures { IfOk result (λ spread_out. spread_out.items ≡ spread presence.now rows.items) }
{
    let mut slots = Vec::with_capacity(alloc, presence.len() as usize)?;
    let mut rows = rows.into_iter();
    for place in 0..presence.len() {
        slots.push(next_where(presence.is_present(place), &mut rows))?;
    }
    Ok(slots)
}
