ghost use Rattle.std.specs.Prelude.{◌≡◌, ◌+◌, ◌<◌, ◌≤◌, ◌==◌, drop, length, map, slice_get, take, IfOk, Some};
ghost use Rattle.im_values.specs.Widened.{widened};

use crate::no_memory::NoMemory;
use crate::row::{Row, append};
use crate::rows::Rows;
use crate::value::Value;
use std::alloc::Global;
use std::marker::Model;

/// The values of one row, lent: those that were written, and behind them the defaults of the columns that its table got since.
///
/// Contracts see one list. A row that is only read is lengthened so, and not copied: it takes no memory.
#[derive(Drop)]
pub struct RowValues<'a> {
    written: &'a [Value],
    defaults: &'a [Value],
}

impl<'a> Model for RowValues<'a> {
    ghost use Rattle.std.specs.Prelude.{List};
    ghost use Rattle.im_values.specs.declared.content.Content.{Content as AnyValue};

    ghost Value = { List AnyValue };

    ghost use Rattle.im_values.specs.Widened.{widened};

    ghost view = { λ r. widened r.defaults.now r.written.now };
}

impl<'a> RowValues<'a> {
    /// The values of a row that lacks none.
    pub fn of(written: &'a [Value]) -> RowValues<'a>
        ensures { result ≡ written.now }
    {
        RowValues {
            written,
            defaults: written,
        }
    }

    /// The values of a row, with these defaults from its length on. A row that is as long as they are stays as it is.
    pub fn with(written: &'a [Value], defaults: &'a [Value]) -> RowValues<'a>
        ensures { result ≡ widened defaults.now written.now }
    {
        RowValues { written, defaults }
    }

    /// The same values once more.
    pub fn again(&self) -> RowValues<'a>
        ensures { result ≡ self.now }
    {
        RowValues {
            written: self.written,
            defaults: self.defaults,
        }
    }

    /// How many values there are.
    pub fn len(&self) -> usize
        ensures { result ≡ length self.now }
    {
        self.written.len().max(self.defaults.len())
    }

    /// Whether there is none.
    pub fn is_empty(&self) -> bool
        ensures { result ≡ (length self.now == 0) }
    {
        self.len() == 0
    }

    /// The value at a place, from 0.
    pub fn at(&self, column: usize) -> &'a Value
        requires { column < length self.now }
        ensures { slice_get self.now column ≡ Some result.now }
    {
        if column < self.written.len() {
            &self.written[column]
        } else {
            &self.defaults[column]
        }
    }

    /// A row of copies of the values.
    pub fn copied(&self, alloc: Global) -> Result<Row, NoMemory>
        ensures { IfOk result (λ row. row ≡ self.now) }
    {
        let mut values = Vec::with_capacity(alloc, self.len())?;
        append(alloc, &mut values, self.written)?;
        append(
            alloc,
            &mut values,
            behind(self.defaults, self.written.len()),
        )?;
        Ok(Row::of(values))
    }
}

/// The values from a place on, or none where there are not so many.
fn behind(values: &[Value], place: usize) -> &[Value]
    ensures { result.now ≡ drop place values.now }
{
    &values[place.min(values.len())..]
}

/// A row with these defaults from its length on. A row that is as long as they are stays as it is, and takes no memory.
pub fn widen(alloc: Global, row: Row, defaults: &[Value]) -> Result<Row, NoMemory>
    ensures { IfOk result (λ wide. wide ≡ widened defaults.now row) }
{
    if row.values().len() >= defaults.len() {
        return Ok(row);
    }
    RowValues::with(row.values(), defaults).copied(alloc)
}

/// So many rows of a run from a first one on, lent, each with these defaults from its length on.
///
/// Contracts see the list of rows. None is copied or shared: it takes no memory.
#[derive(Drop)]
pub struct WideRun<'a> {
    rows: &'a Rows,
    first: usize,
    count: usize,
    defaults: &'a [Value],
}

impl<'a> Model for WideRun<'a> {
    ghost use Rattle.std.specs.Prelude.{◌+◌, ◌^◌, ◌≤◌, ◌<◌, List, drop, length, map, take};
    ghost use Rattle.im_values.specs.declared.content.Content.{Content as AnyValue};

    ghost Value = { List (List AnyValue) };

    ghost use Rattle.im_values.specs.Widened.{widened};

    ghost view = { λ r. map (widened r.defaults.now) (take r.count (drop r.first r.rows.now)) };

    ghost invariant = { λ r. (r.first + r.count ≤ length r.rows.now) × (r.first + r.count < 2 ^ 64) };
}

impl<'a> WideRun<'a> {
    /// All rows of a run, with these defaults.
    pub fn of(rows: &'a Rows, defaults: &'a [Value]) -> WideRun<'a>
        ensures { result ≡ map (widened defaults.now) rows.now }
    {
        WideRun {
            rows,
            first: 0,
            count: rows.len(),
            defaults,
        }
    }

    /// So many of the rows from a place on.
    pub fn part(&self, from: usize, count: usize) -> WideRun<'a>
        requires { from + count ≤ length self.now }
        ensures { result ≡ take count (drop from self.now) }
    {
        WideRun {
            rows: self.rows,
            first: self.first + from,
            count,
            defaults: self.defaults,
        }
    }

    /// How many rows there are.
    pub fn len(&self) -> usize
        ensures { result ≡ length self.now }
    {
        self.count
    }

    /// Whether there is no row.
    pub fn is_empty(&self) -> bool
        ensures { result ≡ (length self.now == 0) }
    {
        self.len() == 0
    }

    /// Whether the rows lack no column: then [`row`](WideRun::row) shares their block.
    pub fn is_whole(&self) -> bool {
        self.rows.width() >= self.defaults.len()
    }

    /// The values of the row at a place, from 0. It takes no memory and counts nothing.
    pub fn values(&self, at: usize) -> RowValues<'a>
        requires { at < length self.now }
        ensures { slice_get self.now at ≡ Some result }
    {
        RowValues::with(self.rows.values(self.first + at), self.defaults)
    }

    /// The row at a place, from 0. It shares the block, and is refused where as many share it as can; where the rows lack columns it is
    /// a copy.
    pub fn row(&self, alloc: Global, at: usize) -> Result<Row, NoMemory>
        requires { at < length self.now }
        ensures { IfOk result (λ row. slice_get self.now at ≡ Some row) }
    {
        let row = self.rows.row(self.first + at)?;
        let wide = widen(alloc, row, self.defaults)?;
        Ok(wide)
    }
}
