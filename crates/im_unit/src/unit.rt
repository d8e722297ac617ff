ghost use Rattle.std.specs.Prelude.{◌≡◌, ◌+◌, ◌<◌, ◌≤◌, ◌^◌, All, map, length, sum_by, get_or, take, IfOk, Some, None, is_some, if◌then◌else◌};
ghost use Rattle.std.specs.Bool.{OnTrue};
ghost use Rattle.std.specs.Arc.{arc_value};
ghost use Rattle.im_values.specs.Sizes.{column_bytes};
ghost use Rattle.im_index.specs.Bounds.{bounds_of};
ghost use Rattle.im_unit.specs.Holding.{AreShort, HaveWidth, columns_of, count_present, edges_of, present_rows, row_of, spot_of, values_in, wide_slots};
ghost use Rattle.im_unit.specs.Rebuilt.{RiseWithin, fetched_rows, rebuilt};
ghost use Rattle.im_unit.specs.Widened.{widened_content};
ghost use Rattle.im_column.specs.Forms.{IsShort};
ghost use Rattle.im_unit.specs.inner.Kept.{AreBounded, HaveLength, content_kept, count_set, rows_kept};

use crate::building::{columns_of, lend_slots, rows_present};
use crate::planning::{places_of, planned};
use crate::presence::Presence;
use crate::reading::{push_row, row_at, rows_of, slots_of, spread_rows};
use crate::rebuilding::{columns_again, fresh_rows};
use crate::widening::columns_widened;
use im_column::Column;
use im_history::{LentRow, UnitLike};
use im_index::Bounds;
use im_values::limits::MOST_COLUMNS;
use im_values::{NoMemory, Row, Value};
use std::alloc::Global;
use std::marker::Model;
use std::sync::Arc;

/// The rows of one extent that were committed by an SCN.
#[derive(Drop)]
pub struct ColumnUnit {
    scn: u64,
    first: u64,
    presence: Presence,
    columns: Vec<Arc<Column>>,
    edges: Vec<Bounds>,
    bytes: u64,
}

impl Model for ColumnUnit {
    ghost use Rattle.std.specs.Prelude.{◌≡◌, ◌+◌, ◌*◌, ◌≤◌, ◌<◌, ◌^◌, length, map, sum_by};
    ghost use Rattle.std.specs.Arc.{arc_value};
    ghost use Rattle.std.specs.Int.{div_ceil};
    ghost use Rattle.im_values.specs.Sizes.{column_bytes};
    ghost use Rattle.im_index.specs.Bounds.{bounds_of};
    ghost use Rattle.im_history.specs.Units.{Content};
    ghost use Rattle.im_unit.specs.Holding.{AreShort};
    ghost use Rattle.im_unit.specs.inner.Kept.{HaveLength, content_kept, count_set, rows_kept};

    ghost Value = { Content };

    ghost view = { λ u. content_kept u.scn u.first (length u.columns.items) u.presence (map arc_value u.columns.items) };

    ghost invariant = { λ u. HaveLength (count_set u.presence) (map arc_value u.columns.items) × (length u.columns.items ≤ 16) × (u.bytes ≡ 8 * div_ceil (length u.presence) 64 + sum_by column_bytes (map arc_value u.columns.items)) × (u.edges.items ≡ map bounds_of (map arc_value u.columns.items)) × AreShort (rows_kept u.presence (map arc_value u.columns.items)) };
}

/// The bytes of columns.
fn bytes_of(columns: &[Arc<Column>]) -> u64
    requires few { length columns.now ≤ 16 }
    requires bounded { AreBounded (map arc_value columns.now) }
    ensures bytes { result ≡ sum_by column_bytes (map arc_value columns.now) }
    ensures few { result ≤ 2 ^ 53 }
{
    let mut bytes = 0;
    for column in columns {
        bytes += column.bytes();
    }
    bytes
}

/// The bounds of columns, once more.
fn edges_of(alloc: Global, columns: &[Arc<Column>]) -> Result<Vec<Bounds>, NoMemory>
    ensures { IfOk result (λ edges. edges.items ≡ map bounds_of (map arc_value columns.now)) }
{
    let mut edges = Vec::with_capacity(alloc, columns.len())?;
    for column in columns {
        edges.push(column.bounds().copy(alloc)?)?;
    }
    Ok(edges)
}

/// A unit of columns and of which rows are present, with the bounds and the bytes of the columns.
fn of_parts(
    alloc: Global,
    scn: u64,
    first: u64,
    presence: Presence,
    columns: Vec<Arc<Column>>,
) -> Result<ColumnUnit, NoMemory>
    requires long { HaveLength (count_set presence) (map arc_value columns.items) }
    requires few { length columns.items ≤ 16 }
    requires bounded { AreBounded (map arc_value columns.items) }
    requires short { AreShort (rows_kept presence (map arc_value columns.items)) }
    ensures { IfOk result (λ unit. unit ≡ content_kept scn first (length columns.items) presence (map arc_value columns.items)) }
{
    let edges = edges_of(alloc, columns.as_slice())?;
    let bytes = presence.bytes() + bytes_of(columns.as_slice());
    Ok(ColumnUnit {
        scn,
        first,
        presence,
        columns,
        edges,
        bytes,
    })
}

impl ColumnUnit {
    /// A unit of these rows, the first of which has the row number `first`.
    ///
    /// It costs the rows that are present, and a column's dictionary and codes for each column.
    pub fn build(
        alloc: Global,
        scn: u64,
        first: u64,
        columns: u32,
        rows: &[Option<Row>],
    ) -> Result<ColumnUnit, NoMemory>
        requires width { HaveWidth columns rows.now }
        requires short { AreShort rows.now }
        requires few_columns { columns ≤ MOST_COLUMNS }
        requires few_rows { length rows.now < 2 ^ 31 }
        requires within { first + length rows.now < 2 ^ 64 }
        ensures { IfOk result (λ unit.
            unit ≡ record { scn = scn; first = first; columns = columns; rows = rows.now }) }
    {
        let slots = lend_slots(alloc, rows)?;
        ColumnUnit::build_lent(alloc, scn, first, columns, slots.as_slice(), &[])
    }

    /// The same of rows that are lent as they were written, each with these defaults from its length on. It takes no handle of any.
    pub fn build_lent(
        alloc: Global,
        scn: u64,
        first: u64,
        columns: u32,
        rows: &[Option<&[Value]>],
        defaults: &[Value],
    ) -> Result<ColumnUnit, NoMemory>
        requires width { HaveWidth columns (wide_slots defaults.now rows.now) }
        requires short { AreShort (wide_slots defaults.now rows.now) }
        requires few_columns { columns ≤ MOST_COLUMNS }
        requires few_rows { length rows.now < 2 ^ 31 }
        requires within { first + length rows.now < 2 ^ 64 }
        ensures { IfOk result (λ unit.
            unit ≡ record { scn = scn; first = first; columns = columns; rows = wide_slots defaults.now rows.now }) }
    {
        let presence = Presence::of(alloc, rows)?;
        let present = rows_present(alloc, rows)?;
        let columns = columns_of(alloc, present.as_slice(), defaults, columns as usize)?;
        let unit = of_parts(alloc, scn, first, presence, columns)?;
        Ok(unit)
    }

    /// A unit built anew at an SCN: the rows of an old one, with those that were fetched since in their places. A row number that
    /// was fetched without a row has none then.
    ///
    /// A column of which no value changed is shared with the old unit, where the same rows are present. Of another the dictionary is
    /// kept where it is still exactly that of the values, and only codes are made; else the column is built of all its values. Beside
    /// that it costs a step for each row number, and the fetched values.
    pub fn rebuild(
        alloc: Global,
        old: &ColumnUnit,
        scn: u64,
        fetched: &[LentRow<'_>],
    ) -> Result<ColumnUnit, NoMemory>
        requires within { RiseWithin old.now.first (old.now.first + length old.now.rows) fetched.now }
        requires width { HaveWidth old.now.columns (fetched_rows fetched.now) }
        requires short { AreShort (fetched_rows fetched.now) }
        ensures { IfOk result (λ unit. unit ≡ rebuilt old.now scn fetched.now) }
    {
        let slots = planned(alloc, old, fetched)?;
        let presence = Presence::of(alloc, slots.as_slice())?;
        let places = places_of(alloc, slots.as_slice())?;
        let fresh = fresh_rows(alloc, fetched)?;
        let columns = columns_again(
            alloc,
            old.columns.as_slice(),
            fresh.as_slice(),
            places.as_slice(),
            old.presence.count(),
        )?;
        let unit = of_parts(alloc, scn, old.first, presence, columns)?;
        Ok(unit)
    }

    /// The same unit with as many columns as there are defaults: its own, shared, and behind them one for each default that comes
    /// after these, which stands in each row that is present.
    ///
    /// It costs the columns, and nothing for a row.
    pub fn widened(&self, alloc: Global, defaults: &[Value]) -> Result<ColumnUnit, NoMemory>
        requires more { self.now.columns ≤ length defaults.now }
        requires few { length defaults.now ≤ MOST_COLUMNS }
        requires short { All IsShort defaults.now }
        ensures { IfOk result (λ unit. unit ≡ widened_content defaults.now self.now) }
    {
        let columns = columns_widened(
            alloc,
            self.columns.as_slice(),
            self.presence.count(),
            defaults,
        )?;
        let presence = self.presence.share()?;
        let unit = of_parts(alloc, self.scn, self.first, presence, columns)?;
        Ok(unit)
    }

    /// A copy of the row at a row number: None where there is none, and where the row number is not the unit's.
    ///
    /// It costs a value of each column.
    pub fn get(&self, alloc: Global, rid: u64) -> Result<Option<Row>, NoMemory>
        ensures { IfOk result (λ row. row ≡ row_of self.now rid) }
    {
        let Some(spot) = self.spot(rid) else {
            return Ok(None);
        };
        let row = row_at(alloc, self.columns.as_slice(), spot, self.presence.count())?;
        Ok(Some(row))
    }

    /// Writes the row at a row number into a list, in place of what stands there: false, and nothing is written, where `get` has
    /// none.
    ///
    /// It costs a value of each column, and room for the list only where it has none.
    pub fn read(&self, alloc: Global, rid: u64, values: &mut Vec<Value>) -> Result<bool, NoMemory>
        ensures { IfOk result (λ found. (if found then Some values.new.items else None) ≡ row_of self.now rid) }
    {
        let Some(spot) = self.spot(rid) else {
            return Ok(false);
        };
        values.clear();
        push_row(
            alloc,
            values,
            self.columns.as_slice(),
            spot,
            self.presence.count(),
        )?;
        Ok(true)
    }

    /// How many present rows have a lower row number: the place of a row in the columns. None exactly where no row is present at
    /// this row number.
    ///
    /// It takes no memory, and costs at most 64 bits.
    pub fn spot(&self, rid: u64) -> Option<u64>
        ensures { result ≡ spot_of self.now rid }
    {
        if rid < self.first {
            return None;
        }
        let place = rid - self.first;
        if place >= self.presence.len() {
            return None;
        }
        if !self.presence.is_present(place) {
            return None;
        }
        let spot = self.presence.before(place);
        Some(spot)
    }

    /// The rows by row number, from the first one on, read back. Their values are copied, 64 rows at a time into one block that
    /// these share.
    pub fn rows(&self, alloc: Global) -> Result<Vec<Option<Row>>, NoMemory>
        ensures { IfOk result (λ rows. rows.items ≡ self.now.rows) }
    {
        let columns = self.columns.as_slice();
        let count = self.presence.count();
        if self.presence.is_full() {
            return slots_of(alloc, columns, count);
        }
        let rows = rows_of(alloc, columns, count)?;
        spread_rows(alloc, &self.presence, rows)
    }

    /// How many row numbers it has, from its first one on.
    pub fn len(&self) -> u64
        ensures len { result ≡ length self.now.rows }
        ensures few { result < 2 ^ 31 }
    {
        self.presence.len()
    }

    /// Whether a row is present at each of its row numbers: then the place of a row in the columns is how far its row number is
    /// from the first one.
    pub fn is_full(&self) -> bool
        ensures { OnTrue result (count_present self.now.rows ≡ length self.now.rows) }
    {
        self.presence.is_full()
    }

    /// Whether a row is present at a place: how far its row number is from the first one.
    pub fn is_present(&self, place: u64) -> bool
        requires { place < length self.now.rows }
        ensures { result ≡ is_some (get_or self.now.rows place None) }
    {
        self.presence.is_present(place)
    }

    /// How many rows are present before a place. It takes no memory, and costs at most 64 bits.
    pub fn before(&self, place: u64) -> u64
        requires { place ≤ length self.now.rows }
        ensures { result ≡ count_present (take place self.now.rows) }
    {
        let present = self.presence.before(place);
        present
    }

    /// The columns: the values of the rows that are present, in order of row numbers.
    pub fn columns(&self) -> &[Arc<Column>]
        ensures values { map arc_value result.now ≡ columns_of self.now }
        ensures wide { HaveWidth self.now.columns self.now.rows }
    {
        self.columns.as_slice()
    }

    /// The column of a number, from 0.
    pub fn column(&self, i: u32) -> &Column
        requires { i < self.now.columns }
        ensures { result.now ≡ values_in i (present_rows self.now.rows) }
    {
        &self.columns[i as usize]
    }

    /// The bounds of the columns, in order. It takes no memory.
    pub fn edges(&self) -> &[Bounds]
        ensures { result.now ≡ edges_of self.now }
    {
        self.edges.as_slice()
    }

    /// The row number of the first of its rows.
    pub fn first(&self) -> u64
        ensures { result ≡ self.now.first }
    {
        self.first
    }
}

impl UnitLike for ColumnUnit {
    ghost content = { λ unit. unit };

    fn scn(&self) -> u64 {
        self.scn
    }

    fn columns(&self) -> u32 {
        self.columns.len() as u32
    }

    fn bytes(&self) -> u64 {
        self.bytes
    }

    fn present(&self) -> u64
        ensures count { result ≡ count_present self.now.rows }
        ensures few { result < 2 ^ 31 }
    {
        self.presence.count()
    }
}
