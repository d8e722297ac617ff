ghost use Rattle.std.specs.Prelude.{◌≡◌, ◌≤◌};
ghost use Rattle.std.specs.Bool.{OnTrue};
ghost use Rattle.im_history.specs.Grid.{per_extent};
ghost use Rattle.im_history.specs.Puts.{lent_change};
ghost use Rattle.im_history.specs.Tables.{table_among};
ghost use Rattle.im_history.specs.Views.{grid_of};
ghost use Rattle.im_directory.specs.Effects.{extent_in};
ghost use Rattle.im_directory.specs.Steps.{IsRange, IsWithin};

use im_history::{Catalog, LentChange, Shape};

/// Row numbers of a table that one extent has: so many, from a first one on.
///
/// Changes side by side are mostly to one extent. It is kept from one to the next, so that a run of them costs one
/// look-up of the table and one division.
#[derive(Clone, Copy)]
pub struct ExtentRange {
    pub table: u32,
    pub extent: u64,
    pub first: u64,
    pub count: u64,
}

impl ExtentRange {
    /// No row number.
    #[tactic(auto, using(crate::proofs::RangeLemmas::IsRange_none))]
    pub fn none(tables: &Catalog) -> ExtentRange
        ensures { IsRange tables.now result }
    {
        let _ = tables;
        ExtentRange {
            table: 0,
            extent: 0,
            first: 0,
            count: 0,
        }
    }

    /// The extent of a change's row, whose row numbers it is from now on.
    pub fn extent_of(&mut self, tables: &Catalog, change: LentChange<'_>) -> u64
        requires { IsRange tables.now self.old }
        ensures range { IsRange tables.now self.new }
        ensures extent { result ≡ extent_in tables.now (lent_change change.entry) }
    {
        if self.has(change) {
            return self.extent;
        }
        *self = range_of(tables, change);
        self.extent
    }

    /// Whether it has the row of a change.
    fn has(&self, change: LentChange<'_>) -> bool
        ensures { OnTrue result (IsWithin self.now (lent_change change.entry)) }
    {
        change.table == self.table
            && self.first <= change.rid
            && change.rid - self.first < self.count
    }
}

/// The row numbers of the extent of a change's row.
fn range_of(tables: &Catalog, change: LentChange<'_>) -> ExtentRange
    ensures range { IsRange tables.now result }
    ensures extent { result.extent ≡ extent_in tables.now (lent_change change.entry) }
{
    let count = row_numbers(tables, change.table);
    let extent = change.rid / count;
    ExtentRange {
        table: change.table,
        extent,
        first: change.rid - change.rid % count,
        count,
    }
}

/// Row numbers in an extent of a table: where there is no such table, as many as in one that names no shape.
fn row_numbers(tables: &Catalog, table: u32) -> u64
    ensures per { result ≡ per_extent (grid_of (table_among tables.now table)) }
    ensures some { 1 ≤ result }
{
    if table == 0 {
        return Shape::standard().per_extent();
    }
    match tables.tables().get(table as usize - 1) {
        Some(table) => table.info().shape.per_extent(),
        None => Shape::standard().per_extent(),
    }
}
