ghost use Rattle.std.specs.Prelude.{◌≡◌, ◌-◌, [], ◌∷◌, length, option_copied, slice_get, IfOk};
ghost use Rattle.im_blocks.specs.Runs as runs;

use im_values::{NoMemory, Row, Rows, Value, clone_row};
use std::alloc::Global;

/// The rows of a run.
#[derive(Drop)]
pub enum Held {
    /// Rows of one block.
    Many(Rows),
    /// A row that has memory of its own.
    One(Row),
}

/// Rows that one commit put at row numbers of a table, from a first one on.
///
/// A run takes 64 bytes beside its rows. A row of it that another commit touches is read from a chain then.
#[derive(Drop)]
pub struct Run {
    /// The table's number.
    pub table: u32,
    /// The first row number.
    pub first: u64,
    /// The SCN of the commit.
    pub scn: u64,
    /// The rows.
    pub rows: Held,
}

impl Run {
    /// A run of one row. It takes no memory.
    pub fn of_row(table: u32, rid: u64, scn: u64, row: Row) -> Run
        ensures place { (result.table ≡ table) × (result.first ≡ rid) × (result.scn ≡ scn) }
        ensures rows { runs.rows_in result.rows ≡ row ∷ [] }
    {
        Run {
            table,
            first: rid,
            scn,
            rows: Held::One(row),
        }
    }

    /// A run of these rows. It takes no memory.
    pub fn of_rows(table: u32, first: u64, scn: u64, rows: Rows) -> Run
        ensures place { (result.table ≡ table) × (result.first ≡ first) × (result.scn ≡ scn) }
        ensures rows { runs.rows_in result.rows ≡ rows }
    {
        Run {
            table,
            first,
            scn,
            rows: Held::Many(rows),
        }
    }

    /// Whether it has a row of this row number of a table.
    pub fn holds(&self, table: u32, rid: u64) -> bool
        ensures { result ≡ runs.holds self.now table rid }
    {
        self.table == table && self.first <= rid && rid - self.first < self.count()
    }

    /// How many rows it has.
    pub fn count(&self) -> u64
        ensures { result ≡ length (runs.rows_in self.now.rows) }
    {
        match &self.rows {
            Held::Many(rows) => rows.len() as u64,
            Held::One(_) => 1,
        }
    }

    /// The values of the row of a row number that it holds.
    pub fn values(&self, rid: u64) -> Option<&[Value]>
        ensures { option_copied result ≡ slice_get (runs.rows_in self.now.rows) (rid - self.now.first) }
    {
        let at = rid.saturating_sub(self.first);
        if at >= self.count() {
            return None;
        }
        match &self.rows {
            Held::Many(rows) => Some(rows.values(at as usize)),
            Held::One(row) => Some(row.values()),
        }
    }

    /// A copy of the row of a row number that it holds.
    pub fn row(&self, alloc: Global, rid: u64) -> Result<Option<Row>, NoMemory>
        ensures { IfOk result (λ row. row ≡ slice_get (runs.rows_in self.now.rows) (rid - self.now.first)) }
    {
        let at = rid.saturating_sub(self.first);
        if at >= self.count() {
            return Ok(None);
        }
        match &self.rows {
            Held::Many(rows) => Ok(Some(rows.row(at as usize)?)),
            Held::One(row) => Ok(Some(clone_row(alloc, row)?)),
        }
    }
}
