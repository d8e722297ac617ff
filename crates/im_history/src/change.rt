ghost use Rattle.std.specs.Prelude.{◌≡◌, IfOk};

use im_values::{NoMemory, Row, clone_row};
use std::alloc::Global;

/// A row put at a row number of a table, or the row there taken away.
#[derive(Drop)]
pub struct Change {
    /// The table's number, from 1.
    pub table: u32,
    /// The row number, from 0.
    pub rid: u64,
    /// The row that is put, or None where the row is taken away.
    pub row: Option<Row>,
}

impl Change {
    /// The same change once more.
    pub fn copy(&self, alloc: Global) -> Result<Change, NoMemory>
        ensures { IfOk result (λ change. change ≡ self.now) }
    {
        let row = match &self.row {
            Some(row) => Some(clone_row(alloc, row)?),
            None => None,
        };
        Ok(Change {
            table: self.table,
            rid: self.rid,
            row,
        })
    }
}
