ghost use Rattle.std.specs.Borrow.{sem};
ghost use Rattle.std.specs.Prelude.{◌≡◌, ◌<◌, length};
ghost use Rattle.im_tables.specs.Table.{row_of};
ghost use Rattle.im_tables.specs.Wholes.{lends_cells_of};

use crate::cell::Cell;
use crate::cells::Cells;

impl<T: Cell> Cells<T> {
    /// All cells of a table.
    pub fn of_table(&self, table: u32) -> &[T]
        ensures { result.now ≡ row_of self.now table }
    {
        match self.lines.get(table as usize) {
            Some(line) => line.cells(),
            None => &[],
        }
    }

    /// All cells of a table that is there, to be changed.
    pub fn of_table_mut(&mut self, table: u32) -> &mut [T]
        requires { table < length self.old }
        ensures* writes_back { sem 𝓛 (lends_cells_of T.row self.entry table result) }
        ensures value { result.now ≡ row_of self.old table }
    {
        self.lines[table as usize].cells_mut()
    }
}
