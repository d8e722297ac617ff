ghost use Rattle.std.specs.Borrow.{sem};
ghost use Rattle.std.specs.Prelude.{◌≡◌};
ghost use Rattle.im_tables.specs.Wholes.{lends_line};

use crate::cell::Cell;
use crate::line::Line;

impl<T: Cell> Line<T> {
    /// All cells.
    pub fn cells(&self) -> &[T]
        ensures { result.now ≡ self.now }
    {
        self.cells.as_slice()
    }

    /// All cells, to be changed.
    pub fn cells_mut(&mut self) -> &mut [T]
        ensures* writes_back { sem 𝓛 (lends_line T.row self.entry result) }
        ensures value { result.now ≡ self.old }
    {
        self.cells.as_mut_slice()
    }
}
