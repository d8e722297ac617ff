use im_index::Bounds;
use im_unit::ColumnUnit;

/// What a scan reads of an extent's column unit.
#[derive(Clone, Copy)]
pub enum Face<'a> {
    /// All of it.
    Whole(&'a ColumnUnit),
    /// The bounds of its columns, and no column: they exclude the scan's condition, so that it keeps no row of the unit.
    Edges(&'a [Bounds]),
    /// Nothing: the extent has no unit that serves the scan.
    Bare,
}
