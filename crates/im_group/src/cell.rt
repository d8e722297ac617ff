ghost use Rattle.std.specs.Prelude.{◌≡◌, IfOk};
ghost use Rattle.im_group.specs.Cells as spec;

use im_values::{Content, Name, NoMemory, Value};
use std::alloc::Global;
use std::cmp::Ordering;

/// One cell of an answer: a value, or a count or sum of up to 128 bits.
///
/// The variants stand in SQL's order of values, NULL last, and that is their derived order.
#[derive(PartialEq, Eq, PartialOrd, Ord, Drop)]
pub enum Cell {
    Int(i128),
    Text(Name),
    Null,
}

impl Cell {
    /// The cell of a value.
    pub fn of(value: Value) -> Cell
        ensures { result ≡ spec.cell_of value }
    {
        match value.into_content() {
            Content::Int(number) => Cell::Int(i128::from(number)),
            Content::Text(text) => Cell::Text(text),
            Content::Null => Cell::Null,
        }
    }

    /// The cell of a value that stays where it is.
    pub fn copy_of(alloc: Global, value: &Value) -> Result<Cell, NoMemory>
        ensures { IfOk result (λ cell. cell ≡ spec.cell_of value.now) }
    {
        Ok(Cell::of(value.copy(alloc)?))
    }

    /// How two cells stand to each other: numbers by size, texts by bytes, numbers before texts, NULL last.
    pub fn order(&self, other: &Cell) -> Ordering
        ensures { result ≡ spec.cell_order self.now other.now }
    {
        self.cmp(other)
    }
}
