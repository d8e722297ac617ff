ghost use Rattle.std.specs.Borrow.{sem};
ghost use Rattle.std.specs.Option.{option_copied_mut};
ghost use Rattle.std.specs.Prelude.{◌≡◌, ◌+◌, ◌-◌, ◌^◌, ◌<◌, ◌≤◌, [], get_or, length, max, option_copied, slice_get, OnOk};
ghost use Rattle.im_tables.specs.Lends.{lends_of_line, lends_place};
ghost use Rattle.im_tables.specs.Table.{IsPadded, with_range};

use crate::cell::Cell;
use im_values::NoMemory;
use std::alloc::Global;
use std::marker::Model;

mod whole;

/// The cells of one table, by number.
#[derive(Drop)]
pub struct Line<T> {
    cells: Vec<T>,
}

impl<T> Model for Line<T> {
    ghost use Rattle.std.specs.Prelude.{List};

    ghost Value = { List T };

    ghost view = { λ l. l.cells.items };
}

impl<T: Cell> Line<T> {
    /// No cells. It takes no memory.
    pub fn new(alloc: Global) -> Line<T>
        ensures { result ≡ [] }
    {
        Line {
            cells: Vec::new(alloc),
        }
    }

    /// How many cells are there.
    pub fn len(&self) -> u64
        ensures { result ≡ length self.now }
    {
        self.cells.len() as u64
    }

    /// The cell of a number, if there is one.
    pub fn get(&self, number: u64) -> Option<&T>
        ensures { option_copied result ≡ slice_get self.now number }
    {
        self.cells.get(number as usize)
    }

    /// The cell of a number, if there is one, to be changed.
    pub fn get_mut(&mut self, number: u64) -> Option<&mut T>
        ensures* writes_back { sem 𝓛 (lends_of_line T.row self.entry number result) }
        ensures value { option_copied_mut result ≡ slice_get self.old number }
    {
        self.cells.get_mut(number as usize)
    }

    /// The cell of a number that is there, to be changed.
    pub fn cell_mut(&mut self, number: u64) -> &mut T
        requires { number < length self.old }
        ensures* writes_back { sem 𝓛 (lends_place T.row self.entry number result) }
        ensures value { result.now ≡ get_or self.old number T.blank }
    {
        &mut self.cells[number as usize]
    }

    /// Adds empty cells until there is one of this number.
    pub fn grow(&mut self, alloc: Global, number: u64) -> Result<(), NoMemory>
        ensures same { IsPadded T.blank self.old self.new }
        ensures there { OnOk result (number < length self.new) }
        ensures most { length self.new ≤ max (length self.old) (number + 1) }
    {
        self.make_room(number)?;
        while self.cells.len() as u64 <= number {
            self.cells.push(T::empty(alloc))?;
        }
        Ok(())
    }

    /// Makes room for the cells that there will be once there is one of this number.
    fn make_room(&mut self, number: u64) -> Result<(), NoMemory>
        ensures { self.new ≡ self.old }
    {
        let len = self.cells.len() as u64;
        if len <= number {
            self.cells
                .reserve((number - len).saturating_add(1) as usize)?;
        }
        Ok(())
    }
}

impl<T: Cell + Copy> Line<T> {
    /// Makes the cells from a number on, so many as are there of these, this one.
    pub fn fill(&mut self, first: u64, count: u64, cell: T)
        requires { first + count < 2 ^ 64 }
        ensures { self.new ≡ with_range first count cell self.old }
    {
        let end = (first + count).min(self.cells.len() as u64);
        if first < end {
            fill(&mut self.cells, first as usize, end as usize, cell);
        }
    }
}

/// Makes the elements from a place up to an end this one.
fn fill<T: Copy>(elements: &mut [T], first: usize, end: usize, element: T)
    requires some { first ≤ end }
    requires within { end ≤ length elements.old }
    ensures { elements.new ≡ with_range first (end - first) element elements.old }
{
    for at in first..end {
        elements[at] = element;
    }
}
