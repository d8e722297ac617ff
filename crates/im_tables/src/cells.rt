ghost use Rattle.std.specs.Borrow.{sem};
ghost use Rattle.std.specs.Option.{option_copied_mut};
ghost use Rattle.std.specs.Prelude.{◌≡◌, ◌+◌, ◌^◌, ◌<◌, [], length, option_copied, OnOk};
ghost use Rattle.im_tables.specs.Lends.{lends_cell, lends_of_table};
ghost use Rattle.im_tables.specs.Table.{AddsUpTo, HasCell, IsGrown, IsPadded, cell_at, found_at, row_of, with_cells};

use crate::cell::Cell;
use crate::line::Line;
use im_values::NoMemory;
use std::alloc::Global;
use std::marker::Model;

mod whole;

/// The cells of all tables, by table and number.
#[derive(Drop)]
pub struct Cells<T> {
    alloc: Global,
    lines: Vec<Line<T>>,
}

impl<T> Model for Cells<T> {
    ghost use Rattle.std.specs.Prelude.{List};

    ghost Value = { List (List T) };

    ghost view = { λ c. c.lines.items };
}

impl<T: Cell> Cells<T> {
    /// No cells. It takes no memory.
    pub fn new(alloc: Global) -> Cells<T>
        ensures { result ≡ [] }
    {
        Cells {
            alloc,
            lines: Vec::new(alloc),
        }
    }

    /// How many cells of a table are there.
    pub fn count(&self, table: u32) -> u64
        ensures { result ≡ length (row_of self.now table) }
    {
        match self.lines.get(table as usize) {
            Some(line) => line.len(),
            None => 0,
        }
    }

    /// The cell of a number of a table, if there is one.
    pub fn get(&self, table: u32, number: u64) -> Option<&T>
        ensures { option_copied result ≡ found_at self.now table number }
    {
        self.lines.get(table as usize)?.get(number)
    }

    /// The cell of a number of a table, if there is one, to be changed.
    pub fn get_mut(&mut self, table: u32, number: u64) -> Option<&mut T>
        ensures* writes_back { sem 𝓛 (lends_of_table T.row self.entry table number result) }
        ensures value { option_copied_mut result ≡ found_at self.old table number }
    {
        self.lines.get_mut(table as usize)?.get_mut(number)
    }

    /// The cell of a number of a table that is there, to be changed.
    pub fn cell_mut(&mut self, table: u32, number: u64) -> &mut T
        requires { HasCell self.old table number }
        ensures* writes_back { sem 𝓛 (lends_cell T.row self.entry table number result) }
        ensures value { result.now ≡ cell_at T.blank self.old table number }
    {
        self.lines[table as usize].cell_mut(number)
    }

    /// Makes cells up to a number of a table, empty where they are new. After an error some of them may be there.
    pub fn reserve(&mut self, table: u32, number: u64) -> Result<(), NoMemory>
        ensures same { IsGrown T.blank self.old self.new }
        ensures there { OnOk result (HasCell self.new table number) }
        ensures only { AddsUpTo table number self.old self.new }
    {
        self.grow(table)?;
        self.lines[table as usize].grow(self.alloc, number)
    }

    /// Adds tables without cells until there is one of this number.
    fn grow(&mut self, table: u32) -> Result<(), NoMemory>
        ensures same { IsPadded [] self.old self.new }
        ensures there { OnOk result (table < length self.new) }
    {
        while self.lines.len() <= table as usize {
            self.lines.push(Line::new(self.alloc))?;
        }
        Ok(())
    }
}

impl<T: Cell + Copy> Cells<T> {
    /// Makes the cells of a table from a number on, so many as are there of these, this one. It takes no memory, and costs a
    /// look-up and one write over the cells.
    pub fn fill(&mut self, table: u32, first: u64, count: u64, cell: T)
        requires { first + count < 2 ^ 64 }
        ensures { self.new ≡ with_cells table first count cell self.old }
    {
        if (table as usize) < self.lines.len() {
            self.lines[table as usize].fill(first, count, cell);
        }
    }
}
