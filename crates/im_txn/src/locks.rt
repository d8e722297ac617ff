ghost use Rattle.std.specs.Prelude.{◌≡◌, ◌+◌, ◌^◌, ◌≤◌, [], OnOk};
ghost use Rattle.im_history.specs.Puts.{all_changes};
ghost use Rattle.im_tables.specs.Table.{with_cell, with_cells};
ghost use Rattle.im_txn.specs.LockCells.{HasCells, HasRows, IsLonger, lock_of, set_cells};

use im_history::Changes;
use im_tables::Cells;
use im_values::NoMemory;
use std::alloc::Global;
use std::marker::Model;

/// The lock cells of all rows: 0 where the row is free, else one more than the number of its holder.
#[derive(Drop)]
pub struct Locks {
    cells: Cells<u8>,
}

impl Model for Locks {
    ghost use Rattle.im_txn.specs.LockCells.{Locks as AllLocks};

    ghost Value = { AllLocks };

    ghost view = { λ l. l.cells };
}

impl Locks {
    /// No cells. It takes no memory.
    pub fn new(alloc: Global) -> Locks
        ensures { result ≡ [] }
    {
        Locks {
            cells: Cells::new(alloc),
        }
    }

    /// The cell of a row, 0 past the last.
    pub fn cell(&self, table: u32, rid: u64) -> u8
        ensures { result ≡ lock_of self.now table rid }
    {
        self.cells.get(table, rid).copied().unwrap_or(0)
    }

    /// Makes a cell for the row of each of these changes, free where it is new.
    ///
    /// It costs one growth where they put rows that are kept together, and else a look-up for each.
    pub fn reserve(&mut self, changes: &Changes) -> Result<(), NoMemory>
        ensures same { IsLonger self.old self.new }
        ensures ok { OnOk result (HasCells self.new changes.now) }
    {
        match changes.as_put() {
            Some(put) => self.reserve_rows(put.table, put.first, put.rows.len() as u64),
            None => self.reserve_each(changes),
        }
    }

    /// Makes a cell for each of so many rows of a table from the first on, free where it is new.
    fn reserve_rows(&mut self, table: u32, first: u64, count: u64) -> Result<(), NoMemory>
        requires { first + count ≤ 2 ^ 63 }
        ensures same { IsLonger self.old self.new }
        ensures ok { OnOk result (HasRows self.new table first count) }
    {
        if count == 0 {
            return Ok(());
        }
        self.cells.reserve(table, first + (count - 1))
    }

    /// Makes a cell for the row of each of these changes, one after another.
    fn reserve_each(&mut self, changes: &Changes) -> Result<(), NoMemory>
        ensures same { IsLonger self.old self.new }
        ensures ok { OnOk result (HasCells self.new changes.now) }
    {
        for place in 0..changes.len() {
            let change = changes.at(place);
            self.cells.reserve(change.table, change.rid)?;
        }
        Ok(())
    }

    /// Frees the rows of the changes of these writes, where there are such cells.
    pub fn free(&mut self, writes: &[Changes])
        ensures { self.new ≡ set_cells 0 self.old (all_changes writes.now) }
    {
        for changes in writes {
            self.set_all(changes, 0);
        }
    }

    /// Sets the cells of the rows of these changes, where there are such cells.
    ///
    /// It costs one look-up where they put rows that are kept together, and else one for each.
    pub fn set_all(&mut self, changes: &Changes, value: u8)
        ensures { self.new ≡ set_cells value self.old changes.now }
    {
        match changes.as_put() {
            Some(put) => self.set_rows(put.table, put.first, put.rows.len() as u64, value),
            None => self.set_each(changes, value),
        }
    }

    /// Sets the cells of so many rows of a table from the first on, where there are such cells.
    fn set_rows(&mut self, table: u32, first: u64, count: u64, value: u8)
        requires { first + count ≤ 2 ^ 63 }
        ensures { self.new ≡ with_cells table first count value self.old }
    {
        self.cells.fill(table, first, count, value);
    }

    /// Sets the cells of the rows of these changes, one after another.
    fn set_each(&mut self, changes: &Changes, value: u8)
        ensures { self.new ≡ set_cells value self.old changes.now }
    {
        for place in 0..changes.len() {
            let change = changes.at(place);
            self.set(change.table, change.rid, value);
        }
    }

    /// Sets the cell of a row, if there is one.
    fn set(&mut self, table: u32, rid: u64, value: u8)
        ensures { self.new ≡ with_cell table rid value self.old }
    {
        if let Some(cell) = self.cells.get_mut(table, rid) {
            *cell = value;
        }
    }
}
