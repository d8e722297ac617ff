ghost use Rattle.std.specs.Prelude.{◌≡◌, ◌∷◌, ◌++◌, [], length, option_copied, IfOk, OnOk, None, Some};
ghost use Rattle.im_blocks.specs.inner.Scattering.{AreWhole, IsEmptied, IsWide, Scatters, scattered};

use crate::gathered::put_values;
use im_history::Fetched;
use im_values::{NoMemory, Row, Rows, Value};
use std::alloc::Global;

/// What was read so far of row numbers that need not stand in a row.
///
/// The last rows are still gathered: copies of their values go into one block, and their row numbers beside it.
#[derive(Drop)]
pub struct Scattered {
    alloc: Global,
    /// What was read before the rows that are gathered.
    pub fetched: Fetched,
    /// The row numbers of these.
    pub rids: Vec<u64>,
    /// How many values each of them has.
    pub width: usize,
    /// Their values, one row behind another.
    pub values: Vec<Value>,
}

impl Scattered {
    /// Nothing was read yet, and there is room for so many row numbers.
    pub fn new(alloc: Global, room: usize) -> Result<Scattered, NoMemory>
        ensures none { IfOk result (λ read. scattered read ≡ []) }
        ensures whole { IfOk result (λ read. AreWhole read) }
    {
        Ok(Scattered {
            alloc,
            fetched: Fetched::new(alloc),
            rids: Vec::with_capacity(alloc, room)?,
            width: 0,
            values: Vec::new(alloc),
        })
    }

    /// Puts a row number behind the others, with a copy of its row, or none.
    pub fn push(&mut self, rid: u64, row: Option<&[Value]>) -> Result<(), NoMemory>
        requires { AreWhole self.old }
        ensures { OnOk result (Scatters self.old self.new ((rid, option_copied row.entry) ∷ [])) }
    {
        match row {
            Some(row) => self.push_row(rid, row),
            None => self.push_none(rid),
        }
    }

    /// All that was read.
    pub fn finish(self) -> Result<Fetched, NoMemory>
        requires { AreWhole self }
        ensures { IfOk result (λ fetched. fetched ≡ scattered self) }
    {
        let mut all = self;
        all.flush()?;
        let Scattered {
            alloc: _,
            fetched,
            rids: _,
            width: _,
            values: _,
        } = all;
        Ok(fetched)
    }

    /// Puts a row number behind the others, with a copy of its row.
    fn push_row(&mut self, rid: u64, row: &[Value]) -> Result<(), NoMemory>
        requires { AreWhole self.old }
        ensures { OnOk result (Scatters self.old self.new ((rid, Some row.now) ∷ [])) }
    {
        self.widen(row.len())?;
        self.put(rid, row)
    }

    /// Puts a row number that has no row behind the others.
    fn push_none(&mut self, rid: u64) -> Result<(), NoMemory>
        requires { AreWhole self.old }
        ensures { OnOk result (Scatters self.old self.new ((rid, None) ∷ [])) }
    {
        self.flush()?;
        self.fetched.push(rid, None)?;
        Ok(())
    }

    /// Makes it ready to gather rows of so many values.
    fn widen(&mut self, width: usize) -> Result<(), NoMemory>
        requires { AreWhole self.old }
        ensures { OnOk result (IsWide self.old self.new width) }
    {
        if self.width == width {
            return Ok(());
        }
        self.flush()?;
        self.values
            .reserve(width.saturating_mul(self.rids.capacity()))?;
        self.width = width;
        Ok(())
    }

    /// Gathers one row more.
    fn put(&mut self, rid: u64, row: &[Value]) -> Result<(), NoMemory>
        requires whole { AreWhole self.old }
        requires width { self.old.width ≡ length row.now }
        ensures { OnOk result (Scatters self.old self.new ((rid, Some row.now) ∷ [])) }
    {
        put_values(self.alloc, &mut self.values, row)?;
        self.rids.push(rid)?;
        Ok(())
    }

    /// Ends the block of the rows that are gathered. A row alone keeps its values itself.
    fn flush(&mut self) -> Result<(), NoMemory>
        requires { AreWhole self.old }
        ensures { OnOk result (IsEmptied self.old self.new) }
    {
        if self.rids.is_empty() {
            return Ok(());
        }
        let values = std::mem::replace(&mut self.values, Vec::new(self.alloc));
        let rids = std::mem::replace(&mut self.rids, Vec::new(self.alloc));
        if rids.len() == 1 {
            self.fetched.push(rids[0], Some(Row::of(values)))?;
            return Ok(());
        }
        let rows = Rows::of(self.alloc, values, self.width, rids.len())?;
        self.fetched.push_each(rids, rows)?;
        Ok(())
    }
}
