ghost use Rattle.std.specs.Prelude.{◌≡◌, ◌+◌, ◌*◌, ◌^◌, ◌<◌, ◌≤◌, ◌++◌, [], ◌∷◌, drop, length, option_copied, take, vec_capacity, vec_len, IfOk, OnOk, None, Some};
ghost use Rattle.im_values.specs.Stretches.{cut};
ghost use Rattle.im_blocks.specs.inner.Gathering.{Gathers, IsFlushed, IsReadyAt, IsWhole, gathered};
ghost use Rattle.im_history.specs.Fetched.{run_from};

use im_history::Fetched;
use im_values::{NoMemory, Row, Rows, Value};
use std::alloc::Global;

/// The first number that no row has.
const END: u64 = 1 << 63;

/// Of so many rows on a run is shared. Fewer are copied, which costs less than to count one more that shares them.
const MANY: usize = 8;

/// What was read of row numbers so far.
///
/// The last rows are still gathered: they are at row numbers in a row, and copies of their values go into one block.
#[derive(Drop)]
pub struct Gathered {
    alloc: Global,
    /// What was read before the rows that are gathered.
    pub fetched: Fetched,
    /// The row number of the first of these.
    pub first: u64,
    /// How many values each of them has.
    pub width: usize,
    /// How many they are.
    pub count: usize,
    /// Their values, one row behind another.
    pub values: Vec<Value>,
}

/// Puts a copy of a value behind others, for which there is room. A number takes no call.
#[inline(always)]
fn put_value(alloc: Global, values: &mut Vec<Value>, value: &Value) -> Result<(), NoMemory>
    requires { vec_len values.old < vec_capacity values.old }
    ensures items { OnOk result (values.new.items ≡ values.old.items ++ value.now ∷ []) }
    ensures len { OnOk result (vec_len values.new ≡ vec_len values.old + 1) }
    ensures capacity { vec_capacity values.new ≡ vec_capacity values.old }
{
    values.push_reserved(value.copy(alloc)?);
    Ok(())
}

/// Puts copies of values behind others.
#[inline(always)]
pub(crate) fn put_values(
    alloc: Global,
    values: &mut Vec<Value>,
    row: &[Value],
) -> Result<(), NoMemory>
    ensures { OnOk result (values.new.items ≡ values.old.items ++ row.now) }
{
    values.reserve(row.len())?;
    for value in row {
        put_value(alloc, values, value)?;
    }
    Ok(())
}

impl Gathered {
    /// Nothing was read yet. It takes no memory.
    pub fn new(alloc: Global) -> Gathered
        ensures none { gathered result ≡ [] }
        ensures whole { IsWhole result }
    {
        Gathered {
            alloc,
            fetched: Fetched::new(alloc),
            first: 0,
            width: 0,
            count: 0,
            values: Vec::new(alloc),
        }
    }

    /// Puts a row number behind the others, with a copy of its row, or none.
    pub fn push(&mut self, rid: u64, row: Option<&[Value]>) -> Result<(), NoMemory>
        requires { IsWhole self.old }
        ensures { OnOk result (Gathers self.old self.new ((rid, option_copied row.entry) ∷ [])) }
    {
        match row {
            Some(row) => self.push_row(rid, row),
            None => self.push_none(rid),
        }
    }

    /// Puts so many rows of a run behind the others, from a place of it on, at row numbers from this one on: few are copied, and
    /// many are shared.
    pub fn take(&mut self, rid: u64, rows: &Rows, from: usize, many: usize) -> Result<(), NoMemory>
        requires whole { IsWhole self.old }
        requires within { from + many ≤ length rows.now }
        requires numbers { rid + many ≤ 2 ^ 63 }
        ensures { OnOk result (Gathers self.old self.new (run_from rid (take many (drop from rows.now)))) }
    {
        if many >= MANY {
            self.share(rid, rows, from, many)
        } else {
            self.copy(rid, rows, from, many)
        }
    }

    /// All that was read.
    pub fn finish(self) -> Result<Fetched, NoMemory>
        requires { IsWhole self }
        ensures { IfOk result (λ fetched. fetched ≡ gathered self) }
    {
        let mut all = self;
        all.flush()?;
        let Gathered {
            alloc: _,
            fetched,
            first: _,
            width: _,
            count: _,
            values: _,
        } = all;
        Ok(fetched)
    }

    /// Puts a row number behind the others, with a copy of its row.
    fn push_row(&mut self, rid: u64, row: &[Value]) -> Result<(), NoMemory>
        requires { IsWhole self.old }
        ensures { OnOk result (Gathers self.old self.new ((rid, Some row.now) ∷ [])) }
    {
        if rid >= END {
            return Err(NoMemory);
        }
        self.begin(rid, row.len())?;
        self.put(row)?;
        Ok(())
    }

    /// Puts a row number that has no row behind the others.
    fn push_none(&mut self, rid: u64) -> Result<(), NoMemory>
        requires { IsWhole self.old }
        ensures { OnOk result (Gathers self.old self.new ((rid, None) ∷ [])) }
    {
        self.flush()?;
        self.fetched.push(rid, None)?;
        Ok(())
    }

    /// Shares rows of a run.
    fn share(&mut self, rid: u64, rows: &Rows, from: usize, many: usize) -> Result<(), NoMemory>
        requires whole { IsWhole self.old }
        requires within { from + many ≤ length rows.now }
        requires numbers { rid + many ≤ 2 ^ 63 }
        ensures { OnOk result (Gathers self.old self.new (run_from rid (take many (drop from rows.now)))) }
    {
        self.flush()?;
        let part = rows.part(from, many)?;
        self.fetched.push_run(rid, part)?;
        Ok(())
    }

    /// Copies rows of a run.
    fn copy(&mut self, rid: u64, rows: &Rows, from: usize, many: usize) -> Result<(), NoMemory>
        requires whole { IsWhole self.old }
        requires within { from + many ≤ length rows.now }
        requires numbers { rid + many ≤ 2 ^ 63 }
        ensures { OnOk result (Gathers self.old self.new (run_from rid (take many (drop from rows.now)))) }
    {
        let _ = rows.len();
        for at in 0..many {
            self.push_row(rid + at as u64, rows.values(from + at))?;
        }
        Ok(())
    }

    /// Makes it ready to gather a row of so many values at this row number.
    fn begin(&mut self, rid: u64, width: usize) -> Result<(), NoMemory>
        requires whole { IsWhole self.old }
        requires number { rid ≤ 2 ^ 63 }
        ensures { OnOk result (IsReadyAt self.old self.new rid width) }
    {
        if self.first + self.count as u64 == rid && self.width == width {
            return Ok(());
        }
        self.flush()?;
        self.first = rid;
        self.width = width;
        Ok(())
    }

    /// Gathers one row more.
    fn put(&mut self, row: &[Value]) -> Result<(), NoMemory>
        requires whole { IsWhole self.old }
        requires width { self.old.width ≡ length row.now }
        requires number { self.old.first + self.old.count < 2 ^ 63 }
        ensures { OnOk result (Gathers self.old self.new ((self.old.first + self.old.count, Some row.now) ∷ [])) }
    {
        put_values(self.alloc, &mut self.values, row)?;
        self.count += 1;
        Ok(())
    }

    /// Ends the block of the rows that are gathered. A row alone keeps its values itself.
    fn flush(&mut self) -> Result<(), NoMemory>
        requires { IsWhole self.old }
        ensures { OnOk result (IsFlushed self.old self.new) }
    {
        if self.count == 0 {
            return Ok(());
        }
        let values = std::mem::replace(&mut self.values, Vec::new(self.alloc));
        let count = std::mem::replace(&mut self.count, 0);
        if count == 1 {
            self.fetched.push(self.first, Some(Row::of(values)))?;
            return Ok(());
        }
        let rows = Rows::of(self.alloc, values, self.width, count)?;
        self.fetched.push_run(self.first, rows)?;
        Ok(())
    }
}
