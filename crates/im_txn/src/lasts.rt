ghost use Rattle.std.specs.Prelude.{◌≡◌, ◌<◌, ◌≤◌, ℕ, [], length, slice_get, slice_index_or, IfOk, OnOk, OnErr};
ghost use Rattle.im_history.specs.Last.{last_at};
ghost use Rattle.im_txn.specs.inner.Lasts.{AreLasts, IsPut, ReadsSame};

use im_history::{Changes, LastRows};
use im_values::NoMemory;
use std::alloc::Global;

/// What the last of a session's pending changes to each row left, table by table. It knows the changes of the first so many
/// writes, and the first so many of the next one.
#[derive(Drop)]
pub struct Lasts {
    /// Of how many writes it knows every change.
    pub known: usize,
    /// How many changes it knows of the next write.
    pub part: usize,
    /// By the table's number.
    pub tables: Vec<LastRows>,
}

impl Lasts {
    /// It knows no change. It takes no memory.
    pub fn new(alloc: Global) -> Lasts
        ensures known { result.known ≡ 0 }
        ensures part { result.part ≡ 0 }
        ensures tables { result.tables.items ≡ [] }
    {
        Lasts {
            known: 0,
            part: 0,
            tables: Vec::new(alloc),
        }
    }

    /// Learns what it does not know of the changes of these writes, each of them once.
    pub fn learn(&mut self, alloc: Global, pending: &[Changes]) -> Result<(), NoMemory>
        requires { AreLasts self.old.known self.old.part self.old.tables.items pending.now }
        ensures kept { AreLasts self.new.known self.new.part self.new.tables.items pending.now }
        ensures ok { OnOk result (self.new.known ≡ length pending.now) }
    {
        while self.known < pending.len() {
            self.learn_next(alloc, pending)?;
            self.known += 1;
            self.part = 0;
        }
        Ok(())
    }

    /// Learns what it does not know of the first write that it does not know whole.
    fn learn_next(&mut self, alloc: Global, pending: &[Changes]) -> Result<(), NoMemory>
        requires lasts { AreLasts self.old.known self.old.part self.old.tables.items pending.now }
        requires next { self.old.known < length pending.now }
        ensures known { self.new.known ≡ self.old.known }
        ensures kept { AreLasts self.new.known self.new.part self.new.tables.items pending.now }
        ensures ok { OnOk result (self.new.part ≡ length (slice_index_or pending.now self.old.known [])) }
    {
        let changes = &pending[self.known];
        while self.part < changes.len() {
            self.put(alloc, changes, self.part)?;
            self.part += 1;
        }
        Ok(())
    }

    /// What the changes that it knows left of a table.
    pub fn of_table(&self, alloc: Global, table: u32) -> Result<LastRows, NoMemory>
        ensures { IfOk result (λ last. last ≡ slice_index_or self.now.tables.items table []) }
    {
        match self.tables.get(table as usize) {
            Some(last) => last.share(),
            None => LastRows::new(alloc),
        }
    }

    /// Puts one change more: that at a place of a write.
    fn put(&mut self, alloc: Global, changes: &Changes, place: usize) -> Result<(), NoMemory>
        requires { place < length changes.now }
        ensures known { self.new.known ≡ self.old.known }
        ensures part { self.new.part ≡ self.old.part }
        ensures ok { OnOk result (IsPut self.old.tables.items self.new.tables.items (slice_get changes.now place)) }
        ensures err { OnErr result (ReadsSame self.old.tables.items self.new.tables.items) }
    {
        let change = changes.change(alloc, place)?;
        self.reach(alloc, change.table)?;
        self.tables[change.table as usize].put(alloc, change.rid, &change.row)
    }

    /// Makes a place for a table.
    fn reach(&mut self, alloc: Global, table: u32) -> Result<(), NoMemory>
        ensures known { self.new.known ≡ self.old.known }
        ensures part { self.new.part ≡ self.old.part }
        ensures same { ReadsSame self.old.tables.items self.new.tables.items }
        ensures ok { OnOk result (table < length self.new.tables.items) }
    {
        while self.tables.len() <= table as usize {
            self.tables.push(LastRows::new(alloc)?)?;
        }
        Ok(())
    }
}
