ghost use Rattle.std.specs.Prelude.{◌≡◌, ℕ, ◌+◌, ◌^◌, ◌<◌, ◌≤◌, true, false, [], length, option_copied, option_map, unwrap_or, None, IfOk, IfSome, IsSome, OnOk};
ghost use Rattle.im_history.specs.Contents.{unit_bytes};
ghost use Rattle.im_tables.specs.Table.{HasCell, IsGrown, row_of};
ghost use Rattle.im_directory.specs.Lists.{IsFirst, NonePasses, current_bytes, is_due, is_empty, is_stale, used_in};
ghost use Rattle.im_directory.specs.Slots.{nothing, slot_at};
ghost use Rattle.im_directory.specs.Steps.{AreRested, MayNote, TellsAlike, slot_begun, slot_cancelled, slot_counted, slot_dropped, slot_noted, slot_rested, slot_switched, slot_uncounted, slots_with};
ghost use Rattle.im_directory.specs.inner.Listed.{NoneWaits, RestsSome, only_slots};
ghost use Rattle.im_directory.specs.inner.Whole.{whole};

use crate::journals::{Current, Growing, Journals};
use crate::lists::Lists;
use crate::slot::Slot;
use im_history::UnitLike;
use im_tables::Cells;
use im_values::NoMemory;
use std::alloc::Global;
use std::marker::Model;
use std::sync::Arc;

/// What is kept of all extents, by table and extent. An extent is found at once, and a call on one that is not there
/// changes nothing.
///
/// Lists say which extents are taken, due, stale, and waiting, and the bytes of all units are summed up. So the first
/// extent that a build may be chosen for is found at once.
#[derive(Drop)]
pub struct Shelves<U: UnitLike> {
    alloc: Global,
    slots: Cells<Slot<U>>,
    lists: Lists,
    used: u64,
}

impl<U: UnitLike> Model for Shelves<U> {
    ghost use Rattle.std.specs.Prelude.{List};
    ghost use Rattle.im_directory.specs.Slots.{Slot as AnySlot};

    ghost Value = { List (List (AnySlot U)) };

    ghost use Rattle.im_directory.specs.inner.Listed.{AreListed};

    ghost view = { λ s. s.slots };

    ghost invariant = { λ s. AreListed U.content s.slots s.lists s.used };
}

impl<U: UnitLike> Shelves<U> {
    /// No extents. It takes no memory.
    pub fn new(alloc: Global) -> Shelves<U>
        ensures { result ≡ [] }
    {
        Shelves {
            alloc,
            slots: Cells::new(alloc),
            lists: Lists::new(alloc),
            used: 0,
        }
    }

    /// How many extents of a table are there.
    pub fn extents(&self, table: u32) -> u64
        ensures { result ≡ length (row_of self.now table) }
    {
        self.slots.count(table)
    }

    /// What is kept of an extent, if it is there.
    pub fn slot(&self, table: u32, extent: u64) -> Option<&Slot<U>>
        ensures { unwrap_or (option_copied result) nothing ≡ slot_at self.now table extent }
    {
        self.slots.get(table, extent)
    }

    /// Makes a place for an extent, and answers room for its journals. It costs one for each extent that is new.
    pub fn reserve(&mut self, table: u32, extent: u64) -> Result<Box<Journals<U>>, NoMemory>
        ensures same { IsGrown nothing self.old self.new }
        ensures there { OnOk result (HasCell self.new table extent) }
        ensures room { IfOk result (λ room. whole room.value ≡ nothing) }
    {
        self.lists.reserve(table, extent)?;
        self.slots.reserve(table, extent)?;
        Journals::none(self.alloc)
    }

    /// Notes in both journals of an extent that the commit with this SCN touched a row. It takes no memory.
    pub fn note(&mut self, table: u32, extent: u64, row: u64, scn: u64)
        requires { MayNote (slot_at self.old table extent) scn }
        ensures { self.new ≡ slots_with (slot_noted (row, scn)) table extent self.old }
    {
        if let Some(slot) = self.slots.get_mut(table, extent) {
            slot.note(row, scn);
            let marks = slot.marks();
            self.lists.put(table, extent, marks);
        }
    }

    /// Counts no note of an extent.
    pub fn uncount(&mut self, table: u32, extent: u64)
        ensures { self.new ≡ slots_with slot_uncounted table extent self.old }
    {
        if let Some(slot) = self.slots.get_mut(table, extent) {
            slot.uncount();
        }
    }

    /// Counts one note more of an extent, and makes room for as many as are counted.
    pub fn count(&mut self, table: u32, extent: u64) -> Result<(), NoMemory>
        ensures same { TellsAlike self.old self.new }
        ensures counted { OnOk result (self.new ≡ slots_with slot_counted table extent self.old) }
    {
        match self.slots.get_mut(table, extent) {
            Some(slot) => slot.count(),
            None => Ok(()),
        }
    }

    /// Begins a build of an extent, with room for its journals. It takes no memory.
    pub fn begin(&mut self, table: u32, extent: u64, id: u64, room: Box<Journals<U>>)
        requires there { HasCell self.old table extent }
        requires room { whole room.value ≡ nothing }
        ensures { self.new ≡ slots_with (slot_begun id) table extent self.old }
    {
        let slot = self.slots.cell_mut(table, extent);
        slot.begin(self.alloc, id, room);
        self.lists.put(table, extent, slot.marks());
    }

    /// Makes the unit of an extent's living build current, and answers the one that was current.
    pub fn switch(&mut self, table: u32, extent: u64, unit: Arc<U>) -> Option<Current<U>>
        requires living { IsSome (slot_at self.old table extent).growing }
        requires room { used_in U.content self.old + unit_bytes (U.content unit.value) < 2 ^ 64 }
        ensures slot { self.new ≡ slots_with (slot_switched unit) table extent self.old }
        ensures before { result ≡ (slot_at self.old table extent).current }
    {
        let used = self.used + unit.bytes();
        let slot = self.slots.cell_mut(table, extent);
        let before = slot.switch(unit);
        self.lists.put(table, extent, slot.marks());
        self.used = used - bytes_of(&before);
        before
    }

    /// Ends an extent's living build, if it is the one of this number, without its unit. The extent waits where that did not
    /// fit.
    pub fn cancel(&mut self, table: u32, extent: u64, id: u64, full: bool)
        ensures { self.new ≡ slots_with (slot_cancelled id full) table extent self.old }
    {
        if let Some(slot) = self.slots.get_mut(table, extent) {
            slot.cancel(id, full);
            self.lists.put(table, extent, slot.marks());
        }
    }

    /// Takes an extent's current unit and its living build away, and answers both.
    pub fn evict(&mut self, table: u32, extent: u64) -> (Option<Current<U>>, Option<Growing>)
        ensures slot { self.new ≡ slots_with slot_dropped table extent self.old }
        ensures unit { result.0 ≡ (slot_at self.old table extent).current }
        ensures build { result.1 ≡ (slot_at self.old table extent).growing }
    {
        let Some(slot) = self.slots.get_mut(table, extent) else {
            return (None, None);
        };
        let (current, growing) = slot.evict();
        self.lists.put(table, extent, slot.marks());
        self.used -= bytes_of(&current);
        (current, growing)
    }

    /// No extent waits any more. It costs the extents that wait, and a step for each table.
    pub fn rest(&mut self)
        ensures { AreRested self.old self.new }
    {
        for table in 0..self.tables() {
            self.rest_table(table as u32);
        }
    }

    /// More than the number of any table that has an extent which waits.
    fn tables(&self) -> u64
        ensures few { result ≤ 2 ^ 32 }
        ensures none { (table : ℕ) → result ≤ table → NoneWaits table self.now }
    {
        self.lists.tables
    }

    /// No extent of a table waits any more. It costs the extents of the table that wait.
    fn rest_table(&mut self, table: u32)
        ensures some { RestsSome self.old self.new }
        ensures none { NoneWaits table self.new }
    {
        while let Some(extent) = self.first_waiting(table) {
            self.rest_one(table, extent);
        }
    }

    /// An extent waits no more.
    fn rest_one(&mut self, table: u32, extent: u64)
        ensures { self.new ≡ slots_with slot_rested table extent self.old }
    {
        if let Some(slot) = self.slots.get_mut(table, extent) {
            slot.rest();
            self.lists.put(table, extent, slot.marks());
        }
    }

    /// The first extent of a table that waits.
    fn first_waiting(&self, table: u32) -> Option<u64>
        ensures first { IfSome result (λ extent. (slot_at self.now table extent).waits ≡ true) }
        ensures none { result ≡ None → NoneWaits table self.now }
    {
        self.lists.waiting.first_up(table)
    }

    /// The bytes that all current units count for together.
    pub fn used(&self) -> u64
        ensures { result ≡ used_in U.content self.now }
    {
        self.used
    }

    /// The first extent of a table that has no unit, and for which a build may begin.
    pub fn first_empty(&self, table: u32) -> u64
        ensures { IsFirst is_empty (only_slots self.now) table result }
    {
        self.lists.taken.first_down(table)
    }

    /// The first extent of a table whose unit is to be built anew, and for which a build may begin.
    pub fn first_due(&self, table: u32) -> Option<u64>
        ensures due { IfSome result (λ extent. IsFirst (is_due U.content) (only_slots self.now) table extent) }
        ensures none { result ≡ None → NonePasses (is_due U.content) (only_slots self.now) table }
    {
        self.lists.due.first_up(table)
    }

    /// The first extent of a table whose unit has a stale row, and for which a build may begin.
    pub fn first_stale(&self, table: u32) -> Option<u64>
        ensures stale { IfSome result (λ extent. IsFirst (is_stale U.content) (only_slots self.now) table extent) }
        ensures none { result ≡ None → NonePasses (is_stale U.content) (only_slots self.now) table }
    {
        self.lists.stale.first_up(table)
    }
}

/// The bytes that a unit counts for, if there is one.
fn bytes_of<U: UnitLike>(current: &Option<Current<U>>) -> u64
    ensures { result ≡ current_bytes U.content current.now }
{
    match current {
        Some(current) => current.bytes(),
        None => 0,
    }
}
