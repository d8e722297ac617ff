ghost use Rattle.std.specs.Prelude.{◌≡◌, ◌+◌, ◌^◌, ◌<◌, count_by, is_some, length, option_copied, option_map, IfOk, IfSome, IsSome, None, OnErr, OnOk, Option};
ghost use Rattle.std.specs.Option.{ForSome};
ghost use Rattle.im_journal.specs.Stale.{stale_rows};
ghost use Rattle.im_history.specs.Contents.{unit_bytes};
ghost use Rattle.im_history.specs.Horizon.{least};
ghost use Rattle.im_history.specs.Puts.{all_changes};
ghost use Rattle.im_history.specs.declared.entry.What.TheVariants.{Evict, Memory};
ghost use Rattle.im_directory.specs.Effects.{HasRoom, IsBefore, IsBegun, IsCancelled, IsDropped, IsNew, IsNoted, IsSwitched, SameTold};
ghost use Rattle.im_directory.specs.Lists.{IsFirst, NonePasses, is_due, is_empty, is_stale, used_in};
ghost use Rattle.im_directory.specs.Slots.{build_in, living_in, notes_in, scns_among, stale_told, told_at, unit_in};
ghost use Rattle.im_directory.specs.Sound.{IsAlive};
ghost use Rattle.im_directory.specs.inner.Placed.{IsOut};

use crate::builds::Builds;
use crate::journals::{Current, Growing};
use crate::shelves::Shelves;
use im_history::{Catalog, Changes, Held, UnitLike};
use im_values::NoMemory;
use std::alloc::Global;
use std::marker::Model;
use std::sync::Arc;

/// The column units of every extent, with their journals, and the builds.
#[derive(Drop)]
pub struct Directory<U: UnitLike> {
    alloc: Global,
    shelves: Shelves<U>,
    builds: Builds,
}

impl<U: UnitLike> Model for Directory<U> {
    ghost use Rattle.im_directory.specs.Slots.{Kept};

    ghost Value = { Kept U };

    ghost use Rattle.im_directory.specs.inner.Placed.{IsPlaced};

    ghost view = { λ d. record { slots = d.shelves; builds = d.builds } };

    ghost invariant = { λ d. IsPlaced (record { slots = d.shelves; builds = d.builds }) };
}

impl<U: UnitLike> Directory<U> {
    /// No units and no builds. It takes no memory.
    pub fn new(alloc: Global) -> Directory<U>
        ensures { IsNew result }
    {
        Directory {
            alloc,
            shelves: Shelves::new(alloc),
            builds: Builds::new(alloc),
        }
    }

    /// How many builds began: the next one has one number more. It takes constant time.
    pub fn begun(&self) -> u64
        ensures begun { result ≡ length self.now.builds }
        ensures few { result < 2 ^ 63 }
    {
        self.builds.len()
    }

    /// How many builds are held. It takes constant time.
    pub fn held(&self) -> u64
        ensures held { result ≡ count_by is_some self.now.builds }
        ensures few { result < 2 ^ 63 }
    {
        self.builds.held()
    }

    /// The held build of a number. It takes constant time.
    pub fn build(&self, id: u64) -> Option<&Held>
        ensures { option_copied result ≡ build_in self.now id }
    {
        self.builds.get(id)
    }

    /// The least of a number and the SCNs of the held builds, the killed ones among them. It costs a step for each build that
    /// began.
    pub fn least_scn(&self, most: u64) -> u64
        ensures { result ≡ least most (scns_among self.now.builds) }
    {
        self.builds.least_scn(most)
    }

    /// The number of an extent's living build. It takes constant time.
    pub fn living(&self, table: u32, extent: u64) -> Option<u64>
        ensures { result ≡ living_in self.now table extent }
    {
        match self.shelves.slot(table, extent) {
            Some(slot) => slot.living(),
            None => None,
        }
    }

    /// An extent's current unit. It takes constant time.
    pub fn unit(&self, table: u32, extent: u64) -> Option<&Arc<U>>
        ensures { option_map (λ unit. unit.value) (option_copied result) ≡ unit_in self.now table extent }
    {
        match self.shelves.slot(table, extent) {
            Some(slot) => slot.unit(),
            None => None,
        }
    }

    /// The row numbers of an extent that commits behind its current unit's SCN and up to this one touched, rising; none
    /// where there is no unit.
    ///
    /// It costs what it answers, and a sort of that.
    pub fn stale_at(&self, table: u32, extent: u64, scn: u64) -> Result<Vec<u64>, NoMemory>
        ensures { IfOk result (λ rows. rows.items ≡ stale_told self.now table extent scn) }
    {
        match self.shelves.slot(table, extent) {
            Some(slot) => slot.stale_at(self.alloc, scn),
            None => Ok(Vec::new(self.alloc)),
        }
    }

    /// How many row numbers of an extent commits behind its current unit's SCN touched; 0 where there is no unit. It takes
    /// constant time.
    pub fn stale_count(&self, table: u32, extent: u64) -> u64
        ensures { result ≡ length (stale_rows (notes_in self.now table extent)) }
    {
        match self.shelves.slot(table, extent) {
            Some(slot) => slot.stale_count(),
            None => 0,
        }
    }

    /// The bytes that all current units count for together. It takes constant time.
    pub fn used(&self) -> u64
        ensures { result ≡ used_in U.content self.now.slots }
    {
        self.shelves.used()
    }

    /// The first extent of a table that has no unit, and for which a build may begin. There is always one, but it may lie
    /// behind the table's last row. It takes constant time.
    pub fn first_empty(&self, table: u32) -> u64
        ensures { IsFirst is_empty self.now table result }
    {
        self.shelves.first_empty(table)
    }

    /// The first extent of a table whose unit is past the threshold, and for which a build may begin. It takes constant
    /// time.
    pub fn first_due(&self, table: u32) -> Option<u64>
        ensures due { IfSome result (λ extent. IsFirst (is_due U.content) self.now table extent) }
        ensures none { result ≡ None → NonePasses (is_due U.content) self.now table }
    {
        self.shelves.first_due(table)
    }

    /// The first extent of a table whose unit has a stale row, and for which a build may begin. It takes constant time.
    pub fn first_stale(&self, table: u32) -> Option<u64>
        ensures stale { IfSome result (λ extent. IsFirst (is_stale U.content) self.now table extent) }
        ensures none { result ≡ None → NonePasses (is_stale U.content) self.now table }
    {
        self.shelves.first_stale(table)
    }

    /// Begins a build, which is the extent's living one, with an empty journal.
    ///
    /// It costs one for each extent of the table that is new. After an error some of them may be there.
    pub fn begin(&mut self, held: Held) -> Result<(), NoMemory>
        requires next { held.task.id ≡ length self.old.builds + 1 }
        requires alive { held.killed ≡ None }
        requires free { living_in self.old held.task.table held.task.extent ≡ None }
        ensures ok { OnOk result (IsBegun self.old self.new held) }
        ensures err { OnErr result (SameTold self.old self.new) }
    {
        let table = held.task.table;
        let extent = held.task.extent;
        let id = held.task.id;
        let room = self.shelves.reserve(table, extent)?;
        self.builds.push(held)?;
        self.shelves.begin(table, extent, id, room);
        Ok(())
    }

    /// Makes room in the journals for the notes of a commit of what these writes changed, and for no more.
    ///
    /// It costs two steps for each change, and two look-ups of a table for each run of changes to one extent; of rows that were put
    /// together into a table that has no extent here, two steps. After an error some of the room may be there.
    pub fn reserve(&mut self, tables: &Catalog, writes: &[Changes]) -> Result<(), NoMemory>
        ensures same { SameTold self.old self.new }
        ensures room { OnOk result (HasRoom self.new tables.now (all_changes writes.now)) }
    {
        self.shelves.make_room(tables, writes)
    }

    /// Notes what these writes changed by the commit with this SCN: each row in the journal of its extent's current unit, and
    /// in that of its living build. It takes no memory.
    pub fn note(&mut self, tables: &Catalog, scn: u64, writes: &[Changes])
        requires room { HasRoom self.old tables.now (all_changes writes.now) }
        requires later { IsBefore self.old scn }
        ensures { IsNoted self.old self.new tables.now scn (all_changes writes.now) }
    {
        self.shelves.note_all(tables, scn, writes);
    }

    /// Ends a held build that nothing killed: its unit is the extent's current one, with the build's journal. It answers
    /// the unit that was current before. It takes no memory.
    pub fn switch(&mut self, id: u64, unit: Arc<U>) -> Option<Arc<U>>
        requires alive { IsAlive self.old id }
        requires room { used_in U.content self.old.slots + unit_bytes (U.content unit.value) < 2 ^ 64 }
        ensures switched { ForSome (build_in self.old id) (λ held. IsSwitched self.old self.new held unit.value) }
        ensures before { ForSome (build_in self.old id) (λ held. option_map (λ unit. unit.value) result ≡ unit_in self.old held.task.table held.task.extent) }
    {
        let held = self.builds.end(id);
        let before = self.shelves.switch(held.task.table, held.task.extent, unit);
        unit_of(before)
    }

    /// Ends a held build without its unit: where that did not fit into the area, the extent waits. It takes no memory.
    pub fn cancel(&mut self, id: u64, full: bool)
        requires { IsSome (build_in self.old id) }
        ensures { ForSome (build_in self.old id) (λ held. IsCancelled self.old self.new held full) }
    {
        let held = self.builds.end(id);
        self.shelves
            .cancel(held.task.table, held.task.extent, id, full);
    }

    /// Takes an extent out of the column store by the entry at this place: its unit is gone, its living build is killed, and
    /// no extent waits any more. It answers the unit. It costs the extents that wait, and a step for each table.
    pub fn evict(&mut self, place: u64, table: u32, extent: u64) -> Option<Arc<U>>
        ensures dropped { IsDropped self.old self.new place (Evict table extent) }
        ensures before { option_map (λ unit. unit.value) result ≡ unit_in self.old table extent }
    {
        let unit = self.take_out(place, table, extent);
        self.shelves.rest();
        unit
    }

    /// Takes a table out of the column store by the entry at this place: the units of all its extents are gone, their
    /// living builds are killed, and no extent waits any more. It costs the table's extents, and what [`Directory::evict`]
    /// does, and takes no memory.
    pub fn drop_table(&mut self, place: u64, table: u32)
        ensures { IsDropped self.old self.new place (Memory table None) }
    {
        for extent in 0..self.shelves.extents(table) {
            drop(self.take_out(place, table, extent));
        }
        self.shelves.rest();
    }

    /// Takes an extent out of the column store by the entry at this place, and lets those wait that do. It answers the unit.
    fn take_out(&mut self, place: u64, table: u32, extent: u64) -> Option<Arc<U>>
        ensures out { IsOut self.old self.new place table extent }
        ensures before { option_map (λ unit. unit.value) result ≡ unit_in self.old table extent }
    {
        let (current, growing) = self.shelves.evict(table, extent);
        self.builds.kill(id_of(growing), place);
        unit_of(current)
    }
}

/// The unit, without its journal.
fn unit_of<U>(current: Option<Current<U>>) -> Option<Arc<U>>
    ensures { result ≡ option_map (λ current. current.unit) current }
{
    match current {
        Some(Current { unit, journal: _ }) => Some(unit),
        None => None,
    }
}

/// The number of a living build.
fn id_of(growing: Option<Growing>) -> Option<u64>
    ensures { result ≡ option_map (λ growing. growing.id) growing }
{
    match growing {
        Some(growing) => Some(growing.id),
        None => None,
    }
}
