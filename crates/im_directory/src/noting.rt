ghost use Rattle.std.specs.Prelude.{◌≡◌, true, OnOk};
ghost use Rattle.im_history.specs.Puts.{all_changes, lent_change};
ghost use Rattle.im_directory.specs.Steps.{AreBefore, AreNoted, HasNotesRoom, HaveNoExtents, IsFor, IsRange, TellsAlike, WentThrough, slot_counted, slot_noted, slot_uncounted};

use crate::range::ExtentRange;
use crate::shelves::Shelves;
use im_history::{Catalog, Changes, LentChange, UnitLike};
use im_values::NoMemory;

impl<U: UnitLike> Shelves<U> {
    /// Makes room in the journals for the notes of a commit of what these writes changed, and for no more.
    ///
    /// It costs two steps for each change, and two look-ups of a table for each run of changes to one extent; of rows that were put
    /// together into a table that has no extent here, as most have none, two steps. After an error some of the room may be there.
    pub fn make_room(&mut self, tables: &Catalog, writes: &[Changes]) -> Result<(), NoMemory>
        ensures same { TellsAlike self.old self.new }
        ensures room { OnOk result (HasNotesRoom self.new tables.now (all_changes writes.now)) }
    {
        self.uncount_all(tables, writes);
        self.count_all(tables, writes)
    }

    /// Counts no note of any extent that the writes touch.
    fn uncount_all(&mut self, tables: &Catalog, writes: &[Changes])
        ensures { WentThrough (λ change. slot_uncounted) self.old self.new tables.now (all_changes writes.now) }
    {
        let mut range = ExtentRange::none(tables);
        for changes in writes {
            self.uncount_each(tables, &mut range, changes);
        }
    }

    /// Counts no note of any extent that the changes of a write touch.
    fn uncount_each(&mut self, tables: &Catalog, range: &mut ExtentRange, changes: &Changes)
        requires { IsRange tables.now range.old }
        ensures range { IsRange tables.now range.new }
        ensures went { WentThrough (λ change. slot_uncounted) self.old self.new tables.now changes.now }
    {
        if self.have_no_extents(changes) {
            return;
        }
        for place in 0..changes.len() {
            let change = changes.at(place);
            let extent = self.extent_for(tables, range, change);
            self.uncount(change.table, extent);
        }
    }

    /// Counts a note for each change, and makes room for as many as are counted.
    fn count_all(&mut self, tables: &Catalog, writes: &[Changes]) -> Result<(), NoMemory>
        ensures same { TellsAlike self.old self.new }
        ensures counted { OnOk result (WentThrough (λ change. slot_counted) self.old self.new tables.now (all_changes writes.now)) }
    {
        let mut range = ExtentRange::none(tables);
        for changes in writes {
            self.count_each(tables, &mut range, changes)?;
        }
        Ok(())
    }

    /// Counts a note for each change of a write, and makes room for as many as are counted.
    fn count_each(
        &mut self,
        tables: &Catalog,
        range: &mut ExtentRange,
        changes: &Changes,
    ) -> Result<(), NoMemory>
        requires { IsRange tables.now range.old }
        ensures range { IsRange tables.now range.new }
        ensures same { TellsAlike self.old self.new }
        ensures counted { OnOk result (WentThrough (λ change. slot_counted) self.old self.new tables.now changes.now) }
    {
        if self.have_no_extents(changes) {
            return Ok(());
        }
        for place in 0..changes.len() {
            let change = changes.at(place);
            let extent = self.extent_for(tables, range, change);
            self.count(change.table, extent)?;
        }
        Ok(())
    }

    /// Notes the changes of the commit with this SCN in the journals of the extents that they touch. It takes no memory.
    pub fn note_all(&mut self, tables: &Catalog, scn: u64, writes: &[Changes])
        requires room { HasNotesRoom self.old tables.now (all_changes writes.now) }
        requires later { AreBefore self.old scn }
        ensures { AreNoted self.old self.new tables.now scn (all_changes writes.now) }
    {
        let mut range = ExtentRange::none(tables);
        for changes in writes {
            self.note_each(tables, &mut range, scn, changes);
        }
    }

    /// Notes the changes of one write of the commit with this SCN.
    fn note_each(&mut self, tables: &Catalog, range: &mut ExtentRange, scn: u64, changes: &Changes)
        requires range { IsRange tables.now range.old }
        requires room { HasNotesRoom self.old tables.now changes.now }
        requires later { AreBefore self.old scn }
        ensures range { IsRange tables.now range.new }
        ensures went { WentThrough (λ change. slot_noted (change.rid, scn)) self.old self.new tables.now changes.now }
    {
        if self.have_no_extents(changes) {
            return;
        }
        for place in 0..changes.len() {
            let change = changes.at(place);
            let extent = self.extent_for(tables, range, change);
            self.note(change.table, extent, change.rid, scn);
        }
    }

    /// Whether these changes put rows together, into a table that has no extent here. One look-up tells, and most have none.
    fn have_no_extents(&self, changes: &Changes) -> bool
        ensures { result ≡ true → HaveNoExtents self.now changes.now }
    {
        match changes.as_put() {
            Some(put) => self.extents(put.table) == 0,
            None => false,
        }
    }

    /// The extent of a change's row. Where its table has no extent here, as most have none, it is 0, without a look-up:
    /// whatever is done to it then changes nothing.
    fn extent_for(&self, tables: &Catalog, range: &mut ExtentRange, change: LentChange<'_>) -> u64
        requires { IsRange tables.now range.old }
        ensures range { IsRange tables.now range.new }
        ensures extent { IsFor self.now tables.now (lent_change change.entry) result }
    {
        if self.extents(change.table) == 0 {
            return 0;
        }
        range.extent_of(tables, change)
    }
}
