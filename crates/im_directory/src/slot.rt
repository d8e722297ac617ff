ghost use Rattle.std.specs.Prelude.{◌≡◌, length, option_copied, option_map, IfOk, IsSome, OnOk};
ghost use Rattle.im_journal.specs.Stale.{stale_rows, stale_rows_at};
ghost use Rattle.im_directory.specs.Slots.{notes_of_unit, nothing, told};
ghost use Rattle.im_directory.specs.Steps.{MayNote, slot_begun, slot_cancelled, slot_counted, slot_dropped, slot_noted, slot_rested, slot_switched, slot_uncounted};
ghost use Rattle.im_directory.specs.inner.Listed.{marks_of};
ghost use Rattle.im_directory.specs.inner.Whole.{whole};

use crate::journals::{Current, Growing, Journals};
use crate::marks::Marks;
use im_history::UnitLike;
use im_tables::Cell;
use im_values::NoMemory;
use std::alloc::Global;
use std::marker::Model;
use std::sync::Arc;

/// What is kept of an extent.
///
/// Its journals are kept apart, and only where there is a unit or a build: each other extent takes 24 bytes.
#[derive(Drop)]
pub struct Slot<U> {
    /// Whether the extent waits for room in the area.
    waits: bool,
    journals: Option<Box<Journals<U>>>,
}

impl<U> Model for Slot<U> {
    ghost use Rattle.im_directory.specs.Slots.{Slot as AnySlot};
    ghost use Rattle.im_directory.specs.inner.Whole.{slot_of};

    ghost Value = { AnySlot U };

    ghost view = { λ s. slot_of s.waits s.journals };
}

impl<U: Drop> Cell for Slot<U> {
    ghost blank = { nothing };

    fn empty(_alloc: Global) -> Slot<U> {
        Slot {
            waits: false,
            journals: None,
        }
    }
}

impl<U: Drop> Slot<U> {
    /// The number of the living build.
    pub fn living(&self) -> Option<u64>
        ensures { result ≡ option_map (λ growing. growing.id) self.now.growing }
    {
        match &self.journals {
            Some(journals) => journals.living(),
            None => None,
        }
    }

    /// The current unit.
    pub fn unit(&self) -> Option<&Arc<U>>
        ensures { option_copied result ≡ option_map (λ current. current.unit) self.now.current }
    {
        match &self.journals {
            Some(journals) => journals.unit(),
            None => None,
        }
    }

    /// The row numbers in the current unit's journal at or below an SCN, rising.
    pub fn stale_at(&self, alloc: Global, scn: u64) -> Result<Vec<u64>, NoMemory>
        ensures { IfOk result (λ rows. rows.items ≡ stale_rows_at (notes_of_unit (told self.now).current) scn) }
    {
        match &self.journals {
            Some(journals) => journals.stale_at(alloc, scn),
            None => Ok(Vec::new(alloc)),
        }
    }

    /// How many row numbers are in the current unit's journal.
    pub fn stale_count(&self) -> u64
        ensures { result ≡ length (stale_rows (notes_of_unit (told self.now).current)) }
    {
        match &self.journals {
            Some(journals) => journals.stale_count(),
            None => 0,
        }
    }

    /// Notes in both journals that the commit with this SCN touched a row. It takes no memory.
    pub fn note(&mut self, row: u64, scn: u64)
        requires { MayNote self.old scn }
        ensures { self.new ≡ slot_noted (row, scn) self.old }
    {
        if let Some(journals) = &mut self.journals {
            journals.note(row, scn);
        }
    }

    /// Counts no note.
    pub fn uncount(&mut self)
        ensures { self.new ≡ slot_uncounted self.old }
    {
        if let Some(journals) = &mut self.journals {
            journals.uncount();
        }
    }

    /// Counts one note more, and makes room for as many as are counted. Where there is no journal, nothing is counted.
    pub fn count(&mut self) -> Result<(), NoMemory>
        ensures same { told self.new ≡ told self.old }
        ensures counted { OnOk result (self.new ≡ slot_counted self.old) }
    {
        match &mut self.journals {
            Some(journals) => journals.count(),
            None => Ok(()),
        }
    }

    /// Begins a build, with an empty journal. It takes no memory: where there is no room yet for a unit and a build, it takes
    /// this one.
    pub fn begin(&mut self, alloc: Global, id: u64, room: Box<Journals<U>>)
        requires { whole room.value ≡ nothing }
        ensures { self.new ≡ slot_begun id self.old }
    {
        let mut journals = self.journals.take().unwrap_or(room);
        journals.begin(alloc, id);
        self.journals = Some(journals);
    }

    /// Makes the unit of the living build current, with the build's journal, and answers the one that was current.
    pub fn switch(&mut self, unit: Arc<U>) -> Option<Current<U>>
        requires { IsSome self.old.growing }
        ensures slot { self.new ≡ slot_switched unit self.old }
        ensures before { result ≡ self.old.current }
    {
        match &mut self.journals {
            Some(journals) => journals.switch(unit),
            None => None,
        }
    }

    /// Ends the living build, if it is the one of this number, without its unit. The extent waits where that did not fit.
    /// Where there is no unit either, the room for both is given back.
    pub fn cancel(&mut self, id: u64, full: bool)
        ensures { self.new ≡ slot_cancelled id full self.old }
    {
        self.waits = self.waits || full;
        if let Some(mut journals) = self.journals.take() {
            journals.cancel(id);
            if !journals.is_none() {
                self.journals = Some(journals);
            }
        }
    }

    /// Takes the current unit and the living build away, and answers both. The room for them is given back.
    pub fn evict(&mut self) -> (Option<Current<U>>, Option<Growing>)
        ensures slot { self.new ≡ slot_dropped self.old }
        ensures unit { result.0 ≡ self.old.current }
        ensures build { result.1 ≡ self.old.growing }
    {
        self.waits = false;
        match self.journals.take() {
            Some(journals) => {
                let Journals {
                    current,
                    growing,
                    wanted: _,
                } = Box::into_inner(journals);
                (current, growing)
            }
            None => (None, None),
        }
    }

    /// The extent waits no more.
    pub fn rest(&mut self)
        ensures { self.new ≡ slot_rested self.old }
    {
        self.waits = false;
    }
}

impl<U: UnitLike> Slot<U> {
    /// What the lists are to say of the extent. It takes constant time.
    pub fn marks(&self) -> Marks
        ensures { result ≡ marks_of U.content (told self.now) }
    {
        match &self.journals {
            Some(journals) => journals.marks(self.waits),
            None => Marks {
                taken: self.waits,
                due: false,
                stale: false,
                waits: self.waits,
            },
        }
    }
}
