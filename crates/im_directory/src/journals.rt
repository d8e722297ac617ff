ghost use Rattle.std.specs.Prelude.{◌≡◌, false, length, option_copied, option_map, IfOk, IsSome, OnOk};
ghost use Rattle.std.specs.Bool.{OnTrue};
ghost use Rattle.im_history.specs.Contents.{unit_bytes};
ghost use Rattle.im_history.specs.Queue.{has_stale, is_past_threshold};
ghost use Rattle.im_journal.specs.Stale.{stale_rows, stale_rows_at};
ghost use Rattle.im_directory.specs.Lists.{is_unit};
ghost use Rattle.im_directory.specs.Slots.{notes_of_unit, nothing, told};
ghost use Rattle.im_directory.specs.Steps.{MayNote, slot_begun, slot_cancelled, slot_counted, slot_noted, slot_roomy, slot_switched, slot_uncounted};
ghost use Rattle.im_directory.specs.inner.Listed.{marks_of};
ghost use Rattle.im_directory.specs.inner.Whole.{waiting, whole};

use crate::marks::Marks;
use im_history::UnitLike;
use im_journal::Journal;
use im_values::NoMemory;
use std::alloc::Global;
use std::sync::Arc;

/// An extent's current unit, and the journal of what was touched since its SCN.
#[derive(Drop)]
pub struct Current<U> {
    pub unit: Arc<U>,
    pub journal: Journal,
}

/// An extent's living build, and the journal of what was touched since it began.
#[derive(Drop)]
pub struct Growing {
    pub id: u64,
    pub journal: Journal,
}

/// An extent's current unit and its living build, each with its journal.
#[derive(Drop)]
pub struct Journals<U> {
    pub current: Option<Current<U>>,
    pub growing: Option<Growing>,
    /// How many notes a commit will make in each journal, counted while room is made for them.
    pub wanted: u64,
}

impl<U> Journals<U> {
    /// Room for a unit and a build, with neither.
    pub fn none(alloc: Global) -> Result<Box<Journals<U>>, NoMemory>
    where
        U: Drop,
        ensures { IfOk result (λ journals. whole journals.value ≡ nothing) }
    {
        Ok(Box::new(
            alloc,
            Journals {
                current: None,
                growing: None,
                wanted: 0,
            },
        )?)
    }

    /// Whether there is neither a unit nor a build.
    pub fn is_none(&self) -> bool
        ensures { OnTrue result (whole self.now ≡ nothing) }
    {
        self.current.is_none() && self.growing.is_none() && self.wanted == 0
    }

    /// The number of the living build.
    pub fn living(&self) -> Option<u64>
        ensures { result ≡ option_map (λ growing. growing.id) self.now.growing }
    {
        match &self.growing {
            Some(growing) => Some(growing.id),
            None => None,
        }
    }

    /// The current unit.
    pub fn unit(&self) -> Option<&Arc<U>>
        ensures { option_copied result ≡ option_map (λ current. current.unit) self.now.current }
    {
        match &self.current {
            Some(current) => Some(&current.unit),
            None => None,
        }
    }

    /// The row numbers in the current unit's journal at or below an SCN, rising.
    pub fn stale_at(&self, alloc: Global, scn: u64) -> Result<Vec<u64>, NoMemory>
        ensures { IfOk result (λ rows. rows.items ≡ stale_rows_at (notes_of_unit (told (whole self.now)).current) scn) }
    {
        match &self.current {
            Some(current) => current.journal.stale_at(alloc, scn),
            None => Ok(Vec::new(alloc)),
        }
    }

    /// How many row numbers are in the current unit's journal.
    pub fn stale_count(&self) -> u64
        ensures { result ≡ length (stale_rows (notes_of_unit (told (whole self.now)).current)) }
    {
        match &self.current {
            Some(current) => current.journal.stale_count(),
            None => 0,
        }
    }

    /// Notes in both journals that the commit with this SCN touched a row. It takes no memory.
    pub fn note(&mut self, row: u64, scn: u64)
        requires { MayNote (whole self.old) scn }
        ensures { whole self.new ≡ slot_noted (row, scn) (whole self.old) }
    {
        if let Some(current) = &mut self.current {
            current.journal.note(row, scn);
        }
        if let Some(growing) = &mut self.growing {
            growing.journal.note(row, scn);
        }
    }

    /// Counts no note.
    pub fn uncount(&mut self)
        ensures { whole self.new ≡ slot_uncounted (whole self.old) }
    {
        self.wanted = 0;
    }

    /// Counts one note more, and makes room for as many as are counted. Where there is no journal, nothing is counted.
    pub fn count(&mut self) -> Result<(), NoMemory>
        ensures same { told (whole self.new) ≡ told (whole self.old) }
        ensures counted { OnOk result (whole self.new ≡ slot_counted (whole self.old)) }
    {
        if self.current.is_none() && self.growing.is_none() {
            return Ok(());
        }
        let Some(wanted) = self.wanted.checked_add(1) else {
            return Err(NoMemory);
        };
        self.make_room(wanted)
    }

    /// Makes room for so many notes, and sets their count.
    fn make_room(&mut self, wanted: u64) -> Result<(), NoMemory>
        ensures same { told (whole self.new) ≡ told (whole self.old) }
        ensures counted { OnOk result (whole self.new ≡ slot_roomy wanted (whole self.old)) }
    {
        self.wanted = wanted;
        if let Some(current) = &mut self.current {
            current.journal.reserve(wanted)?;
        }
        if let Some(growing) = &mut self.growing {
            growing.journal.reserve(wanted)?;
        }
        Ok(())
    }

    /// Begins a build, with an empty journal. It takes no memory.
    pub fn begin(&mut self, alloc: Global, id: u64)
        ensures { whole self.new ≡ slot_begun id (whole self.old) }
    {
        self.growing = Some(Growing {
            id,
            journal: Journal::new(alloc),
        });
    }

    /// Makes the unit of the living build current, with the build's journal, and answers the one that was current.
    pub fn switch(&mut self, unit: Arc<U>) -> Option<Current<U>>
        requires { IsSome self.old.growing }
        ensures slot { whole self.new ≡ slot_switched unit (whole self.old) }
        ensures before { result ≡ self.old.current }
    {
        let Growing { id: _, journal } = self.growing.take().unwrap();
        self.current.replace(Current { unit, journal })
    }

    /// Ends the living build, if it is the one of this number, without its unit, and counts no note.
    pub fn cancel(&mut self, id: u64)
        ensures { whole self.new ≡ slot_cancelled id false (whole self.old) }
    {
        self.wanted = 0;
        if let Some(growing) = &self.growing {
            if growing.id == id {
                self.growing = None;
            }
        }
    }
}

impl<U: UnitLike> Journals<U> {
    /// What the lists are to say of the extent, which waits or not. It takes constant time.
    pub fn marks(&self, waits: bool) -> Marks
        ensures { result ≡ marks_of U.content (told (waiting waits (whole self.now))) }
    {
        let free = self.growing.is_none() && !waits;
        Marks {
            taken: !free || self.current.is_some(),
            due: free && self.is_past_threshold(),
            stale: free && self.has_stale(),
            waits,
        }
    }

    /// Whether there is a unit, of whose rows so many are stale that it is to be built anew: a fifth of them, and of a unit
    /// without rows one.
    fn is_past_threshold(&self) -> bool
        ensures { result ≡ is_unit U.content is_past_threshold (told (whole self.now)).current }
    {
        match &self.current {
            Some(current) => past_threshold(current.unit.present(), current.journal.stale_count()),
            None => false,
        }
    }

    /// Whether there is a unit, and a row of it is stale.
    fn has_stale(&self) -> bool
        ensures { result ≡ is_unit U.content has_stale (told (whole self.now)).current }
    {
        match &self.current {
            Some(current) => current.journal.stale_count() > 0,
            None => false,
        }
    }
}

impl<U: UnitLike> Current<U> {
    /// The bytes that the unit counts for.
    pub fn bytes(&self) -> u64
        ensures { result ≡ unit_bytes (U.content self.now.unit.value) }
    {
        self.unit.bytes()
    }
}

/// Whether so many stale rows of so many rows are a fifth of them, and of no rows one.
fn past_threshold(rows: u64, stale: u64) -> bool
    ensures { result ≡ is_past_threshold rows stale }
{
    rows.max(1).div_ceil(5) <= stale
}
