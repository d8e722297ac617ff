ghost use Rattle.std.specs.Prelude.{◌≡◌, ◌≤◌};
ghost use Rattle.im_history.specs.Horizon.{horizon};
ghost use Rattle.im_history.specs.Legal.{Exists};
ghost use Rattle.im_history.specs.Puts.{lent_change};
ghost use Rattle.im_history.specs.Refusals as refusal;
ghost use Rattle.im_history.specs.Weights.{changes_weight};

use crate::store::Core;
use im_history::{Changes, LentChange, Mode, Opening, UnitLike, Who, Why, is_own};
use im_values::limits::{MOST_COLUMNS, MOST_CURSORS, MOST_TABLES};

impl<U: UnitLike> Core<U> {
    pub(crate) fn create_refusal(&self, name: &[u8]) -> Option<Why>
        ensures { result ≡ refusal.create_refusal self.now.log name.now }
    {
        if let Some(table) = self.catalog.number_of(name) {
            return Some(Why::TableExists { table });
        }
        if self.catalog.tables().len() < MOST_TABLES {
            None
        } else {
            Some(Why::TooManyTables)
        }
    }

    pub(crate) fn add_refusal(&self, table: u32, name: &[u8]) -> Option<Why>
        ensures { result ≡ refusal.add_refusal self.now.log table name.now }
    {
        if self.catalog.has_column(table, name) {
            return Some(Why::ColumnExists);
        }
        if (self.catalog.columns_of(table) as usize) < MOST_COLUMNS {
            None
        } else {
            Some(Why::TooManyColumns)
        }
    }

    /// Whether a table got columns since the caller saw it.
    pub(crate) fn altered(&self, opening: Opening) -> Option<Why>
        requires { Exists self.now.log opening.table }
        ensures { result ≡ refusal.altered self.now.log opening.table opening.columns }
    {
        if self.catalog.columns_of(opening.table) == opening.columns {
            return None;
        }
        Some(Why::Altered {
            place: self.history.last_added(opening.table),
        })
    }

    pub(crate) fn open_refusal(&self, who: Who, cursor: u32, asked: Option<u64>) -> Option<Why>
        ensures { result ≡ refusal.open_refusal self.now.log who cursor asked }
    {
        if self.sessions.cursor(who, cursor).is_some() {
            Some(Why::CursorOpen)
        } else if !is_own(cursor) && self.sessions.cursors_open(who) >= MOST_CURSORS {
            Some(Why::TooManyCursors)
        } else {
            self.asked_refusal(asked)
        }
    }

    /// Whether an SCN was not reached yet, or is too old.
    fn asked_refusal(&self, asked: Option<u64>) -> Option<Why>
        ensures { result ≡ refusal.asked_refusal self.now.log asked }
    {
        let asked = asked?;
        let scn = self.history.scn();
        let horizon = self.history.horizon();
        if asked > scn {
            Some(Why::NoSuchScn { asked, scn })
        } else if asked < horizon {
            Some(Why::SnapshotTooOld { asked, horizon })
        } else {
            None
        }
    }

    fn read_only(&self, who: Who) -> Option<Why>
        ensures { result ≡ refusal.read_only self.now.log who }
    {
        match self.sessions.mode(who) {
            Mode::ReadOnly => Some(Why::ReadOnly),
            Mode::Committed | Mode::Serializable => None,
        }
    }

    /// Whether another session holds the row of a change.
    fn lock_on(&self, who: Who, change: LentChange<'_>) -> Option<Why>
        ensures { result ≡ refusal.lock_on self.now.log who (lent_change change.entry) }
    {
        let holder = self.sessions.holder(who, change.table, change.rid)?;
        Some(Why::RowLocked {
            row: change.rid,
            holder,
        })
    }

    /// The first row that another session holds.
    fn row_locked(&self, who: Who, changes: &Changes) -> Option<Why>
        ensures { result ≡ refusal.row_locked self.now.log who changes.now }
    {
        for place in 0..changes.len() {
            let cause = self.lock_on(who, changes.at(place));
            if cause.is_some() {
                return cause;
            }
        }
        None
    }

    /// Whether a commit after this SCN touched the row of a change.
    fn touch_after(&self, scn: u64, change: LentChange<'_>) -> Option<Why>
        requires { horizon self.now.log ≤ scn }
        ensures { result ≡ refusal.touch_after self.now.log scn (lent_change change.entry) }
    {
        let last = self.blocks.latest(change.table, change.rid);
        if last > scn {
            Some(Why::Serialize {
                row: change.rid,
                scn: last,
            })
        } else {
            None
        }
    }

    /// The first row that a commit after this SCN touched.
    fn serialize(&self, scn: u64, changes: &Changes) -> Option<Why>
        requires { horizon self.now.log ≤ scn }
        ensures { result ≡ refusal.serialize self.now.log scn changes.now }
    {
        for place in 0..changes.len() {
            let cause = self.touch_after(scn, changes.at(place));
            if cause.is_some() {
                return cause;
            }
        }
        None
    }

    fn too_many_changes(&self, who: Who, changes: &Changes) -> Option<Why>
        ensures { result ≡ refusal.too_many_changes self.now.limits self.now.log who changes.now }
    {
        let pending = self.sessions.pending_count(who);
        let (need, left) = (
            changes.len() as u64,
            self.limits.changes.saturating_sub(pending),
        );
        if need > left {
            Some(Why::TooManyChanges { need, left })
        } else {
            None
        }
    }

    /// These weights are those of the changes, here and below.
    fn store_full(&self, changes: &Changes, weight: u64) -> Option<Why>
        requires { weight ≡ changes_weight changes.now }
        ensures { result ≡ refusal.store_full self.now.limits self.now.log changes.now }
    {
        let (need, left) = (weight, self.limits.store.saturating_sub(self.weight));
        if need > left {
            Some(Why::StoreFull { need, left })
        } else {
            None
        }
    }

    fn no_room(&self, who: Who, changes: &Changes, weight: u64) -> Option<Why>
        requires { weight ≡ changes_weight changes.now }
        ensures { result ≡ refusal.no_room self.now.limits self.now.log who changes.now }
    {
        match self.too_many_changes(who, changes) {
            Some(why) => Some(why),
            None => self.store_full(changes, weight),
        }
    }

    pub(crate) fn insert_refusal(&self, who: Who, changes: &Changes, weight: u64) -> Option<Why>
        requires { weight ≡ changes_weight changes.now }
        ensures { result ≡ refusal.insert_refusal self.now.limits self.now.log who changes.now }
    {
        match self.read_only(who) {
            Some(why) => Some(why),
            None => self.no_room(who, changes, weight),
        }
    }

    pub(crate) fn write_refusal(
        &self,
        who: Who,
        scn: u64,
        changes: &Changes,
        weight: u64,
    ) -> Option<Why>
        requires weight { weight ≡ changes_weight changes.now }
        requires old { horizon self.now.log ≤ scn }
        ensures { result ≡ refusal.write_refusal self.now.limits self.now.log who scn changes.now }
    {
        if let Some(why) = self.read_only(who) {
            return Some(why);
        }
        if let Some(why) = self.row_locked(who, changes) {
            return Some(why);
        }
        if let Some(why) = self.serialize(scn, changes) {
            return Some(why);
        }
        self.no_room(who, changes, weight)
    }
}
