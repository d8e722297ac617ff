ghost use Rattle.std.specs.Prelude.{◌≡◌, ◌+◌, ◌^◌, ◌<◌, ℕ, IfOk};
ghost use Rattle.im_history.specs.Last.{AreLast, change_of, changes_of, last_at};
ghost use Rattle.im_history.specs.Puts.{all_changes};

use crate::changes::Changes;
use crate::last::LastRows;
use im_values::{NoMemory, Row};
use std::alloc::Global;
use std::collections::btree_map::Range;
use std::marker::Model;
use std::snapshot::Snapshot;

/// The changes to one table that a session has pending.
///
/// Contracts see the list, in the order of writing. What is kept of it is what the last change to each row number left there,
/// which is shared: no change is copied to make this, and a reader walks no change that another one followed.
#[derive(Drop)]
pub struct OwnChanges {
    table: u32,
    last: LastRows,
    pending: Snapshot<Vec<Changes>>,
}

impl Model for OwnChanges {
    ghost use Rattle.std.specs.Prelude.{List};
    ghost use Rattle.im_history.specs.declared.change.Change.{Change as AnyChange};

    ghost Value = { List AnyChange };

    ghost use Rattle.std.specs.Prelude.{◌≡◌, ℕ};
    ghost use Rattle.im_history.specs.Last.{change_of, changes_of, last_at};
    ghost use Rattle.im_history.specs.Puts.{all_changes};

    ghost view = { λ o. changes_of o.table (all_changes o.pending.value.items) };

    ghost invariant = { λ o. (rid : ℕ) → last_at o.last rid ≡ change_of (all_changes o.pending.value.items) o.table rid };
}

impl OwnChanges {
    /// Those of the changes of these writes that are to a table, of which the last ones are known.
    pub fn of(table: u32, last: LastRows, pending: &Vec<Changes>) -> OwnChanges
        requires last { (rid : ℕ) → last_at last rid ≡ change_of (all_changes pending.now.items) table rid }
        ensures { result ≡ changes_of table (all_changes pending.now.items) }
    {
        OwnChanges {
            table,
            last,
            pending: Snapshot::of(pending),
        }
    }

    /// What the last changes to a table left at so many of its row numbers from the first on, in rising order.
    ///
    /// It costs a search and the row numbers that are there.
    pub fn between(&self, table: u32, first: u64, count: u64) -> Range<'_, u64, Option<Row>>
        requires { first + count < 2 ^ 64 }
        ensures { AreLast self.now table first count result }
    {
        if table == self.table {
            self.last.between(first, count)
        } else {
            self.last.between(first, 0)
        }
    }
}
