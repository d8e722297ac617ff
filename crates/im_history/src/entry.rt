ghost use Rattle.std.specs.Prelude.{◌≡◌};
ghost use Rattle.im_history.specs.Commits.{moves_clock};

use crate::changes::Changes;
use crate::shape::Shape;
use im_values::{Column, Name, Priority, Schema, Value};

/// The isolation of a transaction.
#[derive(Clone, Copy)]
pub enum Mode {
    /// READ COMMITTED: each statement sees what was committed when it began.
    Committed,
    /// SERIALIZABLE: each statement sees what was committed when the transaction began.
    Serializable,
    /// READ ONLY: as SERIALIZABLE, and nothing is written.
    ReadOnly,
}

/// What an entry of the history records.
#[derive(Drop)]
pub enum What {
    /// A table was created. Tables are numbered from 1 in this order.
    Create {
        name: Name,
        schema: Schema,
        shape: Shape,
    },
    /// A table got one more column, behind those that it had. The rows that were written before have the default in it.
    Add {
        table: u32,
        column: Column,
        default: Value,
    },
    /// A table joined the column store or changed its priority, or left it where no priority is given.
    Memory {
        table: u32,
        priority: Option<Priority>,
    },
    /// A transaction began by a statement that set its mode.
    Begin {
        mode: Mode,
    },
    /// A cursor was opened on a table: its view is fixed here. It reads at the SCN that was asked for, if one was.
    Open {
        cursor: u32,
        table: u32,
        asked: Option<u64>,
    },
    /// A cursor was shut.
    Shut {
        cursor: u32,
    },
    /// Changes to one table were written, and are pending until the session's next Commit or Rollback.
    Write {
        changes: Changes,
    },
    /// The session's pending changes were committed.
    Commit,
    /// The session's pending changes were rolled back.
    Rollback,
    /// The population of an extent began.
    Build {
        id: u64,
        table: u32,
        extent: u64,
        trickle: bool,
    },
    /// A built unit became the extent's current one.
    Switch {
        id: u64,
    },
    /// A build ended without its unit being used: for want of room in the area, or for another cause.
    Cancel {
        id: u64,
        full: bool,
    },
    /// So many trickle repopulations were allowed.
    Trickle {
        n: u32,
    },
    /// An extent's current unit was dropped.
    Evict {
        table: u32,
        extent: u64,
    },
    /// The session ended.
    Leave,
    /// The versions of rows that nobody may ask for any more were let go.
    Purge,
}

impl What {
    /// Whether the SCN moves on by one with such an entry.
    pub fn moves_clock(&self) -> bool
        ensures { result ≡ moves_clock self.now }
    {
        matches!(self, What::Commit | What::Create { .. } | What::Add { .. })
    }
}

/// One entry of the history: who did what.
#[derive(Drop)]
pub struct Entry {
    /// 0 is the background of a script, 1 to 16 are sessions, 17 to 24 are workers.
    pub who: u32,
    pub what: What,
}
