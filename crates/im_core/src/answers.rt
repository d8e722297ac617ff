use im_history::{Fetched, Member, ShownRows, Task};
use std::sync::Arc;

/// A table was created.
#[derive(Clone, Copy)]
pub struct Made {
    /// The place of its entry.
    pub place: u64,
    /// The table's number.
    pub table: u32,
    /// The SCN after it.
    pub scn: u64,
}

/// A table got a column.
#[derive(Clone, Copy)]
pub struct AddedColumn {
    /// The place of its entry.
    pub place: u64,
    /// The SCN after it.
    pub scn: u64,
}

/// A transaction began.
#[derive(Clone, Copy)]
pub struct Begun {
    /// The place of its entry.
    pub place: u64,
    /// The SCN that it began at.
    pub scn: u64,
}

/// Rows were inserted.
#[derive(Clone, Copy)]
pub struct Wrote {
    /// The place of the entry.
    pub place: u64,
    /// The row number of the first row.
    pub first: u64,
}

/// A transaction was committed.
#[derive(Clone, Copy)]
pub struct Committed {
    /// The place of the entry.
    pub place: u64,
    /// The SCN after it.
    pub scn: u64,
}

/// Old versions of rows were let go.
#[derive(Clone, Copy)]
pub struct Purged {
    /// The place of the entry.
    pub place: u64,
    /// The horizon behind it: the least SCN that may be asked for.
    pub horizon: u64,
    /// How many versions are kept.
    pub kept: u64,
}

/// A commit was asked for by its number.
#[derive(Drop)]
pub enum Sent {
    /// This is what it did.
    Member(Member),
    /// It is not there yet.
    None {
        /// How many sessions had ended.
        left: u32,
    },
}

/// What a scan needs of one extent.
#[derive(Drop)]
pub struct Pin<U> {
    /// The place of the reading.
    pub place: u64,
    /// The extent's column unit, where it serves the scan.
    pub unit: Option<Arc<U>>,
    /// The rows that the unit does not serve, in rising order of row numbers: each with the row committed at the SCN of
    /// the scan and the defaults of the columns that its table got since, or None where there is none.
    pub fetched: ShownRows,
}

/// What was read of one extent, the rows as they were written.
#[derive(Drop)]
pub(crate) struct Written<U> {
    /// The place of the reading.
    pub place: u64,
    /// The extent's column unit, where it serves the reader.
    pub unit: Option<Arc<U>>,
    /// The rows that the unit does not serve, in rising order of row numbers.
    pub fetched: Fetched,
}

/// A build was asked for.
#[derive(Drop)]
pub enum Offer {
    /// It began.
    Task(Task),
    /// There was nothing to build.
    Idle {
        /// The place of the reading.
        place: u64,
        /// How many sessions had ended.
        left: u32,
    },
}

/// A finished build was to become current.
#[derive(Drop)]
pub enum Switched<U> {
    /// Its unit is current.
    Done {
        /// The place of the entry.
        place: u64,
        /// How much of the area is used then.
        used: u64,
        /// The unit that was current before.
        old: Option<Arc<U>>,
    },
    /// The area has no room for its unit. The build is cancelled.
    AreaFull {
        /// The place of the entry.
        place: u64,
        /// How much its unit takes.
        need: u64,
        /// How much of the area was left.
        free: u64,
    },
    /// The build was dead. It is cancelled.
    Cancelled {
        /// The place of the entry.
        place: u64,
        /// The place of the entry that killed it.
        at: u64,
    },
}

/// A unit was evicted.
#[derive(Drop)]
pub struct Evicted<U> {
    /// The place of the entry.
    pub place: u64,
    /// How much of the area is used then.
    pub used: u64,
    /// The unit.
    pub old: Arc<U>,
}
