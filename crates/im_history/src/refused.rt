/// Why a call of the store was refused. The store is then as it was before the call.
#[derive(Clone, Copy)]
pub enum Why {
    /// A table has the name already.
    TableExists { table: u32 },
    /// There are [`MOST_TABLES`](im_values::limits::MOST_TABLES) tables.
    TooManyTables,
    /// A column of the table has the name already.
    ColumnExists,
    /// The table has [`MOST_COLUMNS`](im_values::limits::MOST_COLUMNS) columns.
    TooManyColumns,
    /// The table has more columns than the caller saw; it got the last one at this place.
    Altered { place: u64 },
    /// The session has an open transaction, which began at this place.
    TransactionOpen { place: u64 },
    /// The session's transaction is READ ONLY.
    ReadOnly,
    /// The session has opened this cursor already.
    CursorOpen,
    /// The session has [`MOST_CURSORS`](im_values::limits::MOST_CURSORS) cursors open beside its statements' own.
    TooManyCursors,
    /// The SCN that was asked for lies above the present one.
    NoSuchScn { asked: u64, scn: u64 },
    /// The SCN that was asked for lies below the horizon: versions of that time were let go.
    SnapshotTooOld { asked: u64, horizon: u64 },
    /// Another session has a change to the row pending.
    RowLocked { row: u64, holder: u32 },
    /// A commit after the snapshot touched the row; the last such commit had this SCN.
    Serialize { row: u64, scn: u64 },
    /// The transaction would have more changes than it may have: so many come, and so many are left.
    TooManyChanges { need: u64, left: u64 },
    /// The store would hold more than it may hold: so much comes by weight, and so much is left.
    StoreFull { need: u64, left: u64 },
    /// The extent has no current unit.
    NoUnit,
    NoMemory,
}

/// A call that was refused.
#[derive(Clone, Copy)]
pub struct Refused {
    /// How many entries the history had when the call was refused.
    pub place: u64,
    pub why: Why,
}
