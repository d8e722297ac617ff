use crate::own::OwnChanges;
use im_values::{Row, Schema};

/// What is to be opened, or written to, as the caller saw it.
#[derive(Clone, Copy)]
pub struct Opening {
    /// The table's number.
    pub table: u32,
    /// How many columns the caller saw it to have.
    pub columns: u32,
}

/// What a cursor sees of its table, from its opening on.
#[derive(Drop)]
pub struct View {
    /// The place of the opening.
    pub place: u64,
    /// The table's number.
    pub table: u32,
    /// The SCN that the opening asked for, if it asked for one.
    pub asked: Option<u64>,
    /// The SCN that is read at: the one that was asked for, else the session's snapshot.
    pub scn: u64,
    /// How many row numbers of the table were given.
    pub rows: u64,
    /// How many row numbers are in an extent.
    pub per: u64,
    /// How many extents the row numbers fill, the last one in part perhaps.
    pub extents: u64,
    /// The columns that the table had at the opening, shared.
    pub columns: Schema,
    /// Their defaults: what a row that was written before a column was there has in it. Shared.
    pub defaults: Row,
    /// The changes to the table that the session had pending: none where an SCN was asked for.
    pub own: OwnChanges,
}
