use crate::condition::Cond;
use crate::literal::Lit;
use crate::query::Query;
use crate::table::{ColumnPart, MemoryPart};
use crate::tuples::Tuples;
use im_values::{List, Name};

/// A statement, each optional part of it as written or absent.
#[derive(Drop)]
pub enum Stmt {
    Select(Query),
    /// How a query would be served, extent by extent.
    Explain(Query),
    Create {
        name: Name,
        /// One column or more, at most `MOST_COLUMNS`.
        columns: List<ColumnPart>,
        /// Rows in a block, from 1 to `MOST_IN_SHAPE`.
        block: Option<u32>,
        /// Blocks in an extent, from 1 to `MOST_IN_SHAPE`.
        extent: Option<u32>,
        memory: Option<MemoryPart>,
    },
    /// ALTER TABLE with an INMEMORY clause.
    AlterMemory {
        name: Name,
        memory: MemoryPart,
    },
    /// ALTER TABLE with NO INMEMORY.
    AlterNoMemory {
        name: Name,
    },
    /// ALTER TABLE with ADD and a column, whose default is NULL where none is written.
    AddColumn {
        name: Name,
        column: ColumnPart,
        default: Option<Lit>,
    },
    /// Without a list of columns `columns` is empty.
    Insert {
        name: Name,
        columns: List<Name>,
        tuples: Tuples,
    },
    Update {
        name: Name,
        sets: List<(Name, Lit)>,
        cond: Option<Cond>,
    },
    Delete {
        name: Name,
        cond: Option<Cond>,
    },
    SetReadOnly,
    SetSerializable,
    SetCommitted,
    Commit,
    Rollback,
    /// Cursors are numbered from 1 to `LAST_CURSOR`.
    OpenFor {
        cursor: u32,
        query: Query,
    },
    Step(u32),
    Fetch(u32),
    Close(u32),
    Run,
    Begin,
    Switch,
    Cancel,
    /// Credits for repopulation, from 1 to `MOST_CREDITS`.
    Trickle(u32),
    /// The extent is at most `LAST_EXTENT`.
    Evict {
        name: Name,
        extent: u64,
    },
    /// Versions of rows that nobody may ask for any more go.
    Purge,
}

/// Whose statement it is: a session's, or one of the background that keeps the column store.
#[derive(Clone, Copy, PartialEq, Eq)]
pub enum Side {
    Session,
    Background,
}
