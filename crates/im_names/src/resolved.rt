use im_history::{Mode, Priority, Shape};
use im_syntax::{Bound, Filter};
use im_values::{Column, List, Name, Rows, Schema, Value};

/// A statement whose names are numbers: of a table from 1 on in the order of creation, and of a column from 0 on.
#[derive(Drop)]
pub enum Resolved {
    Select(Bound),
    Explain(Bound),
    Create {
        name: Name,
        schema: Schema,
        shape: Shape,
        /// None where the table does not join the column store.
        memory: Option<Priority>,
    },
    /// ALTER TABLE with an INMEMORY clause: None is NO INMEMORY.
    Memory {
        table: u32,
        priority: Option<Priority>,
    },
    /// ALTER TABLE with ADD. The default may stand in the column.
    AddColumn {
        table: u32,
        column: Column,
        default: Value,
    },
    /// Each row has a value for each column of the table.
    Insert {
        table: u32,
        rows: Rows,
    },
    Update {
        table: u32,
        filter: Option<Filter>,
        sets: List<(u32, Value)>,
    },
    Delete {
        table: u32,
        filter: Option<Filter>,
    },
    SetMode(Mode),
    Commit,
    Rollback,
    OpenFor {
        cursor: u32,
        bound: Bound,
    },
    Step(u32),
    Fetch(u32),
    Close(u32),
    Run,
    Begin,
    Switch,
    Cancel,
    Trickle(u32),
    Evict {
        table: u32,
        extent: u64,
    },
    Purge,
}
