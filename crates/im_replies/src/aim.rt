use im_values::Name;

/// What a call of a store was to do, as far as a fault names it.
#[derive(Drop)]
pub enum Aim {
    /// To create a table.
    Creating {
        /// Its name.
        name: Name,
    },
    /// To add a column to a table.
    Adding {
        /// The column's name.
        name: Name,
    },
    /// To open a cursor.
    Opening {
        /// The number of the table that it is to see, from 1.
        table: u32,
        /// The session's number for the cursor. The cursor of a statement's own scan is 0.
        cursor: u32,
    },
    /// To insert rows.
    Inserting {
        /// The number of the table that they are put into, from 1.
        table: u32,
    },
    /// To evict the unit of an extent.
    Evicting {
        /// The table's number, from 1.
        table: u32,
        /// The extent.
        extent: u64,
    },
    /// Anything else. No fault names it.
    Plain,
}
