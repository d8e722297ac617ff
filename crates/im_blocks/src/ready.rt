use im_history::Change;
use im_values::Rows;

/// Changes that are ready to be put in: there is room for what they put.
#[derive(Drop)]
pub enum Ready {
    /// Rows at row numbers that have no version.
    Run {
        /// The table's number.
        table: u32,
        /// The row number of the first of the rows.
        first: u64,
        /// The rows.
        rows: Rows,
    },
    /// A change to one row.
    One(Change),
}
