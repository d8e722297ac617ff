/// A build of a column unit that was begun: who holds it reads the extent's rows at its SCN, and then ends it.
///
/// It is no copy, so that it is ended once.
#[derive(Drop)]
pub struct Task {
    /// Builds are numbered from 1 in the order in which they began.
    pub id: u64,
    /// The table's number.
    pub table: u32,
    pub extent: u64,
    /// The SCN at which the build began: the unit holds the rows that were committed by then.
    pub scn: u64,
    /// How many row numbers are in an extent of the table.
    pub per: u64,
    /// How many columns the table had at that SCN: so many has the unit.
    pub columns: u32,
    /// Whether one of the allowed trickle repopulations is spent on it.
    pub trickle: bool,
}

/// The extent whose unit is built next.
#[derive(Clone, Copy)]
pub struct Choice {
    /// The table's number.
    pub table: u32,
    pub extent: u64,
    /// Whether a credit for a trickle repopulation is spent on it.
    pub trickle: bool,
}

/// A build that was begun and is not ended.
#[derive(Drop)]
pub struct Held {
    /// Who began it.
    pub who: u32,
    pub task: Task,
    /// How many row numbers of its table were given when it began.
    pub given: u64,
    /// The place of the first entry that killed it: it took the extent out of the column store.
    pub killed: Option<u64>,
}
