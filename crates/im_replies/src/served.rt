/// How a scan was served an extent.
#[derive(Clone, Copy)]
pub enum How {
    /// By its column unit, and by the blocks for the rows that are stale there.
    Unit {
        /// The SCN that the unit shows.
        scn: u64,
        /// How many rows of the extent were touched after that SCN, up to the scan's.
        stale: u64,
    },
    /// By the blocks for the stale rows alone: the unit's bounds exclude the condition.
    Pruned {
        /// The SCN that the unit shows.
        scn: u64,
        /// How many rows of the extent were touched after that SCN, up to the scan's.
        stale: u64,
    },
    /// By the blocks alone: the extent has no unit, or one that shows a later SCN than the scan's.
    Blocks,
}

/// A mark: how one extent was served, and when.
#[derive(Clone, Copy)]
pub struct Served {
    /// How many entries the history had when the extent was served.
    pub place: u64,
    /// The extent's number in its table, from 0.
    pub extent: u64,
    /// What it was served by.
    pub how: How,
}
