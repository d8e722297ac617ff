/// The beginning of a build: a column unit for an extent is to be made from the rows at an SCN.
#[derive(Clone, Copy)]
pub struct Built {
    /// The build's number, from 1 in the order of the history.
    pub id: u64,
    /// The table's number, from 1.
    pub table: u32,
    /// The extent's number in its table, from 0.
    pub extent: u64,
    /// The SCN that the new unit shows.
    pub scn: u64,
    /// Whether it repopulates an extent by a credit of TRICKLE, ahead of the threshold of stale rows.
    pub trickle: bool,
}

/// The end of a build.
#[derive(Clone, Copy)]
pub enum Ending {
    /// The unit took its place.
    Switch {
        /// The build's number.
        id: u64,
        /// The new unit's counted bytes.
        bytes: u64,
        /// The counted bytes of all units, the new one among them.
        used: u64,
    },
    /// The unit did not fit into the area, and the extent stays as it was.
    Full {
        /// The build's number.
        id: u64,
        /// The unit's counted bytes.
        need: u64,
        /// The counted bytes that the area had left.
        free: u64,
    },
    /// The build was over before its unit was there: the extent was evicted, or its table left the column store.
    Cancelled {
        /// The build's number.
        id: u64,
        /// The place in the history of the entry that ended it.
        place: u64,
    },
    /// The build was called off by CANCEL.
    Dropped {
        /// The build's number.
        id: u64,
    },
}
