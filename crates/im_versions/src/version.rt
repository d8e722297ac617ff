use im_values::Row;

/// What one commit left of a row.
#[derive(Drop)]
pub struct Version {
    /// The SCN of the commit.
    pub scn: u64,

    /// The row, or none where the commit took it away.
    pub row: Option<Row>,
}
