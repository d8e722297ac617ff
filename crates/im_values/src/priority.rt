/// How soon a table's extents are populated in memory.
#[derive(Clone, Copy)]
pub enum Priority {
    Critical,
    High,
    Medium,
    Low,
    /// Only once the table was scanned.
    None,
}
