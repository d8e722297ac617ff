use crate::mode::Mode;

/// What the words ask for. A mode has no use for some of the numbers.
#[derive(Clone, Copy, Debug, PartialEq, Eq)]
pub struct Asked {
    pub mode: Mode,
    /// Bytes, from 0 to 1,073,741,824.
    pub area: u64,
    /// From 1 to 8.
    pub workers: u32,
    /// From 1 to 1,000,000.
    pub turns: u64,
    /// From 1 to 500,000.
    pub rows: u64,
    pub seed: u32,
}
