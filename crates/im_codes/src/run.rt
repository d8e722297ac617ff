/// A run of equal codes.
#[derive(Clone, Copy)]
pub struct Run {
    /// The code of each place of the run.
    pub code: u32,

    /// The place past the run.
    pub end: u32,
}
