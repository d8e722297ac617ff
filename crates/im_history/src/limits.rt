/// The limits by which a store answers. The program gives its `--area`, and the limits of the engine: [`MOST_WEIGHT`] and
/// [`MOST_CHANGES`].
///
/// [`MOST_WEIGHT`]: im_values::limits::MOST_WEIGHT
/// [`MOST_CHANGES`]: im_values::limits::MOST_CHANGES
#[derive(Clone, Copy)]
pub struct Limits {
    /// Counted bytes of all current units together.
    pub area: u64,
    /// Weight of all changes ever written.
    pub store: u64,
    /// Changes of one transaction.
    pub changes: u64,
}
