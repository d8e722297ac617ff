use std::alloc::Global;

/// What those who play have of the outside.
#[derive(Drop)]
pub struct Outside<'a, R, G> {
    /// Where memory is taken from.
    pub alloc: Global,
    /// The means to wait.
    pub rt: &'a R,
    /// It is called before and after each step of a scan and each switch of a unit.
    pub gate: &'a G,
}
