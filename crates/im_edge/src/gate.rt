//! What may hold a scan or a switch up.
use std::sync::Wait;

/// What a gate is asked about.
#[derive(Clone, Copy)]
pub enum At {
    /// A scan step: the number of the cursor, and the extent that the step serves.
    Step { cursor: u32, extent: u64 },
    /// A switch to a unit that was built: the number of the build.
    Switch { id: u64 },
}

/// Is called round each scan step and each switch, outside the turn, with the number of who takes
/// it.
///
/// It lets a test put one step before another on threads. The engine sees nothing of what a gate
/// does: neither call changes what a step or a switch answers.
pub trait Gate {
    /// Comes before the call. It may wait.
    fn before<R: Wait>(&self, rt: &R, who: u32, at: At);

    /// Comes after the call was answered.
    fn after(&self, who: u32, at: At);
}

/// The gate of a program: it never holds anybody up.
#[derive(Clone, Copy, Default)]
pub struct OpenGate;

impl Gate for OpenGate {
    fn before<R: Wait>(&self, _rt: &R, _who: u32, _at: At) {}

    fn after(&self, _who: u32, _at: At) {}
}
