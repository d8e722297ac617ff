ghost use Rattle.std.specs.Prelude.{◌≡◌};
ghost use Rattle.im_queue.specs.inner.Search.{is_trickle};

/// Why an extent is built.
#[derive(Clone, Copy)]
pub enum Reason {
    /// It has no unit.
    Empty,
    /// Its unit is past the threshold.
    Due,
    /// Its unit has a stale row, and a credit is spent on it.
    Stale,
}

impl Reason {
    /// Whether a credit is spent on the build.
    pub fn is_trickle(self) -> bool
        ensures { result ≡ is_trickle self }
    {
        matches!(self, Reason::Stale)
    }
}
