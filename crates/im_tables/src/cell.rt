ghost use Rattle.std.specs.Prelude.{◌≡◌};

use std::alloc::Global;

/// What [`Cells`](crate::Cells) hold: it has an empty value, which is read wherever nothing was put.
pub trait Cell: Drop {
    /// The empty value.
    ghost blank: { Self };

    /// The empty value. It takes no memory.
    fn empty(alloc: Global) -> Self
        ensures { result ≡ blank };
}

impl Cell for u8 {
    ghost blank = { 0 };

    fn empty(_alloc: Global) -> u8 {
        0
    }
}
