ghost use Rattle.std.specs.Prelude.{◌≡◌};
ghost use Rattle.im_readers.specs.declared.halt.Halt.TheVariants.{NoMemory};

use std::alloc::{AllocError, AllocFailed};

/// Why a reader gave no value.
#[derive(Clone, Copy)]
pub enum Halt {
    /// No value begins so: this many tokens are left where reading stops.
    Left(usize),
    /// There was no memory for the value.
    NoMemory,
}

impl From<AllocError> for Halt {
    ghost from_gives = { λ _ e. e ≡ NoMemory };

    fn from(_cause: AllocError) -> Halt {
        Halt::NoMemory
    }
}

impl<T: Drop> From<AllocFailed<T>> for Halt {
    ghost from_gives = { λ _ e. e ≡ NoMemory };

    fn from(_cause: AllocFailed<T>) -> Halt {
        Halt::NoMemory
    }
}
