ghost use Rattle.std.specs.Prelude.{◌≡◌};
ghost use Rattle.clap.specs.Words.{kind_of};
ghost use Rattle.im_words.specs.Command as spec;
ghost use Rattle.im_words.specs.declared.fault.WordsFault.TheVariants as faults;

use clap::Error;
use clap::error::ErrorKind;
use std::alloc::AllocError;
use thiserror::Error as ThisError;

/// Why the words were not read.
#[derive(Clone, Copy, Debug, PartialEq, Eq, ThisError)]
pub enum WordsFault {
    /// They are not words of the command.
    #[error("wrong words")]
    Usage,
    /// There was no memory to read them.
    #[error("no memory")]
    NoMemory,
}

impl From<AllocError> for WordsFault {
    ghost from_gives = { λ _ e. e ≡ faults.NoMemory };

    fn from(_cause: AllocError) -> WordsFault {
        WordsFault::NoMemory
    }
}

impl From<Error> for WordsFault {
    ghost from_gives = { λ cause e. e ≡ spec.fault_by (kind_of cause) };

    fn from(cause: Error) -> WordsFault {
        match cause.kind() {
            ErrorKind::OutOfMemory => WordsFault::NoMemory,
            _ => WordsFault::Usage,
        }
    }
}
