ghost use Rattle.std.specs.Prelude.{◌≡◌};
ghost use Rattle.im_names.specs.declared.fault.NameFault.TheVariants.{NoMemory as Lacks};

use im_values::{Name, NoMemory};
use std::alloc::{AllocError, AllocFailed};

/// Why the names and values of a statement have no numbers.
#[derive(Drop)]
pub enum NameFault {
    /// No table has the name.
    UnknownTable {
        name: Name,
    },
    /// The table lacks a column of the name.
    UnknownColumn {
        name: Name,
    },
    /// The name stands twice among the columns that are created, inserted or set.
    RepeatedColumn {
        name: Name,
    },
    /// A tuple has so many values, and so many columns were wanted.
    WrongCount {
        got: u64,
        wanted: u64,
    },
    /// A text for a column of numbers, a number for one of texts, or a SUM of texts.
    WrongKind {
        column: Name,
    },
    /// A text of so many bytes for a column of texts of at most so many.
    TooLong {
        column: Name,
        length: u64,
        limit: u64,
    },
    /// A grouped query answers or sorts by a column that it does not group by; None is `*`.
    NotGrouped {
        column: Option<Name>,
    },
    /// There was no memory for what the statement resolves to.
    NoMemory,
}

impl From<NoMemory> for NameFault {
    ghost from_gives = { λ _ e. e ≡ Lacks };

    fn from(_cause: NoMemory) -> NameFault {
        NameFault::NoMemory
    }
}

impl From<AllocError> for NameFault {
    ghost from_gives = { λ _ e. e ≡ Lacks };

    fn from(_cause: AllocError) -> NameFault {
        NameFault::NoMemory
    }
}

impl<T: Drop> From<AllocFailed<T>> for NameFault {
    ghost from_gives = { λ _ e. e ≡ Lacks };

    fn from(_cause: AllocFailed<T>) -> NameFault {
        NameFault::NoMemory
    }
}
