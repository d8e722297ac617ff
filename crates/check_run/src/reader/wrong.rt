use im_values::NoMemory;
use std::alloc::{AllocError, AllocFailed};

/// What is wrong with the report of a race. A place is that of an entry, and a line is named by its number.
#[derive(Clone, Copy, Debug, PartialEq, Eq)]
pub enum Wrong {
    /// There was no memory to read it.
    NoMemory,
    /// It is no text.
    NoText,
    /// This record, from 1, may not stand where it stands.
    Record(usize),
    /// The history has another length than is said, or an entry has not all its changes.
    Length,
    /// There are more or fewer workers than take part.
    Workers,
    /// The lines that are answered are others than this line and those before it.
    Lines(usize),
    /// The entry is that of a number that takes no part there.
    Stranger(usize),
    /// The entry opens a cursor that is open, or shuts one that is not.
    Cursor(usize),
    /// The entry asks for an SCN that was not reached, or that lies below the horizon.
    Asked(usize),
    /// The entry begins a build that its number may not begin there.
    Begins(usize),
    /// The entry ends a build that its number does not hold.
    Ends(usize),
    /// The entry begins a build of a worker, which does not end.
    Unended(usize),
    /// The session of this number does not leave once and last, with nothing open.
    Leaves(usize),
    /// The worker of this number was not over where it says so.
    Over(usize),
    /// A build could begin, or one was held, where the worker of this number had nothing to do.
    Idle(usize),
    /// The line before the race has another reply or other entries than its statement gives.
    Early(usize),
    /// More or fewer entries of the race are writes than its lines say.
    Writes,
    /// The line was out of memory.
    OutOfMemory(usize),
    /// The line has a place that its reply or its order does not allow.
    Place(usize),
    /// The line has another reply than its entry gives.
    Reply(usize),
    /// The line wrote something else than its statement comes to.
    Write(usize),
    /// The line was served other extents than are left for it, or not between its first and its last entry.
    Extents(usize),
    /// The line was served an extent in another way than it says.
    Mark(usize),
    /// The line has another answer than the rows of its snapshot give.
    Answer(usize),
}

impl From<NoMemory> for Wrong {
    fn from(_cause: NoMemory) -> Wrong {
        Wrong::NoMemory
    }
}

impl From<AllocError> for Wrong {
    fn from(_cause: AllocError) -> Wrong {
        Wrong::NoMemory
    }
}

impl<T: Drop> From<AllocFailed<T>> for Wrong {
    fn from(_cause: AllocFailed<T>) -> Wrong {
        Wrong::NoMemory
    }
}

/// Whether something is as it should be, and else what is wrong.
pub fn check(is_so: bool, wrong: Wrong) -> Result<(), Wrong> {
    if is_so { Ok(()) } else { Err(wrong) }
}
