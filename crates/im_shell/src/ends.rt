ghost use Rattle.std.specs.Prelude.{◌≡◌};
ghost use Rattle.im_shell.specs.inner.Ends as spec;

use crate::status::Status;
use crate::writing::Stop;
use im_edge::ReadError;
use im_words::WordsFault;

/// How a run ends of whose words the reader makes nothing.
pub fn end_of_words(fault: WordsFault) -> Status
    ensures { result ≡ spec.end_of_words fault }
{
    match fault {
        WordsFault::Usage => Status::Usage,
        WordsFault::NoMemory => Status::NoMemory,
    }
}

/// How a run ends that has no script.
pub fn end_of_reading(error: ReadError) -> Status
    ensures { result ≡ spec.end_of_reading error }
{
    match error {
        ReadError::Fault => Status::ReadFault,
        ReadError::TooLong => Status::ScriptTooLong,
        ReadError::NoMemory => Status::NoMemory,
    }
}

/// How a run ends by what the playing of its script came to.
pub fn end_of_play(played: Result<(), Stop>) -> Status
    ensures { result ≡ spec.end_of_play played }
{
    match played {
        Ok(()) => Status::Done,
        Err(Stop::WriteFault) => Status::WriteFault,
        Err(Stop::NoMemory) => Status::NoMemory,
    }
}
