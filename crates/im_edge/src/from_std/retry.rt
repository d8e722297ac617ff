//! Which call of the system is made again.
ghost use Rattle.std.specs.Prelude.{◌≡◌, ◌⊎◌, ◌↔◌, Some, None};
ghost use Rattle.std.specs.IoError.{error_kind};

use std::io;
use std::io::ErrorKind;

/// The error that a call ended with, unless a signal broke the call off: that call is made again, and it alone.
pub(super) fn lasting(error: io::Error) -> Option<io::Error>
    ensures again { (result ≡ None) ↔ (error_kind error ≡ ErrorKind.Interrupted) }
    ensures error { (result ≡ None) ⊎ (result ≡ Some error) }
{
    match error.kind() {
        ErrorKind::Interrupted => None,
        _ => Some(error),
    }
}
