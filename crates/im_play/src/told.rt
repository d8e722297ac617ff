ghost use Rattle.std.specs.Prelude.{◌≡◌};
ghost use Rattle.im_play.specs.Requests.{unasked_reply};

use im_replies::{Fault, Reply};
use im_script::LineKind;
use std::alloc::Global;

/// The reply of a line that no player is asked for, where it has one: it is too long, it is no statement, or there was no memory to
/// read it.
pub fn settled(alloc: Global, kind: &LineKind) -> Option<Reply>
    ensures { result ≡ unasked_reply kind.now }
{
    match kind {
        LineKind::Long(length) => Some(Reply::refusal(
            alloc,
            Fault::LineTooLong { length: *length },
        )),
        LineKind::Bad(byte) => Some(Reply::refusal(alloc, Fault::Syntax { byte: *byte })),
        LineKind::NoMemory => Some(Reply::refusal(alloc, Fault::Memory { k: 0 })),
        LineKind::Skip | LineKind::Race | LineKind::Session(..) | LineKind::Background(_) => None,
    }
}
