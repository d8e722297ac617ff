ghost use Rattle.std.specs.Prelude.{◌≡◌, []};
ghost use Rattle.im_replies.specs.Causes as causes;
ghost use Rattle.im_session.specs.inner.Writes.{write_reply};
ghost use Rattle.im_session.specs.inner.Refusals.{refused_so};
ghost use Rattle.im_statements.specs.Statements.{name_reply};
ghost use Rattle.im_statements.specs.Turns as turns;

use im_history::{Refused, Why};
use im_names::NameFault;
use im_replies::{Aim, Body, Fault, Reply, Served};
use im_values::List;
use std::alloc::Global;

/// The reply of a line that ran out of memory once it had made so many entries.
pub fn out_of_memory(alloc: Global, k: u64) -> Reply
    ensures { result ≡ turns.memory_reply k }
{
    Reply::refusal(alloc, Fault::Memory { k })
}

/// The reply of a line that was served so and whose call was refused once the line had made so many entries. The fault says for
/// which cause, but where memory was out.
fn refused_with(alloc: Global, k: u64, marks: List<Served>, refused: Refused, fault: Fault) -> Reply
    ensures { result ≡ refused_so k refused.place marks fault refused.why }
{
    match refused.why {
        Why::NoMemory => {
            drop(marks);
            drop(fault);
            out_of_memory(alloc, k)
        }
        _ => Reply {
            place: Some(refused.place),
            marks,
            body: Body::Error(fault),
        },
    }
}

/// No marks. It takes no memory.
fn none(alloc: Global) -> List<Served>
    ensures { result ≡ [] }
{
    List::of(Vec::new(alloc))
}

/// The reply of a line whose call was to do this, and was refused once the line had made so many entries.
pub fn refused_reply(alloc: Global, aim: Aim, k: u64, refused: Refused) -> Reply
    ensures { result ≡ turns.refused_reply (causes.fault_of aim) k refused.place refused.why }
{
    let fault = Fault::of(aim, refused.why);
    refused_with(alloc, k, none(alloc), refused, fault)
}

/// The reply of a line whose write was refused once it had opened its scan and was served so.
pub fn write_refused(alloc: Global, marks: List<Served>, refused: Refused) -> Reply
    ensures { result ≡ write_reply 1 refused.place marks refused.why }
{
    let fault = Fault::of(Aim::Plain, refused.why);
    refused_with(alloc, 1, marks, refused, fault)
}

/// The reply of a line whose names had a fault, at this place, once the line had made so many entries.
pub fn name_reply(alloc: Global, k: u64, place: u64, fault: NameFault) -> Reply
    ensures { result ≡ name_reply k place fault }
{
    match fault {
        NameFault::NoMemory => out_of_memory(alloc, k),
        fault => Reply::settled(alloc, place, Body::Error(Fault::from(fault))),
    }
}
