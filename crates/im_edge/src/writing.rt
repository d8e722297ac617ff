//! Writing a whole text into a sink.
ghost use Rattle.std.specs.Prelude.{◌≡◌, ◌≤◌, OnOk, OnErr};
ghost use Rattle.im_edge.specs.Faults.{Rose};
ghost use Rattle.im_edge.specs.Writing.{Took, TookPart};

use crate::sink::{Put, Sink};
use thiserror::Error;

/// The sink met a fault before it had taken the whole text.
#[derive(Clone, Copy, Debug, PartialEq, Eq, Error)]
#[error("write failed")]
pub struct WriteFault;

/// Writes a whole text. After an error the sink has taken a prefix of it, and never all of it.
pub fn write_all<K: Sink>(sink: &mut K, text: &[u8]) -> Result<(), WriteFault>
    ensures ok { OnOk result (Took (K.taken sink.old) (K.taken sink.new) text.now) }
    ensures err { OnErr result (TookPart (K.taken sink.old) (K.taken sink.new) text.now) }
    ensures cause { OnErr result (Rose (K.faults sink.old) (K.faults sink.new)) }
    ensures later { K.faults sink.old ≤ K.faults sink.new }
{
    let mut done = 0;
    while done < text.len() {
        match sink.write(&text[done..]) {
            Put::Bytes(count) => done += count,
            Put::Failed => return Err(WriteFault),
        }
    }
    Ok(())
}
