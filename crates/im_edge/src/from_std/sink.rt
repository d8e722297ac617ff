ghost use Rattle.std.specs.Prelude.{◌≡◌, ◌<◌, ◌≤◌, None, length, take, IfOk, OnErr};
ghost use Rattle.std.specs.Io.KnownBytes.{Appends, Keeps};
ghost use Rattle.im_edge.specs.Faults.{Rose};
ghost use Rattle.im_edge.specs.FromStd.{HandsOn, faults_after_write};
ghost use Rattle.im_edge.specs.Sink.{IsInPiece, Writes, IfWriteFailed};

use super::retry::lasting;
use crate::sink::{Put, Sink};
use std::io;
use std::io::{ErrorKind, Write};
use std::marker::Model;

/// A sink over a writer of std, as standard output: `StdSink::new(rt.stdout())`.
///
/// Each piece goes straight to the writer, with no buffer between. A write of the system that a
/// signal broke off is made again (`lasting` says which those are); any other error is one fault,
/// and so is a writer that takes nothing.
#[derive(Drop)]
pub struct StdSink<W> {
    writer: W,
    faults: u64,
}

impl<W> Model for StdSink<W> {
    ghost use Rattle.im_edge.specs.FromStd.{Adapter};

    ghost Value = { Adapter W };

    ghost view = { λ s. record { adapted = s.writer; faults = s.faults } };
}

impl<W: Write> StdSink<W> {
    /// A sink that has met no fault yet.
    pub fn new(writer: W) -> StdSink<W>
        ensures { result ≡ record { adapted = writer; faults = 0 } }
    {
        StdSink { writer, faults: 0 }
    }
}

impl<W: Write> Sink for StdSink<W> {
    ghost taken = { λ _. None };

    ghost faults = { λ s. s.faults };

    #[tactic(auto, using(crate::proofs::AdapterLemmas::appends_none))]
    fn write(&mut self, piece: &[u8]) -> Put
        requires some { 0 < length piece.now }
        ensures handed_on { HandsOn result piece.now (W.contents self.old.adapted) (W.contents self.new.adapted) }
        ensures count { IsInPiece result (length piece.now) }
        ensures content { Writes result piece.now None None }
        ensures counted { self.new.faults ≡ faults_after_write result self.old.faults }
        ensures cause { IfWriteFailed result (Rose self.old.faults self.new.faults) }
        ensures later { self.old.faults ≤ self.new.faults }
    {
        match write_once(&mut self.writer, piece) {
            Ok(count) if count > 0 => Put::Bytes(count),
            _ => {
                self.faults = self.faults.saturating_add(1);
                Put::Failed
            }
        }
    }
}

/// One write, which is made again where a signal broke it off.
fn write_once<W: Write>(writer: &mut W, piece: &[u8]) -> io::Result<usize>
    ensures count { IfOk result (λ count. count ≤ length piece.now) }
    ensures took { IfOk result (λ count. Appends (W.contents writer.old) (W.contents writer.new) (take count piece.now)) }
    ensures err { OnErr result (Keeps (W.contents writer.old) (W.contents writer.new)) }
{
    for _ in 0..u64::MAX {
        match writer.write(piece) {
            Ok(count) => return Ok(count),
            Err(error) => {
                if let Some(error) = lasting(error) {
                    return Err(error);
                }
            }
        }
    }
    Err(ErrorKind::Interrupted.into())
}
