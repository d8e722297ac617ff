ghost use Rattle.std.specs.Prelude.{◌≡◌, ◌<◌, ◌≤◌, None, length, take, IfOk, OnErr};
ghost use Rattle.std.specs.Io.KnownBytes.{Consumes, IsAtEnd, Keeps};
ghost use Rattle.im_edge.specs.Faults.{Rose};
ghost use Rattle.im_edge.specs.FromStd.{PassesOn, faults_after_read};
ghost use Rattle.im_edge.specs.Source.{IsInRoom, HandsOut, IfReadFailed};

use super::retry::lasting;
use crate::source::{Got, Source};
use std::io;
use std::io::{ErrorKind, Read};
use std::marker::Model;

/// A source over a reader of std, as standard input: `StdSource::new(rt.reader())`.
///
/// A read of the system that a signal broke off is made again (`lasting` says which those are); any other error is one
/// fault.
#[derive(Drop)]
pub struct StdSource<R> {
    reader: R,
    faults: u64,
}

impl<R> Model for StdSource<R> {
    ghost use Rattle.im_edge.specs.FromStd.{Adapter};

    ghost Value = { Adapter R };

    ghost view = { λ s. record { adapted = s.reader; faults = s.faults } };
}

impl<R: Read> StdSource<R> {
    /// A source that has met no fault yet.
    pub fn new(reader: R) -> StdSource<R>
        ensures { result ≡ record { adapted = reader; faults = 0 } }
    {
        StdSource { reader, faults: 0 }
    }
}

impl<R: Read> Source for StdSource<R> {
    ghost left = { λ _. None };

    ghost faults = { λ s. s.faults };

    fn read(&mut self, buf: &mut [u8]) -> Got
        requires room { 0 < length buf.old }
        ensures passed_on { PassesOn result buf.new (R.remaining self.old.adapted) (R.remaining self.new.adapted) }
        ensures count { IsInRoom result (length buf.old) }
        ensures content { HandsOut result buf.new None None }
        ensures counted { self.new.faults ≡ faults_after_read result self.old.faults }
        ensures cause { IfReadFailed result (Rose self.old.faults self.new.faults) }
        ensures later { self.old.faults ≤ self.new.faults }
    {
        match read_once(&mut self.reader, buf) {
            Ok(0) => Got::End,
            Ok(count) => Got::Bytes(count),
            Err(_) => {
                self.faults = self.faults.saturating_add(1);
                Got::Failed
            }
        }
    }
}

/// One read, which is made again where a signal broke it off.
fn read_once<R: Read>(reader: &mut R, buf: &mut [u8]) -> io::Result<usize>
    ensures count { IfOk result (λ count. count ≤ length buf.old) }
    ensures came { IfOk result (λ count. Consumes (R.remaining reader.old) (R.remaining reader.new) (take count buf.new)) }
    ensures end { IfOk result (λ count. count ≡ 0 → 0 < length buf.old → IsAtEnd (R.remaining reader.new)) }
    ensures err { OnErr result (Keeps (R.remaining reader.old) (R.remaining reader.new)) }
{
    for _ in 0..u64::MAX {
        match reader.read(buf) {
            Ok(count) => return Ok(count),
            Err(error) => {
                if let Some(error) = lasting(error) {
                    return Err(error);
                }
            }
        }
    }
    Err(ErrorKind::Interrupted.into())
}
