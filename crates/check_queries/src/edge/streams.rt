//! The adapters, over a reader and a writer of std that stumble.
ghost use Rattle.std.specs.Prelude.{◌≤◌, IfOk};

use im_edge::{Got, Put, Sink, Source, StdSink, StdSource};
use std::io;
use std::io::{Error, ErrorKind, Read, Write};

/// The calls of a stumbling stream that carry bytes or fail. Each call before the one that fails is broken off, but for the first of these.
const CARRIES_THREE: u32 = 1000;

const FAILS: u32 = 2000;

const CARRIES_TWO: u32 = 2001;

/// A stream whose calls are broken off a thousand times before it carries three bytes, and again before one call fails. The next call
/// carries two bytes, and those behind it nothing.
#[derive(Drop)]
struct Stumbling {
    calls: u32,
}

impl Stumbling {
    /// How many bytes a call carries that has room for so many.
    fn count(&mut self, room: usize) -> io::Result<usize>
        ensures { IfOk result (λ count. count ≤ room) }
    {
        let call = self.calls;
        self.calls = call.saturating_add(1);
        match call {
            CARRIES_THREE => Ok(room.min(3)),
            FAILS => Err(Error::other("the line is cut")),
            CARRIES_TWO => Ok(room.min(2)),
            _ if call < FAILS => Err(ErrorKind::Interrupted.into()),
            _ => Ok(0),
        }
    }
}

impl Read for Stumbling {
    fn read(&mut self, buf: &mut [u8]) -> io::Result<usize> {
        let count = self.count(buf.len())?;
        buf[..count].fill(b'a');
        Ok(count)
    }
}

impl Write for Stumbling {
    fn write(&mut self, buf: &[u8]) -> io::Result<usize> {
        self.count(buf.len())
    }

    fn flush(&mut self) -> io::Result<()> {
        Ok(())
    }
}

#[test]
fn a_read_is_made_again_where_it_was_broken_off_and_there_alone(rt: HostRuntime) {
    let mut source = StdSource::new(Stumbling { calls: 0 });
    let mut buf = [b'.'; 8];
    assert!(rt; source.read(&mut buf) == Got::Bytes(3) && buf == *b"aaa.....");
    for answer in [Got::Failed, Got::Bytes(2), Got::End] {
        assert!(rt; source.read(&mut buf) == answer);
    }
}

#[test]
fn a_write_is_made_again_likewise_and_a_writer_that_takes_nothing_is_a_fault(rt: HostRuntime) {
    let mut sink = StdSink::new(Stumbling { calls: 0 });
    for answer in [Put::Bytes(3), Put::Failed, Put::Bytes(2), Put::Failed] {
        assert!(rt; sink.write(b"reply") == answer);
    }
}

#[test]
fn the_standard_output_takes_a_piece(rt: HostRuntime) {
    let mut sink = StdSink::new(rt.stdout());
    assert_eq!(rt; sink.write(b"\n"), Put::Bytes(1));
    let mut source = StdSource::new(rt.reader());
    let got = source.read(&mut [0; 16]);
    assert!(rt; got != Got::Failed);
}
