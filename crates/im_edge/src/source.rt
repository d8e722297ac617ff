//! Where bytes come from.
ghost use Rattle.std.specs.Prelude.{◌≡◌, ℕ, ◌<◌, ◌≤◌, List, Option, length};
ghost use Rattle.im_edge.specs.Faults.{Rose};
ghost use Rattle.im_edge.specs.Source.{IsInRoom, HandsOut, IfReadFailed};

/// What a read answers.
#[derive(Clone, Copy, Debug, PartialEq, Eq)]
pub enum Got {
    /// So many bytes came, at least one, and lie at the front of the buffer.
    Bytes(usize),
    /// Nothing is left.
    End,
    /// The source met a fault, and handed out nothing.
    Failed,
}

/// A reader of bytes, as a script on standard input.
///
/// `read` may hand out fewer bytes than the buffer has room for, so a caller goes on until
/// `Got::End`, as with POSIX's `read`. After `Got::Failed` the source stands where it stood, and
/// may be asked again.
pub trait Source {
    /// The bytes that are left, where the source shows them.
    ghost left: { Self → Option (List ℕ) };

    /// How many faults the source has met. A counter of 64 bits, which stays at its last value.
    ghost faults: { Self → ℕ };

    /// Takes the next bytes off, and puts them at the front of the buffer. What stands in the
    /// buffer behind them means nothing.
    fn read(&mut self, buf: &mut [u8]) -> Got
        requires room { 0 < length buf.old }
        ensures count { IsInRoom result (length buf.old) }
        ensures content { HandsOut result buf.new (left self.old) (left self.new) }
        ensures cause { IfReadFailed result (Rose (faults self.old) (faults self.new)) }
        ensures later { faults self.old ≤ faults self.new };
}
