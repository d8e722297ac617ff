//! Where bytes go.
ghost use Rattle.std.specs.Prelude.{◌≡◌, ℕ, ◌<◌, ◌≤◌, List, Option, length};
ghost use Rattle.im_edge.specs.Faults.{Rose};
ghost use Rattle.im_edge.specs.Sink.{IsInPiece, Writes, IfWriteFailed};

/// What a write answers.
#[derive(Clone, Copy, Debug, PartialEq, Eq)]
pub enum Put {
    /// So many bytes were taken off the front of the piece, at least one.
    Bytes(usize),
    /// The sink met a fault, and took nothing.
    Failed,
}

/// A writer of bytes, as replies on standard output.
///
/// `write` may take fewer bytes than it is given, so a caller goes on with the rest, as with
/// POSIX's `write`. A device that takes nothing is a fault. After `Put::Failed` the sink stands
/// where it stood, and may be asked again.
pub trait Sink {
    /// The bytes that the sink has taken so far, where it shows them.
    ghost taken: { Self → Option (List ℕ) };

    /// How many faults the sink has met. A counter of 64 bits, which stays at its last value.
    ghost faults: { Self → ℕ };

    /// Takes bytes off the front of the piece.
    fn write(&mut self, piece: &[u8]) -> Put
        requires some { 0 < length piece.now }
        ensures count { IsInPiece result (length piece.now) }
        ensures content { Writes result piece.now (taken self.old) (taken self.new) }
        ensures cause { IfWriteFailed result (Rose (faults self.old) (faults self.new)) }
        ensures later { faults self.old ≤ faults self.new };
}
