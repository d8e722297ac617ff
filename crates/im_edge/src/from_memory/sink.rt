ghost use Rattle.std.specs.Prelude.{◌≡◌, ◌+◌, ◌<◌, ◌≤◌, Some, [], length, OnOk, OnErr};
ghost use Rattle.im_edge.specs.Faults.{Rose};
ghost use Rattle.im_edge.specs.Sink.{IsInPiece, Writes, IfWriteFailed};
ghost use Rattle.im_edge.specs.FromMemory.{answer_to_write, after_write};

use crate::calls::Calls;
use crate::sink::{Put, Sink};
use im_values::NoMemory;
use std::alloc::Global;
use std::marker::Model;

/// A sink that keeps what it takes in memory, takes small pieces, and fails where it is told to.
///
/// It takes no memory in a write: `push_room` makes the room beforehand, and a write past the room
/// is a fault.
#[derive(Drop)]
pub struct MemSink {
    taken: Vec<u8>,
    room: usize,
    piece: usize,
    calls: Calls,
}

impl Model for MemSink {
    ghost use Rattle.std.specs.Prelude.{◌+◌, ◌<◌, ◌≤◌, vec_len, vec_capacity};
    ghost use Rattle.im_edge.specs.FromMemory.{Intake};

    ghost Value = { Intake };

    ghost view = { λ s. record {
      taken = s.taken.items;
      room = s.room;
      piece = s.piece;
      fails = s.calls.fails.items;
      calls = s.calls.made;
      faults = s.calls.faults;
    } };

    ghost invariant = { λ s. (vec_len s.taken + s.room ≤ vec_capacity s.taken) × (0 < s.piece) };
}

impl MemSink {
    /// A sink that has taken nothing and has no room. It takes at most `piece` bytes a call, and
    /// the calls whose numbers, from 1, are in `fails` fail.
    pub fn new(alloc: Global, piece: usize, fails: Vec<u64>) -> MemSink
        requires { 0 < piece }
        ensures { result ≡ record {
          taken = [];
          room = 0;
          piece = piece;
          fails = fails.items;
          calls = 0;
          faults = 0;
        } }
    {
        MemSink {
            taken: Vec::new(alloc),
            room: 0,
            piece,
            calls: Calls::new(fails),
        }
    }

    /// Makes room for `n` bytes more.
    pub fn push_room(&mut self, n: usize) -> Result<(), NoMemory>
        ensures ok { OnOk result (self.new ≡ record self.old { room = self.old.room + n }) }
        ensures err { OnErr result (self.new ≡ self.old) }
    {
        let Some(room) = self.room.checked_add(n) else {
            return Err(NoMemory);
        };
        self.taken.reserve(room)?;
        self.room = room;
        Ok(())
    }

    /// The bytes taken so far, the first in front.
    pub fn taken(&self) -> &[u8]
        ensures { result.now ≡ self.now.taken }
    {
        self.taken.as_slice()
    }

    /// The calls of `write` made so far, those that failed too. It stays at the greatest `u64`.
    pub fn calls(&self) -> u64
        ensures { result ≡ self.now.calls }
    {
        self.calls.made
    }
}

impl Sink for MemSink {
    ghost taken = { λ s. Some s.taken };

    ghost faults = { λ s. s.faults };

    fn write(&mut self, piece: &[u8]) -> Put
        requires some { 0 < length piece.now }
        ensures answer { result ≡ answer_to_write self.old (length piece.now) }
        ensures after { self.new ≡ after_write self.old piece.now result }
        ensures count { IsInPiece result (length piece.now) }
        ensures content { Writes result piece.now (Some self.old.taken) (Some self.new.taken) }
        ensures cause { IfWriteFailed result (Rose self.old.faults self.new.faults) }
        ensures later { self.old.faults ≤ self.new.faults }
    {
        let count = self.piece.min(piece.len());
        if self.calls.begin() || self.room < count {
            self.calls.note_fault();
            return Put::Failed;
        }
        self.taken.extend_from_slice(&piece[..count]).unwrap();
        self.room -= count;
        Put::Bytes(count)
    }
}
