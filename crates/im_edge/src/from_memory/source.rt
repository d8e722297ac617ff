ghost use Rattle.std.specs.Prelude.{◌≡◌, ◌<◌, ◌≤◌, Some, length};
ghost use Rattle.im_edge.specs.Faults.{Rose};
ghost use Rattle.im_edge.specs.Source.{IsInRoom, HandsOut, IfReadFailed};
ghost use Rattle.im_edge.specs.FromMemory.{answer_to_read, after_read};

use crate::calls::Calls;
use crate::source::{Got, Source};
use std::marker::Model;

/// A source over bytes in memory, which hands out small pieces and fails where it is told to.
#[derive(Drop)]
pub struct MemSource {
    bytes: Vec<u8>,
    at: usize,
    piece: usize,
    calls: Calls,
}

impl Model for MemSource {
    ghost use Rattle.std.specs.Prelude.{◌<◌, ◌≤◌, drop, vec_len};
    ghost use Rattle.im_edge.specs.FromMemory.{Supply};

    ghost Value = { Supply };

    ghost view = { λ s. record {
      left = drop s.at s.bytes.items;
      piece = s.piece;
      fails = s.calls.fails.items;
      calls = s.calls.made;
      faults = s.calls.faults;
    } };

    ghost invariant = { λ s. (s.at ≤ vec_len s.bytes) × (0 < s.piece) };
}

impl MemSource {
    /// A source with these bytes. It hands out at most `piece` bytes a call, and the calls whose
    /// numbers, from 1, are in `fails` fail.
    pub fn new(bytes: Vec<u8>, piece: usize, fails: Vec<u64>) -> MemSource
        requires { 0 < piece }
        ensures { result ≡ record {
          left = bytes.items;
          piece = piece;
          fails = fails.items;
          calls = 0;
          faults = 0;
        } }
    {
        MemSource {
            bytes,
            at: 0,
            piece,
            calls: Calls::new(fails),
        }
    }

    /// The calls of `read` made so far, those that failed too. It stays at the greatest `u64`.
    pub fn calls(&self) -> u64
        ensures { result ≡ self.now.calls }
    {
        self.calls.made
    }
}

impl Source for MemSource {
    ghost left = { λ s. Some s.left };

    ghost faults = { λ s. s.faults };

    fn read(&mut self, buf: &mut [u8]) -> Got
        requires room { 0 < length buf.old }
        ensures answer { result ≡ answer_to_read self.old (length buf.old) }
        ensures after { self.new ≡ after_read self.old result }
        ensures count { IsInRoom result (length buf.old) }
        ensures content { HandsOut result buf.new (Some self.old.left) (Some self.new.left) }
        ensures cause { IfReadFailed result (Rose self.old.faults self.new.faults) }
        ensures later { self.old.faults ≤ self.new.faults }
    {
        if self.calls.begin() {
            self.calls.note_fault();
            return Got::Failed;
        }
        let left = &self.bytes[self.at..];
        if left.is_empty() {
            return Got::End;
        }
        let count = self.piece.min(buf.len()).min(left.len());
        buf[..count].copy_from_slice(&left[..count]);
        self.at += count;
        Got::Bytes(count)
    }
}
