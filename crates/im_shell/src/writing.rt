ghost use Rattle.std.specs.Prelude.{◌≡◌, ◌≤◌, [], ◌++◌, OnOk, OnErr, IsErrOf};
ghost use Rattle.im_edge.specs.Faults.{Rose};
ghost use Rattle.im_shell.specs.declared.writing.Stop.TheVariants as stop;
ghost use Rattle.im_text.specs.Passages.{passage_text};

use crate::shown::Shown;
use im_edge::{Sink, WriteFault, write_all};
use im_text::{Passage, Waiting};
use im_values::NoMemory;
use std::alloc::Global;
use thiserror::Error;

/// Text is handed to the sink once so many bytes of it wait, where there is no memory for more of it, and at the end.
pub const PIECE: usize = 65536;

/// Why not all was written.
#[derive(Clone, Copy, Debug, Error)]
pub enum Stop {
    /// The sink met a fault.
    #[error("write failed")]
    WriteFault,
    /// There was no memory to go on.
    #[error("no memory")]
    NoMemory,
}

impl From<WriteFault> for Stop {
    ghost from_gives = { λ _ e. e ≡ stop.WriteFault };

    fn from(_cause: WriteFault) -> Stop {
        Stop::WriteFault
    }
}

impl From<NoMemory> for Stop {
    ghost from_gives = { λ _ e. e ≡ stop.NoMemory };

    fn from(_cause: NoMemory) -> Stop {
        Stop::NoMemory
    }
}

/// What writes: the text that waits before the sink.
#[derive(Drop)]
pub struct Writer<'a, K> {
    /// Where memory is taken from.
    pub alloc: Global,
    /// Where the text goes.
    pub sink: &'a mut K,
    /// The text that waits.
    pub waiting: &'a mut Waiting,
    /// Which replies are written.
    pub shown: Shown,
}

impl<K: Sink> Writer<'_, K> {
    ghost use Rattle.im_shell.specs.inner.Writers.{IsSame, HasSent, HasSentPart};

    /// Writes all that waits.
    pub fn flush(&mut self) -> Result<(), WriteFault>
        ensures same { IsSame self.old self.new }
        ensures ok { OnOk result (HasSent K.taken self.old self.new self.old.waiting.now) }
        ensures none_left { OnOk result (self.new.waiting.now ≡ []) }
        ensures err { OnErr result (HasSentPart K.taken self.old self.new self.old.waiting.now) }
        ensures cause { OnErr result (Rose (K.faults self.old.sink.now) (K.faults self.new.sink.now)) }
        ensures later { K.faults self.old.sink.now ≤ K.faults self.new.sink.now }
    {
        write_all(self.sink, self.waiting.bytes())?;
        self.waiting.clear();
        Ok(())
    }

    /// Writes all that waits, once it is a whole piece.
    pub fn flush_piece(&mut self) -> Result<(), WriteFault>
        ensures same { IsSame self.old self.new }
        ensures ok { OnOk result (HasSent K.taken self.old self.new self.old.waiting.now) }
        ensures err { OnErr result (HasSentPart K.taken self.old self.new self.old.waiting.now) }
        ensures cause { OnErr result (Rose (K.faults self.old.sink.now) (K.faults self.new.sink.now)) }
        ensures later { K.faults self.old.sink.now ≤ K.faults self.new.sink.now }
    {
        if self.waiting.bytes().len() < PIECE {
            return Ok(());
        }
        self.flush()
    }

    /// Puts a passage behind what waits to be written. Where there is no memory for it, what waits is written first, and then it is
    /// tried again.
    pub fn put(&mut self, passage: Passage<'_>) -> Result<(), Stop>
        ensures same { IsSame self.old self.new }
        ensures ok { OnOk result (HasSent K.taken self.old self.new (self.old.waiting.now ++ passage_text passage.entry)) }
        ensures err { OnErr result (HasSentPart K.taken self.old self.new self.old.waiting.now) }
        ensures cause { IsErrOf result Stop.WriteFault → Rose (K.faults self.old.sink.now) (K.faults self.new.sink.now) }
        ensures later { K.faults self.old.sink.now ≤ K.faults self.new.sink.now }
    {
        if self.waiting.put(self.alloc, passage).is_ok() {
            return Ok(());
        }
        self.flush()?;
        self.waiting.put(self.alloc, passage)?;
        Ok(())
    }

    /// Puts a passage behind what waits to be written, and writes all that waits once it is a whole piece.
    pub fn put_next(&mut self, passage: Passage<'_>) -> Result<(), Stop>
        ensures same { IsSame self.old self.new }
        ensures ok { OnOk result (HasSent K.taken self.old self.new (self.old.waiting.now ++ passage_text passage.entry)) }
        ensures err { OnErr result (HasSentPart K.taken self.old self.new (self.old.waiting.now ++ passage_text passage.entry)) }
        ensures cause { IsErrOf result Stop.WriteFault → Rose (K.faults self.old.sink.now) (K.faults self.new.sink.now) }
        ensures later { K.faults self.old.sink.now ≤ K.faults self.new.sink.now }
    {
        self.put(passage)?;
        Ok(self.flush_piece()?)
    }
}
