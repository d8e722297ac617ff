ghost use Rattle.std.specs.Prelude.{◌≡◌, true};
ghost use Rattle.im_blocks.specs.declared.slot.Slot.TheVariants as slot;
ghost use Rattle.im_blocks.specs.inner.Packing.{IsNumbered};

use im_tables::Cell;
use std::alloc::Global;
use std::marker::Model;

/// The most runs, and the most chains: 2^31 - 1. So a slot finds room in 32 bits.
pub const MOST: usize = 0x7FFF_FFFF;

/// Where the versions of a row number are kept.
#[derive(Clone, Copy, Drop)]
pub enum Slot {
    /// Nowhere: it has none.
    Empty,
    /// In the run of this number: it has one.
    InRun(u32),
    /// In the chain of this number.
    InChain(u32),
}

/// A slot in four bytes.
#[derive(Drop)]
pub struct PackedSlot {
    word: u32,
}

impl Model for PackedSlot {
    ghost use Rattle.im_blocks.specs.declared.slot.Slot.{Slot as Unpacked};
    ghost use Rattle.im_blocks.specs.inner.Packing.{unpacked};

    ghost Value = { Unpacked };

    ghost view = { λ p. unpacked p.word };
}

impl Cell for PackedSlot {
    ghost blank = { slot.Empty };

    fn empty(_alloc: Global) -> PackedSlot {
        PackedSlot { word: 0 }
    }
}

impl PackedSlot {
    /// The slot of a run.
    pub fn in_run(number: u32) -> PackedSlot
        requires { IsNumbered number }
        ensures { result ≡ slot.InRun number }
    {
        PackedSlot {
            word: number * 2 + 1,
        }
    }

    /// The slot of a chain.
    pub fn in_chain(number: u32) -> PackedSlot
        requires { IsNumbered number }
        ensures { result ≡ slot.InChain number }
    {
        PackedSlot {
            word: number * 2 + 2,
        }
    }

    /// The slot.
    pub fn slot(&self) -> Slot
        ensures { result ≡ self.now }
    {
        if self.word == 0 {
            Slot::Empty
        } else if self.word % 2 == 1 {
            Slot::InRun(self.word / 2)
        } else {
            Slot::InChain(self.word / 2 - 1)
        }
    }

    /// Whether it is in the run of this number.
    pub fn is_in(&self, number: u32) -> bool
        ensures { result ≡ true → self.now ≡ slot.InRun number }
    {
        match self.slot() {
            Slot::InRun(own) => own == number,
            Slot::Empty | Slot::InChain(_) => false,
        }
    }
}
