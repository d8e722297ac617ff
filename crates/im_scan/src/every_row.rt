ghost use Rattle.std.specs.Prelude.{◌≡◌, ◌<◌, ◌^◌, replicate, true, OnOk};

use im_lanes::Mask;
use im_values::NoMemory;
use std::alloc::Global;
use std::marker::Model;

/// A mask that chooses every row, which is kept from run to run.
#[derive(Drop)]
pub struct EveryRow {
    mask: Mask,
}

impl Model for EveryRow {
    ghost use Rattle.std.specs.Prelude.{List, Bool, true, ◌≡◌, length, replicate};

    ghost Value = { List Bool };

    ghost view = { λ e. e.mask };

    ghost invariant = { λ e. e.mask ≡ replicate (length e.mask) true };
}

impl EveryRow {
    /// The mask of no row. It takes no memory.
    pub fn new(alloc: Global) -> Result<EveryRow, NoMemory> {
        Ok(EveryRow {
            mask: Mask::all(alloc, 0)?,
        })
    }

    /// The mask becomes that of so many rows. It is made anew only where it was of more or fewer.
    pub fn fit(&mut self, alloc: Global, len: u64) -> Result<(), NoMemory>
        requires { len < 2 ^ 31 }
        ensures { OnOk result (self.new ≡ replicate len true) }
    {
        if self.mask.len() != len {
            self.mask = Mask::all(alloc, len)?;
        }
        Ok(())
    }

    /// The mask.
    pub fn mask(&self) -> &Mask
        ensures { result.now ≡ self.now }
    {
        &self.mask
    }
}
