ghost use Rattle.std.specs.Prelude.{◌≡◌, ◌*◌, ◌≤◌};

use std::marker::Model;

/// How a table's row numbers are cut: so many to a block, and so many blocks to an extent. Each is from 1 to
/// [`im_values::limits::MOST_IN_SHAPE`].
#[derive(Clone, Copy)]
pub struct Shape {
    block: u32,
    extent: u32,
}

impl Model for Shape {
    ghost use Rattle.im_history.specs.Grid.{Grid};

    ghost Value = { Grid };

    ghost use Rattle.im_history.specs.Grid.{IsInRange};

    ghost view = { λ s. record { block = s.block; extent = s.extent } };

    ghost invariant = { λ s. IsInRange s.block × IsInRange s.extent };

    ghost inverse = { λ g. record { block = g.block; extent = g.extent } };
}

impl Shape {
    ghost use Rattle.im_history.specs.Grid.{IsInRange, default_grid, per_extent};

    /// A shape of so many row numbers a block and so many blocks an extent.
    pub fn of(block: u32, extent: u32) -> Shape
        requires block { IsInRange block }
        requires extent { IsInRange extent }
        ensures block { result.block ≡ block }
        ensures extent { result.extent ≡ extent }
    {
        Shape { block, extent }
    }

    /// The shape of a table that names none: 32 row numbers a block, 64 blocks an extent.
    pub fn standard() -> Shape
        ensures { result ≡ default_grid }
    {
        Shape {
            block: 32,
            extent: 64,
        }
    }

    /// The same shape. That it is in range is a fact of its type, which reaches a caller only through a call.
    pub fn known(self) -> Shape
        ensures same { result ≡ self }
        ensures block { IsInRange self.block }
        ensures extent { IsInRange self.extent }
    {
        self
    }

    /// Row numbers in a block.
    pub fn block(self) -> u32
        ensures block { result ≡ self.block }
        ensures in_range { IsInRange self.block }
    {
        self.block
    }

    /// Blocks in an extent.
    pub fn extent(self) -> u32
        ensures extent { result ≡ self.extent }
        ensures in_range { IsInRange self.extent }
    {
        self.extent
    }

    /// Row numbers in an extent: from 1 to 4,096.
    pub fn per_extent(self) -> u64
        ensures product { result ≡ per_extent self }
        ensures some { 1 ≤ result }
        ensures few { result ≤ 4096 }
    {
        u64::from(self.block) * u64::from(self.extent)
    }
}
