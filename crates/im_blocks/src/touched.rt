ghost use Rattle.std.specs.Prelude.{◌≡◌, ◌<◌, OnOk};
ghost use Rattle.im_blocks.specs.Chains.{newest_scn};
ghost use Rattle.im_blocks.specs.inner.Letting.{IsPurged};
ghost use Rattle.im_blocks.specs.inner.Puts.{IsRoomier, IsOneLonger};

use im_values::{NoMemory, Row};
use im_versions::Chain;

/// The versions of a row that a commit touched after the one that put it, or that was put in another way than in a run.
#[derive(Drop)]
pub struct Touched {
    /// The table's number.
    pub table: u32,
    /// The row number.
    pub rid: u64,
    /// Its versions.
    pub chain: Chain,
}

impl Touched {
    /// Makes room for one version, unless there is some.
    pub fn reserve(&mut self) -> Result<(), NoMemory>
        ensures same { IsRoomier self.old self.new }
        ensures ok { OnOk result (0 < self.new.chain.spare) }
    {
        self.chain.reserve()?;
        Ok(())
    }

    /// Puts a version on top. It takes no memory.
    pub fn take(&mut self, scn: u64, row: Option<Row>)
        requires room { 0 < self.old.chain.spare }
        requires some { 0 < scn }
        requires later { newest_scn self.old.chain.versions < scn }
        ensures { IsOneLonger self.old self.new scn row }
    {
        self.chain.push(scn, row);
    }
    /// Lets go of the versions that no reading at this floor or above it asks for. It takes no memory.
    pub fn purge(&mut self, floor: u64)
        ensures { IsPurged self.old self.new floor }
    {
        self.chain.purge(floor);
    }
}
