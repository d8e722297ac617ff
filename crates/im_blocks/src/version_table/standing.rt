ghost use Rattle.std.specs.Prelude.{◌≡◌, ◌+◌, ◌-◌, ◌^◌, ◌<◌, ◌≤◌, length, min};
ghost use Rattle.im_tables.specs.Table.{row_of};
ghost use Rattle.im_blocks.specs.Chains as seen;
ghost use Rattle.im_blocks.specs.Standing.{standing, standing_of};
ghost use Rattle.im_blocks.specs.Transitions.{Purged};
ghost use Rattle.im_blocks.specs.declared.slot.Slot.TheVariants as slots;
ghost use Rattle.im_blocks.specs.inner.Letting.{IsCounted, NoneFrom};

use crate::slot::Slot;
use crate::version_table::VersionTable;
use crate::version_table::extents::run_end;
use crate::{chains, runs};

/// Row numbers whose versions were counted together.
#[derive(Clone, Copy)]
pub struct Counted {
    /// The row number behind them.
    pub next: u64,
    /// How many versions they have.
    pub versions: u64,
}

impl VersionTable {
    /// Lets go of the versions that no reading at this floor or above it asks for. It takes no memory.
    ///
    /// It costs a look at each chain, and what is let go of. What stands in a run stays: it has one version, with a row.
    pub fn purge(&mut self, floor: u64)
        ensures { Purged self.old self.new floor }
    {
        chains::purge_each(&mut self.chains, floor);
    }

    /// How many versions stand, or the greatest number of 64 bits where there are more. It costs a look at each slot.
    pub fn versions(&self) -> u64
        ensures { result ≡ min (standing self.now) (2 ^ 64 - 1) }
    {
        let mut count = 0;
        for table in 0..self.tables_end() {
            count = self.count_table(table as u32, count);
        }
        count
    }

    /// A number past those of all tables that have versions.
    fn tables_end(&self) -> u64
        ensures few { result ≤ 2 ^ 32 }
        ensures past { NoneFrom self.now result }
    {
        runs::tables_end(&self.runs).max(chains::tables_end(&self.chains))
    }

    /// How many versions the row numbers of a table have, and so many more.
    fn count_table(&self, table: u32, before: u64) -> u64
        ensures { result ≡ min (before + standing_of self.now table) (2 ^ 64 - 1) }
    {
        let end = self.slots.count(table);
        let mut count = before;
        let mut rid = 0;
        while rid < end {
            let counted = self.count_from(table, rid, end);
            count = count.saturating_add(counted.versions);
            rid = counted.next;
        }
        count
    }

    /// How many versions stand at a row number, and at those behind it that its run has.
    fn count_from(&self, table: u32, rid: u64, end: u64) -> Counted
        requires before { rid < end }
        requires there { end ≤ length (row_of self.now.slots table) }
        ensures { IsCounted self.now table rid end result.next result.versions }
    {
        match self.slot(table, rid) {
            Slot::Empty => Counted {
                next: rid + 1,
                versions: 0,
            },
            Slot::InRun(number) => self.count_run(table, rid, end, number),
            Slot::InChain(number) => Counted {
                next: rid + 1,
                versions: chains::count(self.touched(number, table, rid)),
            },
        }
    }

    /// How many versions stand at a row number whose slot names a run, and at those behind it that the run has.
    fn count_run(&self, table: u32, rid: u64, end: u64, number: u32) -> Counted
        requires before { rid < end }
        requires there { end ≤ length (row_of self.now.slots table) }
        requires slot { seen.slot_at self.now table rid ≡ slots.InRun number }
        ensures { IsCounted self.now table rid end result.next result.versions }
    {
        let Some(run) = self.run(number, table, rid) else {
            return Counted {
                next: rid + 1,
                versions: 0,
            };
        };
        let many = run.count() - (rid - run.first);
        let cells = self.slots.of_table(table);
        let next = run_end(cells, number, rid + 1, rid + many.min(end - rid));
        Counted {
            next,
            versions: next - rid,
        }
    }
}
