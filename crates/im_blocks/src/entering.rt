ghost use Rattle.std.specs.Prelude.{◌≡◌, ◌+◌, ◌<◌, ◌≤◌, length};
ghost use Rattle.im_blocks.specs.Chains.{newest_scn, versions_in};
ghost use Rattle.im_blocks.specs.Runs.{rows_in};
ghost use Rattle.im_blocks.specs.inner.Packing.{IsNumbered};
ghost use Rattle.im_blocks.specs.inner.Puts as puts;
ghost use Rattle.im_blocks.specs.inner.Puts.{AreEntered, HasEntered};
ghost use Rattle.im_tables.specs.Table.{row_of};

use crate::run::Run;
use crate::slot::{PackedSlot, Slot};
use crate::touched::Touched;
use crate::{chains, runs};
use im_tables::Cells;

/// The SCN of the newest version that a slot shows of a row number, 0 where it shows none.
pub fn newest_in(slot: Slot, all_runs: &[Run], all_chains: &[Touched], table: u32, rid: u64) -> u64
    ensures { result ≡ newest_scn (versions_in all_runs.now all_chains.now table rid slot) }
{
    match slot {
        Slot::Empty => 0,
        Slot::InRun(number) => runs::newest(runs::at(all_runs, number, table, rid)),
        Slot::InChain(number) => chains::newest(chains::at(all_chains, number, table, rid)),
    }
}

/// Lets the row numbers of a run go into it, which is to have this number: all but those that have a version of its commit.
///
/// It costs a look at each slot. It takes no memory.
pub fn enter(
    slots: &mut Cells<PackedSlot>,
    all_runs: &[Run],
    all_chains: &[Touched],
    number: u32,
    run: &Run,
)
    requires number { IsNumbered number }
    requires there { run.now.first + length (rows_in run.now.rows) ≤ length (row_of slots.old run.now.table) }
    requires table { run.now.table < length slots.old }
    ensures { HasEntered all_runs.now all_chains.now number run.now slots.old slots.new }
{
    enter_cells(
        slots.of_table_mut(run.table),
        all_runs,
        all_chains,
        number,
        run,
    );
}

/// Lets a row number go into a run, unless its slot shows a version of the run's commit.
#[inline(always)]
fn enter_one(
    cell: &mut PackedSlot,
    all_runs: &[Run],
    all_chains: &[Touched],
    number: u32,
    run: &Run,
    rid: u64,
)
    requires { IsNumbered number }
    ensures { cell.new ≡ puts.entered all_runs.now all_chains.now number run.now run.now.table rid cell.old }
{
    if newest_in(cell.slot(), all_runs, all_chains, run.table, rid) != run.scn {
        *cell = PackedSlot::in_run(number);
    }
}

/// The same of the row numbers of the run, in the slots of its table.
fn enter_cells(
    cells: &mut [PackedSlot],
    all_runs: &[Run],
    all_chains: &[Touched],
    number: u32,
    run: &Run,
)
    requires number { IsNumbered number }
    requires there { run.now.first + length (rows_in run.now.rows) ≤ length cells.old }
    ensures { AreEntered all_runs.now all_chains.now number run.now (length (rows_in run.now.rows)) cells.old cells.new }
{
    for rid in run.first..run.first + run.count() {
        let cell = &mut cells[rid as usize];
        enter_one(cell, all_runs, all_chains, number, run, rid);
    }
}
