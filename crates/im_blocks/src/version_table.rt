ghost use Rattle.std.specs.Prelude.{◌≡◌, ◌==◌, ◌+◌, ◌^◌, ◌<◌, ◌≤◌, [], ◌∷◌, All, true, length, is_some, option_copied, IfOk, OnOk};
ghost use Rattle.im_blocks.specs.declared.slot.Slot.TheVariants as slots;
ghost use Rattle.im_tables.specs.Table.{HasCell};
ghost use Rattle.im_versions.specs.Versions.{newest_row, row_at};
ghost use Rattle.im_blocks.specs.Chains as seen;
ghost use Rattle.im_blocks.specs.Chains.{IsReady, newest_scn, versions_at};
ghost use Rattle.im_blocks.specs.Readied.{HasPlace, HasRoom, IsFree, IsReadyFor, ready_changes};
ghost use Rattle.im_blocks.specs.Runs.{rows_in};
ghost use Rattle.im_blocks.specs.Transitions.{SameVersions, IsBefore, Applied};
ghost use Rattle.im_blocks.specs.inner.Handing.{MayTake, MayTakeRun, HasTaken, HasTakenRun};
ghost use Rattle.im_blocks.specs.inner.Readying.{AreReady};
ghost use Rattle.im_history.specs.Puts.{all_changes, put_from};

use crate::entering::enter;
use crate::joining::joined;
use crate::ready::Ready;
use crate::run::Run;
use crate::slot::{MOST, PackedSlot, Slot};
use crate::touched::Touched;
use crate::{chains, runs};
use im_history::{Change, Changes, LentPut};
use im_tables::Cells;
use im_values::{NoMemory, Row, Rows, Steps, Value};
use im_versions::Chain;
use std::alloc::Global;
use std::marker::Model;
use std::sync::ledger::Ledger;

pub mod extents;
mod standing;

/// Where the versions of every row of every table are kept.
#[derive(Drop)]
pub struct VersionTable {
    alloc: Global,
    slots: Cells<PackedSlot>,
    runs: Vec<Run>,
    room: usize,
    chains: Vec<Touched>,
}

impl Model for VersionTable {
    ghost use Rattle.std.specs.Prelude.{◌+◌, ◌-◌, ◌^◌, ◌≤◌, vec_len, vec_capacity};
    ghost use Rattle.im_blocks.specs.Chains.{AllVersions};

    ghost Value = { AllVersions };

    ghost view = { λ b. record { slots = b.slots; runs = b.runs.items; chains = b.chains.items; room = b.room } };

    ghost invariant = { λ b. (vec_len b.runs + b.room ≤ vec_capacity b.runs) × (vec_len b.runs + b.room ≤ 2 ^ 31 - 1) };
}

impl VersionTable {
    /// No versions of any row. It takes no memory.
    pub fn new(alloc: Global) -> VersionTable
        ensures { result ≡ seen.no_versions }
    {
        VersionTable {
            alloc,
            slots: Cells::new(alloc),
            runs: Vec::new(alloc),
            room: 0,
            chains: Vec::new(alloc),
        }
    }

    /// Makes the changes of these pieces ready to be put in, in order, and makes room for them.
    ///
    /// Rows that are put together at row numbers that have no version stay together, and are shared; those that are put a few values
    /// at a time at row numbers in a row are copied into one block. It costs one look-up for each row number below those that were
    /// ever used, and for each other change; and the chains that are new. After an error some room may be there.
    pub fn reserve(&mut self, pieces: &[Changes]) -> Result<Vec<Ready>, NoMemory>
        ensures same { SameVersions self.old self.new }
        ensures ready { IfOk result (λ ready. IsReadyFor self.new ready.items (all_changes pieces.now)) }
    {
        let joined = joined(self.alloc, pieces)?;
        let ready = self.reserve_pieces(joined.as_slice())?;
        Ok(ready)
    }

    /// The same, piece by piece.
    fn reserve_pieces(&mut self, pieces: &[Changes]) -> Result<Vec<Ready>, NoMemory>
        ensures same { SameVersions self.old self.new }
        ensures ready { IfOk result (λ ready. IsReadyFor self.new ready.items (all_changes pieces.now)) }
    {
        let mut ready = Vec::with_capacity(self.alloc, pieces.len())?;
        for piece in pieces {
            self.reserve_piece(&mut ready, piece)?;
        }
        self.reserve_runs(ready.len())?;
        Ok(ready)
    }

    /// Puts the changes of the commit with this SCN in: each row that they touch has one version more, with what the last
    /// change to it left. It takes no memory.
    pub fn apply(&mut self, scn: u64, ready: Vec<Ready>)
        requires room { HasRoom self.old ready.items }
        requires later { IsBefore self.old scn }
        ensures { Applied self.old self.new scn (ready_changes ready.items) }
    {
        let mut left = ready;
        while let Some(last) = left.pop() {
            match last {
                Ready::Run { table, first, rows } => {
                    self.put_run(Run::of_rows(table, first, scn, rows));
                }
                Ready::One(change) => self.put(scn, change),
            }
        }
    }

    /// The values of the row of a row number at an SCN, or none where there was none. It is at most one step.
    pub fn at<L: Ledger>(
        &self,
        table: u32,
        rid: u64,
        scn: u64,
        steps: &mut Steps<L>,
    ) -> Option<&[Value]>
        ensures row { option_copied result ≡ row_at (versions_at self.now table rid) scn }
        ensures few { steps.new ≤ steps.old + 1 }
    {
        match self.slot(table, rid) {
            Slot::Empty => None,
            Slot::InRun(number) => {
                steps.tick();
                runs::values_at(self.run(number, table, rid), rid, scn)
            }
            Slot::InChain(number) => chains::values_at(
                self.touched(number, table, rid),
                scn,
                steps,
            ),
        }
    }

    /// The SCN of the newest version of a row, 0 where it has none.
    pub fn latest(&self, table: u32, rid: u64) -> u64
        ensures { result ≡ newest_scn (versions_at self.now table rid) }
    {
        match self.slot(table, rid) {
            Slot::Empty => 0,
            Slot::InRun(number) => runs::newest(self.run(number, table, rid)),
            Slot::InChain(number) => chains::newest(self.touched(number, table, rid)),
        }
    }

    /// The values of the row that the newest version of a row number left, or none where it left none.
    pub fn newest(&self, table: u32, rid: u64) -> Option<&[Value]>
        ensures { option_copied result ≡ newest_row (versions_at self.now table rid) }
    {
        match self.slot(table, rid) {
            Slot::Empty => None,
            Slot::InRun(number) => runs::newest_values(self.run(number, table, rid), rid),
            Slot::InChain(number) => chains::newest_values(self.touched(number, table, rid)),
        }
    }

    /// How many row numbers of a table have a slot: those behind have no version.
    pub fn count(&self, table: u32) -> u64 {
        self.slots.count(table)
    }

    /// Where the versions of a row number are kept.
    fn slot(&self, table: u32, rid: u64) -> Slot
        ensures { result ≡ seen.slot_at self.now table rid }
    {
        match self.slots.get(table, rid) {
            Some(packed) => packed.slot(),
            None => Slot::Empty,
        }
    }

    /// The run of a number, if it holds the row number.
    fn run(&self, number: u32, table: u32, rid: u64) -> Option<&Run>
        ensures { option_copied result ≡ seen.run_at self.now.runs number table rid }
    {
        runs::at(&self.runs, number, table, rid)
    }

    /// The chain of a number, if it is that of the row number.
    fn touched(&self, number: u32, table: u32, rid: u64) -> Option<&Touched>
        ensures { option_copied result ≡ seen.chain_at self.now.chains number table rid }
    {
        chains::at(&self.chains, number, table, rid)
    }

    /// Whether the chain of a number is that of the row number.
    fn has_chain(&self, number: u32, table: u32, rid: u64) -> bool
        ensures { result ≡ is_some (seen.chain_at self.now.chains number table rid) }
    {
        self.touched(number, table, rid).is_some()
    }

    /// Makes room for so many runs, unless there is as much.
    fn reserve_runs(&mut self, count: usize) -> Result<(), NoMemory>
        ensures same { SameVersions self.old self.new }
        ensures room { OnOk result (count ≤ self.new.room) }
    {
        if count <= self.room {
            return Ok(());
        }
        if count > MOST || self.runs.len() > MOST - count {
            return Err(NoMemory);
        }
        self.runs.reserve(count)?;
        self.room = count;
        Ok(())
    }

    /// Makes the changes of a piece ready, behind others.
    fn reserve_piece(&mut self, ready: &mut Vec<Ready>, piece: &Changes) -> Result<(), NoMemory>
        requires { All (HasPlace self.old) ready.old.items }
        ensures same { SameVersions self.old self.new }
        ensures more { OnOk result (AreReady self.new ready.old.items ready.new.items piece.now) }
    {
        match piece.as_put() {
            Some(put) => self.reserve_put(ready, piece, put),
            None => self.reserve_each(ready, piece),
        }
    }

    /// Makes the changes of a piece that puts rows ready.
    fn reserve_put(
        &mut self,
        ready: &mut Vec<Ready>,
        piece: &Changes,
        put: LentPut,
    ) -> Result<(), NoMemory>
        requires each { All (HasPlace self.old) ready.old.items }
        requires put { piece.now ≡ put_from put.table put.first put.rows.now }
        requires numbers { put.first + length put.rows.now ≤ 2 ^ 63 }
        ensures same { SameVersions self.old self.new }
        ensures more { OnOk result (AreReady self.new ready.old.items ready.new.items piece.now) }
    {
        if put.rows.is_empty() {
            return Ok(());
        }
        if !self.is_free(put.table, put.first, put.rows.len() as u64) {
            return self.reserve_each(ready, piece);
        }
        self.reserve_run(ready, put.table, put.first, put.rows)
    }

    /// Makes rows at row numbers that have no version ready.
    fn reserve_run(
        &mut self,
        ready: &mut Vec<Ready>,
        table: u32,
        first: u64,
        rows: &Rows,
    ) -> Result<(), NoMemory>
        requires each { All (HasPlace self.old) ready.old.items }
        requires some { 0 < length rows.now }
        requires numbers { first + length rows.now ≤ 2 ^ 63 }
        requires free { IsFree self.old table first (length rows.now) }
        ensures same { SameVersions self.old self.new }
        ensures more { OnOk result (AreReady self.new ready.old.items ready.new.items (put_from table first rows.now)) }
    {
        self.slots.reserve(table, first + (rows.len() as u64 - 1))?;
        let rows = rows.share()?;
        ready.push(Ready::Run { table, first, rows })?;
        Ok(())
    }

    /// Makes the changes of a piece ready one by one.
    fn reserve_each(&mut self, ready: &mut Vec<Ready>, piece: &Changes) -> Result<(), NoMemory>
        requires { All (HasPlace self.old) ready.old.items }
        ensures same { SameVersions self.old self.new }
        ensures more { OnOk result (AreReady self.new ready.old.items ready.new.items piece.now) }
    {
        for place in 0..piece.len() {
            let change = piece.change(self.alloc, place)?;
            self.reserve_one(ready, change)?;
        }
        Ok(())
    }

    /// Makes a change ready, behind others.
    fn reserve_one(&mut self, ready: &mut Vec<Ready>, change: Change) -> Result<(), NoMemory>
        requires { All (HasPlace self.old) ready.old.items }
        ensures same { SameVersions self.old self.new }
        ensures more { OnOk result (AreReady self.new ready.old.items ready.new.items (change ∷ [])) }
    {
        self.reserve_row(change.table, change.rid, change.row.is_some())?;
        ready.push(Ready::One(change))?;
        Ok(())
    }

    /// Whether so many row numbers from the first on have no version. It costs a look at each that has a slot.
    fn is_free(&self, table: u32, first: u64, count: u64) -> bool
        requires { first + count ≤ 2 ^ 63 }
        ensures { result ≡ true → IsFree self.now table first count }
    {
        if self.slots.count(table) <= first {
            return true;
        }
        for rid in first..first + count {
            if !self.has_none(table, rid) {
                return false;
            }
        }
        true
    }

    /// Whether a row number has no version.
    fn has_none(&self, table: u32, rid: u64) -> bool
        ensures { result ≡ true → versions_at self.now table rid ≡ [] }
    {
        match self.slot(table, rid) {
            Slot::Empty => true,
            Slot::InRun(number) => self.run(number, table, rid).is_none(),
            Slot::InChain(number) => chains::are_empty(self.touched(number, table, rid)),
        }
    }

    /// Makes a row number ready to take a row, if one is put, or that there is none then.
    fn reserve_row(&mut self, table: u32, rid: u64, put: bool) -> Result<(), NoMemory>
        ensures same { SameVersions self.old self.new }
        ensures room { OnOk result (IsReady self.new table rid put) }
    {
        self.slots.reserve(table, rid)?;
        self.make_ready(table, rid, put)
    }

    /// Makes a row number that has a slot ready.
    fn make_ready(&mut self, table: u32, rid: u64, put: bool) -> Result<(), NoMemory>
        requires { HasCell self.old.slots table rid }
        ensures same { SameVersions self.old self.new }
        ensures room { OnOk result (IsReady self.new table rid put) }
    {
        match self.slot(table, rid) {
            Slot::Empty if put => Ok(()),
            Slot::Empty => self.put_chain(table, rid, Chain::new(self.alloc)),
            Slot::InRun(number) => {
                let chain = runs::chain_of(self.alloc, self.run(number, table, rid), rid)?;
                self.put_chain(table, rid, chain)
            }
            Slot::InChain(number) => self.make_room(number, table, rid),
        }
    }

    /// Makes room in the chain of a row number.
    fn make_room(&mut self, number: u32, table: u32, rid: u64) -> Result<(), NoMemory>
        requires there { HasCell self.old.slots table rid }
        requires slot { seen.slot_at self.old table rid ≡ slots.InChain number }
        ensures same { SameVersions self.old self.new }
        ensures room { OnOk result (0 < seen.spare_in self.new.chains table rid (seen.slot_at self.new table rid)) }
    {
        if !self.has_chain(number, table, rid) {
            return self.put_chain(table, rid, Chain::new(self.alloc));
        }
        self.chains[number as usize].reserve()
    }

    /// Gives a row number a chain of the versions that it has, with room for one more.
    fn put_chain(&mut self, table: u32, rid: u64, chain: Chain) -> Result<(), NoMemory>
        requires there { HasCell self.old.slots table rid }
        requires chain { chain.versions ≡ versions_at self.old table rid }
        ensures same { SameVersions self.old self.new }
        ensures room { OnOk result (0 < seen.spare_in self.new.chains table rid (seen.slot_at self.new table rid)) }
    {
        let number = chains::push(&mut self.chains, table, rid, chain)?;
        *self.slots.cell_mut(table, rid) = PackedSlot::in_chain(number);
        Ok(())
    }

    /// Puts a change in, unless its row has a version of this commit.
    fn put(&mut self, scn: u64, change: Change)
        requires { MayTake self.old change.table change.rid (is_some change.row) scn }
        ensures { HasTaken self.old self.new change.table change.rid scn change.row }
    {
        let Change { table, rid, row } = change;
        if self.has_taken(table, rid, scn) {
            return;
        }
        match self.slot(table, rid) {
            Slot::InChain(number) => self.chains[number as usize].take(scn, row),
            _ => self.put_run(Run::of_row(table, rid, scn, row.unwrap())),
        }
    }

    /// Whether a row number has a version of the commit with this SCN already.
    fn has_taken(&self, table: u32, rid: u64, scn: u64) -> bool
        ensures { result ≡ (newest_scn (versions_at self.now table rid) == scn) }
    {
        self.latest(table, rid) == scn
    }

    /// Puts a run in: its row numbers are read from it, all but those that have a version of its commit.
    fn put_run(&mut self, run: Run)
        requires { MayTakeRun self.old run.table run.first (length (rows_in run.rows)) run.scn }
        ensures { HasTakenRun self.old self.new run.table run.first run.scn (rows_in run.rows) }
    {
        let number = self.runs.len() as u32;
        enter(&mut self.slots, &self.runs, &self.chains, number, &run);
        self.runs.push_reserved(run);
        self.room -= 1;
    }
}
