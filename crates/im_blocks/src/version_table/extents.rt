ghost use Rattle.std.specs.Prelude.{◌≡◌, ℕ, ◌+◌, ◌^◌, ◌<◌, ◌≤◌, length, get_or, IfOk};
ghost use Rattle.im_blocks.specs.Chains as seen;
ghost use Rattle.im_blocks.specs.declared.slot.Slot.TheVariants as slots;
ghost use Rattle.im_blocks.specs.inner.Gathering.{IsWhole};
ghost use Rattle.im_blocks.specs.inner.Reading.{AreRead, EndsIn, IsPartOf};
ghost use Rattle.im_blocks.specs.inner.Seen.{AreSeen};

use crate::gathered::Gathered;
use crate::pages::PAGE;
use crate::runs::{LentRows, rows_seen};
use crate::slot::{PackedSlot, Slot};
use crate::version_table::VersionTable;
use im_values::{NoMemory, Steps};
use std::sync::ledger::Ledger;

/// Up to which row number of a table rows are read, and at which SCN.
#[derive(Clone, Copy)]
pub struct Asked {
    pub table: u32,
    pub end: u64,
    pub scn: u64,
}

impl Asked {
    /// The same up to the end of the page of a row number.
    pub fn in_page(&self, rid: u64) -> Asked
        requires { rid < self.now.end }
        ensures { IsPartOf result self.now rid }
    {
        let end = (rid - rid % PAGE).saturating_add(PAGE);
        Asked {
            table: self.table,
            end: end.min(self.end),
            scn: self.scn,
        }
    }
}

/// The first row number behind these that is not in the run of this number, or their end.
pub fn run_end(cells: &[PackedSlot], number: u32, from: u64, end: u64) -> u64
    requires from { from ≤ end }
    requires within { end ≤ length cells.now }
    ensures from { from ≤ result }
    ensures upto { result ≤ end }
    ensures all { (r : ℕ) → from ≤ r → r < result → get_or cells.now r slots.Empty ≡ slots.InRun number }
{
    for rid in from..end {
        if !cells[rid as usize].is_in(number) {
            return rid;
        }
    }
    end
}

/// Counts so many steps.
pub fn count<L: Ledger>(steps: &mut Steps<L>, many: u64)
    ensures { steps.new ≡ steps.old + many }
{
    for _ in 0..many {
        steps.tick();
    }
}

impl VersionTable {
    /// Reads what is at a row number, and at those behind it that its run has. It answers the next row number.
    pub fn fetch_from<L: Ledger>(
        &self,
        read: &mut Gathered,
        asked: Asked,
        rid: u64,
        steps: &mut Steps<L>,
    ) -> Result<u64, NoMemory>
        requires whole { IsWhole read.old }
        requires before { rid < asked.end }
        ensures next { IfOk result (λ next. AreRead self.now asked rid next read.old read.new) }
        ensures counted { IfOk result (λ next. steps.new + rid ≤ steps.old + next) }
        ensures few { steps.new + rid ≤ steps.old + asked.end }
    {
        match self.slot(asked.table, rid) {
            Slot::InRun(number) => self.fetch_run(read, asked, rid, number, steps),
            Slot::Empty | Slot::InChain(_) => self.fetch_one(read, asked, rid, steps),
        }
    }

    /// Reads what is at a row number alone.
    fn fetch_one<L: Ledger>(
        &self,
        read: &mut Gathered,
        asked: Asked,
        rid: u64,
        steps: &mut Steps<L>,
    ) -> Result<u64, NoMemory>
        requires whole { IsWhole read.old }
        requires before { rid < asked.end }
        ensures next { IfOk result (λ next. AreRead self.now asked rid next read.old read.new) }
        ensures counted { IfOk result (λ next. steps.new + rid ≤ steps.old + next) }
        ensures few { steps.new + rid ≤ steps.old + asked.end }
    {
        read.push(rid, self.at(asked.table, rid, asked.scn, steps))?;
        Ok(rid + 1)
    }

    /// Reads what is at a row number whose slot names a run.
    fn fetch_run<L: Ledger>(
        &self,
        read: &mut Gathered,
        asked: Asked,
        rid: u64,
        number: u32,
        steps: &mut Steps<L>,
    ) -> Result<u64, NoMemory>
        requires whole { IsWhole read.old }
        requires before { rid < asked.end }
        requires slot { seen.slot_at self.now asked.table rid ≡ slots.InRun number }
        ensures next { IfOk result (λ next. AreRead self.now asked rid next read.old read.new) }
        ensures counted { IfOk result (λ next. steps.new + rid ≤ steps.old + next) }
        ensures few { steps.new + rid ≤ steps.old + asked.end }
    {
        match rows_seen(self.run(number, asked.table, rid), asked.scn) {
            Some(lent) => self.fetch_rows(read, asked, rid, number, lent, steps),
            None => self.fetch_one(read, asked, rid, steps),
        }
    }

    /// Reads rows of a run from a row number on, as far as row numbers in a row are in it.
    fn fetch_rows<L: Ledger>(
        &self,
        read: &mut Gathered,
        asked: Asked,
        rid: u64,
        number: u32,
        lent: LentRows,
        steps: &mut Steps<L>,
    ) -> Result<u64, NoMemory>
        requires whole { IsWhole read.old }
        requires before { rid < asked.end }
        requires slot { seen.slot_at self.now asked.table rid ≡ slots.InRun number }
        requires lent { AreSeen (seen.run_at self.now.runs number asked.table rid) lent.first lent.rows.now asked.scn }
        ensures next { IfOk result (λ next. AreRead self.now asked rid next read.old read.new) }
        ensures counted { IfOk result (λ next. steps.new + rid ≤ steps.old + next) }
        ensures few { steps.new + rid ≤ steps.old + asked.end }
    {
        let next = self.end_in(asked, rid, number, lent);
        count(steps, next - rid);
        let from = (rid - lent.first) as usize;
        read.take(rid, lent.rows, from, (next - rid) as usize)?;
        Ok(next)
    }

    /// The row number behind those from this one on that are in the run of this number and are asked for.
    fn end_in(&self, asked: Asked, rid: u64, number: u32, lent: LentRows) -> u64
        requires before { rid < asked.end }
        requires slot { seen.slot_at self.now asked.table rid ≡ slots.InRun number }
        requires lent { AreSeen (seen.run_at self.now.runs number asked.table rid) lent.first lent.rows.now asked.scn }
        ensures { EndsIn self.now asked rid number lent.entry.first (length lent.entry.rows.now) result }
    {
        let cells = self.slots.of_table(asked.table);
        let end = asked.end.min(cells.len() as u64);
        let many = lent.rows.len() as u64 - (rid - lent.first);
        run_end(cells, number, rid + 1, rid + many.min(end - rid))
    }
}
