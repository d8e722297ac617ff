ghost use Rattle.std.specs.Prelude.{◌≡◌, ◌+◌, ◌-◌, ◌^◌, ◌<◌, ◌≤◌, [], ◌∷◌, ◌++◌, false, length, max, All, Some, IfOk, OnOk, OnErr};
ghost use Rattle.im_values.specs.declared.limits.TheConstants.{MOST_TABLES, NUMBERS};
ghost use Rattle.im_history.specs.declared.entry.What.TheVariants as what;
ghost use Rattle.im_history.specs.Commits.{member_at, scn, writes_of};
ghost use Rattle.im_history.specs.Horizon.{horizon, keep, moves_horizon};
ghost use Rattle.im_history.specs.Tables.{last_added};
ghost use Rattle.im_queue.specs.Demand.{IsDemand, IsPaid};

use crate::last_columns::LastColumns;
use im_history::{Entry, History, Member, What};
use im_queue::Demand;
use im_values::{NoMemory, Steps};
use std::alloc::Global;
use std::marker::Model;
use std::sync::ledger::Ledger;

/// The history, and what is counted of it as it grows: credits, who left, which tables were opened, where each got its last
/// column, and the horizon.
///
/// Contracts see the history.
#[derive(Drop)]
pub struct Chronicle {
    history: History,
    demand: Demand,
    columns: LastColumns,
    /// The least SCN that may be asked for.
    horizon: u64,
}

impl Model for Chronicle {
    ghost use Rattle.im_history.specs.Stored.{Stored};

    ghost Value = { Stored };

    ghost use Rattle.std.specs.Prelude.{◌≡◌, ◌^◌, ◌<◌, length};
    ghost use Rattle.im_history.specs.Horizon as horizons;
    ghost use Rattle.im_queue.specs.Demand.{IsDemand};
    ghost use Rattle.im_core.specs.inner.LastColumns.{AreLast};

    ghost view = { λ c. c.history };

    ghost invariant = { λ c. IsDemand c.history.entries c.demand
        × (length c.history.entries < 2 ^ 63)
        × AreLast c.history.entries c.columns
        × (c.horizon ≡ horizons.horizon c.history.entries) };
}

impl Chronicle {
    /// A history without entries and without spare room. It takes no memory.
    pub fn new(alloc: Global) -> Chronicle
        ensures { result ≡ record { entries = []; spare = 0 } }
    {
        Chronicle {
            history: History::new(alloc),
            demand: Demand::new(),
            columns: LastColumns::new(),
            horizon: 0,
        }
    }

    /// Makes room for so many entries, unless there is as much.
    pub fn reserve(&mut self, room: u64) -> Result<(), NoMemory>
        ensures ok { OnOk result (self.new ≡ record self.old { spare = max self.old.spare room }) }
        ensures err { OnErr result (self.new ≡ self.old) }
    {
        self.history.reserve(room)
    }

    /// Adds an entry that is no purge at the end, and counts it. It takes no memory.
    pub fn append(&mut self, entry: Entry)
        requires room { 0 < self.old.spare }
        requires paid { IsPaid self.old.entries entry.what }
        requires still { moves_horizon entry.what ≡ false }
        ensures added { self.new ≡ record { entries = self.old.entries ++ entry ∷ []; spare = self.old.spare - 1 } }
        ensures few { length self.new.entries < 2 ^ 63 }
    {
        let horizon = self.horizon;
        self.add(entry, horizon);
    }

    /// Adds a purge at the end, which moves the horizon to this SCN. It takes no memory.
    pub fn append_purge(&mut self, who: u32, horizon: u64)
        requires room { 0 < self.old.spare }
        requires keeps { horizon ≡ keep self.old.entries }
        ensures added { self.new ≡ record {
          entries = self.old.entries ++ record { who = who; what = what.Purge } ∷ [];
          spare = self.old.spare - 1;
        } }
    {
        let purge = Entry {
            who,
            what: What::Purge,
        };
        self.add(purge, horizon);
    }

    /// Adds an entry at the end, behind which the horizon is this, and counts it.
    fn add(&mut self, entry: Entry, behind: u64)
        requires room { 0 < self.old.spare }
        requires paid { IsPaid self.old.entries entry.what }
        requires horizon { behind ≡ horizon (self.old.entries ++ entry ∷ []) }
        ensures added { self.new ≡ record { entries = self.old.entries ++ entry ∷ []; spare = self.old.spare - 1 } }
        ensures few { length self.new.entries < 2 ^ 63 }
    {
        self.columns.note(self.history.len(), &entry.what);
        self.demand.note(&entry.what);
        self.horizon = behind;
        self.history.append(entry);
    }

    /// The present SCN.
    pub fn scn(&self) -> u64
        ensures scn { result ≡ scn self.now.entries }
        ensures few { result < 2 ^ 63 }
    {
        self.history.scn()
    }

    /// The least SCN that may be asked for.
    pub fn horizon(&self) -> u64
        ensures { result ≡ horizon self.now.entries }
    {
        self.horizon
    }

    /// How many entries there are.
    pub fn len(&self) -> u64
        ensures { result ≡ length self.now.entries }
    {
        self.history.len()
    }

    /// What is counted of it.
    pub fn demand(&self) -> &Demand
        ensures { IsDemand self.now.entries result.now }
    {
        &self.demand
    }

    /// The place of the entry that gave a table its last column, 0 where none did.
    pub fn last_added(&self, table: u32) -> u64
        requires { table ≤ MOST_TABLES }
        ensures { result ≡ last_added self.now.entries table }
    {
        self.columns.of(table)
    }

    /// Commit n, from 1 on. Reading it is a step, and one more for each write of it.
    pub fn member<L: Ledger>(
        &self,
        alloc: Global,
        n: u64,
        steps: &mut Steps<L>,
    ) -> Result<Member, NoMemory>
        requires numbers { All (λ entry. entry.who < NUMBERS) self.now.entries }
        requires first { 1 ≤ n }
        requires last { n ≤ scn self.now.entries }
        ensures member { IfOk result (λ member. member_at self.now.entries n ≡ Some member) }
        ensures steps { steps.new ≤ steps.old + 1 + writes_of self.now.entries n }
    {
        self.history.member(alloc, n, steps)
    }

    /// The history, handed out. It takes no memory.
    pub fn into_history(self) -> History
        ensures { result ≡ self }
    {
        self.history
    }
}
