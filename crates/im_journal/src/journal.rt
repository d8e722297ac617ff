ghost use Rattle.std.specs.Prelude.{◌≡◌, ◌-◌, ◌<◌, ◌≤◌, [], IfOk, OnOk, OnErr, length, max};
ghost use Rattle.std.specs.Option.{ForSome};
ghost use Rattle.im_journal.specs.Stale.{last_scn, noted, stale_rows, stale_rows_at};

use crate::rising::{gather, in_order, reserve};
use im_values::NoMemory;
use indexmap::IndexMap;
use std::alloc::Global;
use std::marker::Model;

/// The rows that commits have touched, each with the SCN of the first commit that did.
///
/// Contracts see these first notes and the spare room, the number of calls of [`Journal::note`] that can be made without
/// taking memory.
///
/// The row numbers of the first notes stand in rising order too, all but those of a few last ones.
#[derive(Drop)]
pub struct Journal {
    first: IndexMap<u64, u64>,
    rising: Vec<u64>,
    spare: u64,
}

impl Model for Journal {
    ghost use Rattle.std.specs.Prelude.{◌+◌, ◌≤◌, length, vec_capacity};
    ghost use Rattle.std.specs.List.Sorted.{IsNonDecreasingBy};
    ghost use Rattle.indexmap.specs.IndexMap.{spare as room_in};
    ghost use Rattle.im_journal.specs.Stale.{Notes, rows_of};
    ghost use Rattle.im_journal.specs.inner.Gathered.{AreGathered};

    ghost Value = { Notes };

    ghost view = { λ j. record { notes = j.first.entries; spare = j.spare } };

    ghost invariant = { λ j. (j.spare ≤ room_in j.first) × (IsNonDecreasingBy (λ note. note.1) j.first.entries
        × ((length j.first.entries + j.spare ≤ vec_capacity j.rising) × AreGathered (rows_of j.first.entries) j.rising.items)) };
}

impl Journal {
    /// A journal without notes and without spare room. It takes no memory.
    pub fn new(alloc: Global) -> Journal
        ensures { result ≡ record { notes = []; spare = 0 } }
    {
        Journal {
            first: IndexMap::new(alloc),
            rising: Vec::new(alloc),
            spare: 0,
        }
    }

    /// Makes room for so many notes, unless there is as much.
    pub fn reserve(&mut self, room: u64) -> Result<(), NoMemory>
        ensures ok { OnOk result (self.new ≡ record self.old { spare = max self.old.spare room }) }
        ensures err { OnErr result (self.new ≡ self.old) }
    {
        if room <= self.spare {
            return Ok(());
        }
        reserve(&mut self.rising, self.first.len(), room)?;
        self.first.reserve(room as usize)?;
        self.spare = room;
        Ok(())
    }

    /// Notes that the commit with this SCN touched a row. It takes no memory.
    ///
    /// Only the first note of a row number is kept, since later ones change no answer.
    pub fn note(&mut self, row: u64, scn: u64)
        requires room { 0 < self.old.spare }
        requires later { ForSome (last_scn self.old.notes) (λ last. last ≤ scn) }
        ensures notes { self.new.notes ≡ noted self.old.notes (row, scn) }
        ensures spare { self.new.spare ≡ self.old.spare - 1 }
    {
        self.spare -= 1;
        if !self.first.contains_key(&row) {
            self.first.insert(row, scn).unwrap();
            gather(&mut self.rising, self.first.keys().as_slice());
        }
    }

    /// The row numbers noted at or below an SCN, each once, rising.
    ///
    /// It costs what it answers: a copy, and a sort of the few last notes alone; at an SCN below that of most notes a sort of
    /// what it answers.
    pub fn stale_at(&self, alloc: Global, scn: u64) -> Result<Vec<u64>, NoMemory>
        ensures { IfOk result (λ rows. rows.items ≡ stale_rows_at self.now.notes scn) }
    {
        let count = self
            .first
            .values()
            .as_slice()
            .partition_point(|first| *first <= scn);
        let rows = &self.first.keys().as_slice()[..count];
        in_order(alloc, rows, self.rising.as_slice())
    }

    /// How many row numbers were noted, each counted once. It takes constant time.
    pub fn stale_count(&self) -> u64
        ensures { result ≡ length (stale_rows self.now.notes) }
    {
        self.first.len() as u64
    }
}
