ghost use Rattle.std.specs.Prelude.{◌≡◌, ◌+◌, ◌^◌, ◌<◌, ◌≤◌, length, OnOk, IfOk};
ghost use Rattle.im_history.specs.Horizon.{least};
ghost use Rattle.im_history.specs.Puts.{all_changes};
ghost use Rattle.im_history.specs.Transactions.{or_here};
ghost use Rattle.im_txn.specs.Activity.{idle, cursor_in, cursors_in, ended, own_in, scns_in, transactions, with_changes, with_cursor, with_mode, without_cursor};
ghost use Rattle.im_txn.specs.Effects.{IsRoomier};
ghost use Rattle.im_txn.specs.Standing.{IsFew};

use crate::cursor::{Cursor, count_beside_own, least_scn, remove_number, with_number};
use crate::lasts::Lasts;
use im_history::{Changes, Mode, OwnChanges};
use im_values::NoMemory;
use std::alloc::Global;
use std::marker::Model;

/// No session has more cursors open.
const MOST_OPEN: u64 = 1 << 32;

/// No session has more changes pending.
const MOST_PENDING: u64 = 1 << 63;

/// What one session has going on.
#[derive(Drop)]
pub struct Session {
    alloc: Global,
    /// What each write wrote, in their order.
    pending: Vec<Changes>,
    /// How many changes are pending.
    count: u64,
    room: u64,
    begun: Option<u64>,
    mode: Mode,
    cursors: Vec<Cursor>,
    cursor_room: u64,
    lasts: Lasts,
}

impl Model for Session {
    ghost use Rattle.std.specs.Prelude.{◌≡◌, ◌+◌, ◌^◌, ◌≤◌, length, vec_len, vec_capacity};
    ghost use Rattle.im_history.specs.Puts.{all_changes};
    ghost use Rattle.im_txn.specs.Activity.{Activity};
    ghost use Rattle.im_txn.specs.inner.Lasts.{AreLasts};

    ghost Value = { Activity };

    ghost view = { λ s. record {
      pending = all_changes s.pending.items;
      begun = s.begun;
      mode = s.mode;
      cursors = s.cursors.items;
      room = s.room;
      cursor_room = s.cursor_room;
    } };

    ghost invariant = { λ s. (vec_len s.pending + s.room ≤ vec_capacity s.pending)
        × (vec_len s.cursors + s.cursor_room ≤ vec_capacity s.cursors)
        × (s.count ≡ length (all_changes s.pending.items))
        × (s.count ≤ 2 ^ 63)
        × AreLasts s.lasts.known s.lasts.part s.lasts.tables.items s.pending.items };
}

impl Session {
    /// Nothing is going on. It takes no memory.
    pub fn new(alloc: Global) -> Session
        ensures { result ≡ idle }
    {
        Session {
            alloc,
            pending: Vec::new(alloc),
            count: 0,
            room: 0,
            begun: None,
            mode: Mode::Committed,
            cursors: Vec::new(alloc),
            cursor_room: 0,
            lasts: Lasts::new(alloc),
        }
    }

    /// The pending changes, as each write wrote them, in the order of the writes.
    pub fn pending(&self) -> &[Changes]
        ensures { all_changes result.now ≡ self.now.pending }
    {
        self.pending.as_slice()
    }

    /// How many changes are pending.
    pub fn count(&self) -> u64
        ensures { result ≡ length self.now.pending }
    {
        self.count
    }

    /// The place where the open transaction began, or none where none is open.
    pub fn begun(&self) -> Option<u64>
        ensures { result ≡ self.now.begun }
    {
        self.begun
    }

    /// The mode of the open transaction, READ COMMITTED where none is open.
    pub fn mode(&self) -> Mode
        ensures { result ≡ self.now.mode }
    {
        self.mode
    }

    /// The open cursor of this number.
    pub fn cursor(&self, number: u32) -> Option<Cursor>
        ensures { result ≡ cursor_in self.now number }
    {
        with_number(self.cursors.as_slice(), number)
    }

    /// How many cursors are open beside its statements' own.
    pub fn cursors_open(&self) -> u64
        ensures { result ≡ cursors_in self.now }
    {
        count_beside_own(self.cursors.as_slice())
    }

    /// The least of an SCN and those that the open cursors read at.
    pub fn least_scn(&self, most: u64) -> u64
        ensures { result ≡ least most (scns_in self.now) }
    {
        least_scn(self.cursors.as_slice(), most)
    }

    /// The pending changes to a table. Each pending change is looked at once, however often this is asked.
    pub fn own(&mut self, table: u32) -> Result<OwnChanges, NoMemory>
        ensures same { self.new ≡ self.old }
        ensures own { IfOk result (λ own. own ≡ own_in self.old table) }
    {
        self.lasts.learn(self.alloc, self.pending.as_slice())?;
        let last = self.lasts.of_table(self.alloc, table)?;
        Ok(OwnChanges::of(table, last, &self.pending))
    }

    /// A statement set the mode: a transaction begins at this place where none is open. It answers how many
    /// transactions more are open.
    pub fn begin(&mut self, place: u64, mode: Mode) -> u64
        ensures after { self.new ≡ with_mode place mode self.old }
        ensures more { transactions self.old + result ≡ transactions self.new }
    {
        self.mode = mode;
        self.begin_here(place)
    }

    /// A transaction begins at this place where none is open. It answers how many more are open.
    fn begin_here(&mut self, place: u64) -> u64
        ensures after { self.new ≡ record self.old { begun = or_here place self.old.begun } }
        ensures more { transactions self.old + result ≡ transactions self.new }
    {
        if self.begun.is_some() {
            return 0;
        }
        self.begun = Some(place);
        1
    }

    /// One where a transaction is open.
    pub fn transactions(&self) -> u64
        ensures { result ≡ transactions self.now }
    {
        u64::from(self.begun.is_some())
    }

    /// Makes room for one more cursor. A session that has 2^32 cursors open gets no more.
    pub fn reserve_cursor(&mut self) -> Result<(), NoMemory>
        ensures same { IsRoomier self.old self.new }
        ensures few { IsFew self.old → IsFew self.new }
        ensures ok { OnOk result (0 < self.new.cursor_room) }
    {
        if self.cursor_room > 0 {
            return Ok(());
        }
        if self.cursors.len() as u64 >= MOST_OPEN {
            return Err(NoMemory);
        }
        self.cursors.reserve(1)?;
        self.cursor_room = 1;
        Ok(())
    }

    /// Opens a cursor. It takes no memory.
    pub fn open_cursor(&mut self, cursor: Cursor)
        requires { 0 < self.old.cursor_room }
        ensures { self.new ≡ with_cursor cursor self.old }
    {
        self.cursor_room -= 1;
        self.cursors.push(cursor).unwrap();
    }

    /// Shuts a cursor, and keeps the order of the others. It answers how many fewer are open.
    pub fn shut(&mut self, number: u32) -> u64
        ensures after { self.new ≡ without_cursor number self.old }
        ensures fewer { length self.new.cursors + result ≡ length self.old.cursors }
    {
        let before = self.cursors.len();
        remove_number(&mut self.cursors, number);
        (before - self.cursors.len()) as u64
    }

    /// Makes room for the changes of one write more, so many. A session that would have more than 2^63 changes pending gets
    /// none.
    pub fn reserve_write(&mut self, changes: usize) -> Result<(), NoMemory>
        ensures same { IsRoomier self.old self.new }
        ensures few { IsFew self.old → IsFew self.new }
        ensures ok { OnOk result (0 < self.new.room) }
        ensures fits { OnOk result (length self.old.pending + changes ≤ 2 ^ 63) }
    {
        if changes as u64 > MOST_PENDING - self.count {
            return Err(NoMemory);
        }
        if self.room > 0 {
            return Ok(());
        }
        self.pending.reserve(1)?;
        self.room = 1;
        Ok(())
    }

    /// Adds the changes of a write to the pending ones; a transaction begins at this place where none is open. It answers how
    /// many transactions more are open, and takes no memory.
    pub fn write(&mut self, place: u64, changes: Changes) -> u64
        requires room { 0 < self.old.room }
        requires fits { length self.old.pending + length changes ≤ 2 ^ 63 }
        ensures after { self.new ≡ with_changes place changes self.old }
        ensures more { transactions self.old + result ≡ transactions self.new }
    {
        self.room -= 1;
        self.count += changes.len() as u64;
        self.pending.push(changes).unwrap();
        self.begin_here(place)
    }

    /// Ends the open transaction, and hands its pending changes out, as each write wrote them. It takes no memory.
    pub fn end(&mut self) -> Vec<Changes>
        ensures after { self.new ≡ ended self.old }
        ensures handed { all_changes result.items ≡ self.old.pending }
    {
        self.begun = None;
        self.mode = Mode::Committed;
        self.room = 0;
        self.count = 0;
        self.lasts = Lasts::new(self.alloc);
        std::mem::replace(&mut self.pending, Vec::new(self.alloc))
    }
}
