ghost use Rattle.std.specs.Prelude.{◌≡◌, ◌^◌, ◌<◌, length, OnOk, IfOk};
ghost use Rattle.im_history.specs.Horizon.{least};
ghost use Rattle.im_history.specs.Puts.{all_changes};
ghost use Rattle.im_txn.specs.Activity.{cursor_in, cursors_in, own_in, scns_in};
ghost use Rattle.im_txn.specs.Effects.{IsBegun, IsEnded, IsGrown, IsIdle, IsOpened, IsShut, IsWritten};
ghost use Rattle.im_txn.specs.LockCells.{other_in};
ghost use Rattle.im_txn.specs.Standing.{HasRoom, IsFree, activity_at, holder_in};

use crate::cursor::Cursor;
use crate::locks::Locks;
use crate::session::Session;
use im_history::{Changes, Mode, OwnChanges, Who};
use im_values::NoMemory;
use im_values::limits::NUMBERS;
use std::alloc::Global;
use std::marker::Model;

/// What each caller of the store has going on, and which rows it holds.
#[derive(Drop)]
pub struct Sessions {
    sessions: Vec<Session>,
    locks: Locks,
    owed: u64,
}

impl Model for Sessions {
    ghost use Rattle.im_txn.specs.Standing.{Standing, IsCounted};

    ghost Value = { Standing };

    ghost view = { λ s. record { activities = s.sessions.items; locks = s.locks; owed = s.owed } };

    ghost invariant = { λ s. IsCounted (record { activities = s.sessions.items; locks = s.locks; owed = s.owed }) };
}

impl Sessions {
    /// Nothing is going on.
    pub fn new(alloc: Global) -> Result<Sessions, NoMemory>
        ensures { IfOk result (λ sessions. IsIdle sessions) }
    {
        let mut sessions = Vec::new(alloc);
        for _count in 0..NUMBERS {
            sessions.push(Session::new(alloc))?;
        }
        Ok(Sessions {
            sessions,
            locks: Locks::new(alloc),
            owed: 0,
        })
    }

    /// The pending changes of a session, as each write wrote them, in the order of the writes.
    pub fn pending(&self, who: Who) -> &[Changes]
        ensures { all_changes result.now ≡ (activity_at self.now who).pending }
    {
        self.sessions[who.index()].pending()
    }

    /// How many changes a session has pending. It takes constant time.
    pub fn pending_count(&self, who: Who) -> u64
        ensures { result ≡ length (activity_at self.now who).pending }
    {
        self.sessions[who.index()].count()
    }

    /// The place where a session's open transaction began, or none where none is open.
    pub fn begun(&self, who: Who) -> Option<u64>
        ensures { result ≡ (activity_at self.now who).begun }
    {
        self.sessions[who.index()].begun()
    }

    /// The mode of a session's open transaction, READ COMMITTED where none is open.
    pub fn mode(&self, who: Who) -> Mode
        ensures { result ≡ (activity_at self.now who).mode }
    {
        self.sessions[who.index()].mode()
    }

    /// The open cursor of this number of a session.
    pub fn cursor(&self, who: Who, cursor: u32) -> Option<Cursor>
        ensures { result ≡ cursor_in (activity_at self.now who) cursor }
    {
        self.sessions[who.index()].cursor(cursor)
    }

    /// How many cursors a session has open beside its statements' own.
    pub fn cursors_open(&self, who: Who) -> u64
        ensures { result ≡ cursors_in (activity_at self.now who) }
    {
        self.sessions[who.index()].cursors_open()
    }

    /// The least of an SCN and those that a session's open cursors read at: no older row is read through them.
    pub fn least_scn(&self, who: Who, most: u64) -> u64
        ensures { result ≡ least most (scns_in (activity_at self.now who)) }
    {
        self.sessions[who.index()].least_scn(most)
    }

    /// How many entries all sessions together will need without fail: a Rollback for each open transaction, and a Shut
    /// for each open cursor.
    pub fn owed(&self) -> u64
        ensures owed { result ≡ self.now.owed }
        ensures few { result < 2 ^ 62 }
    {
        self.owed
    }

    /// Another session that holds a row: it has a change to the row pending.
    pub fn holder(&self, who: Who, table: u32, rid: u64) -> Option<u32>
        ensures { result ≡ holder_in self.now who table rid }
    {
        other_in(who.number(), self.locks.cell(table, rid))
    }

    /// A session's pending changes to a table. Each pending change is looked at once, however often this is asked.
    pub fn own(&mut self, who: Who, table: u32) -> Result<OwnChanges, NoMemory>
        ensures same { self.new ≡ self.old }
        ensures own { IfOk result (λ own. own ≡ own_in (activity_at self.old who) table) }
    {
        self.sessions[who.index()].own(table)
    }

    /// A session's statement sets the mode at this place of the history: its transaction begins there where none is
    /// open.
    ///
    /// It takes no memory.
    pub fn begin(&mut self, who: Who, place: u64, mode: Mode)
        ensures { IsBegun self.old self.new who place mode }
    {
        let more = self.sessions[who.index()].begin(place, mode);
        self.owed += more;
    }

    /// Makes room for one more cursor of a session.
    pub fn reserve_cursor(&mut self, who: Who) -> Result<(), NoMemory>
        ensures same { IsGrown self.old self.new }
        ensures ok { OnOk result (0 < (activity_at self.new who).cursor_room) }
    {
        self.sessions[who.index()].reserve_cursor()
    }

    /// A session opens a cursor. It takes no memory.
    pub fn open_cursor(&mut self, who: Who, cursor: Cursor)
        requires room { 0 < (activity_at self.old who).cursor_room }
        ensures { IsOpened self.old self.new who cursor }
    {
        self.sessions[who.index()].open_cursor(cursor);
        self.owed += 1;
    }

    /// A session shuts a cursor; the others stay in order. It takes no memory.
    pub fn shut(&mut self, who: Who, cursor: u32)
        ensures { IsShut self.old self.new who cursor }
    {
        let fewer = self.sessions[who.index()].shut(cursor);
        self.owed -= fewer;
    }

    /// Makes room for the changes of one write of a session, and lock cells for their rows. A session that would have more
    /// than 2^63 changes pending gets none.
    pub fn reserve_write(&mut self, who: Who, changes: &Changes) -> Result<(), NoMemory>
        ensures same { IsGrown self.old self.new }
        ensures ok { OnOk result (HasRoom self.new who changes.now) }
    {
        self.sessions[who.index()].reserve_write(changes.len())?;
        self.locks.reserve(changes)
    }

    /// A session writes changes at this place of the history: they are pending, it holds their rows, and its
    /// transaction begins there where none is open.
    ///
    /// It takes no memory.
    pub fn write(&mut self, who: Who, place: u64, changes: Changes)
        requires room { HasRoom self.old who changes }
        requires free { IsFree self.old who changes }
        ensures { IsWritten self.old self.new who place changes }
    {
        let at = who.index();
        self.locks.set_all(&changes, at as u8 + 1);
        let more = self.sessions[at].write(place, changes);
        self.owed += more;
    }

    /// Ends a session's open transaction, by a commit or a rollback: it hands the pending changes out, as each write wrote
    /// them, and their rows are free.
    ///
    /// It takes no memory.
    pub fn clear(&mut self, who: Who) -> Vec<Changes>
        ensures after { IsEnded self.old self.new who }
        ensures handed { all_changes result.items ≡ (activity_at self.old who).pending }
    {
        let at = who.index();
        let fewer = self.sessions[at].transactions();
        let writes = self.sessions[at].end();
        self.owed -= fewer;
        self.locks.free(writes.as_slice());
        writes
    }
}

/// The holder that a lock cell names, if it is another than this session.
fn other_in(who: u32, cell: u8) -> Option<u32>
    ensures { result ≡ other_in who cell }
{
    let cell = u32::from(cell);
    if cell == 0 || cell - 1 == who {
        return None;
    }
    Some(cell - 1)
}
