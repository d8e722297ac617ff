ghost use Rattle.std.specs.Prelude.{◌≡◌, ◌+◌, ◌<◌, ◌≤◌, length, true, false, IsTrue, Some, None, IfOk, IfErr};
ghost use Rattle.std.specs.Option.{option_or};
ghost use Rattle.im_values.specs.Fits.{may_stand};
ghost use Rattle.im_history.specs.declared.entry.What.TheVariants as what;
ghost use Rattle.im_history.specs.Area.{used};
ghost use Rattle.im_history.specs.Commits.{scn, writes_of};
ghost use Rattle.im_history.specs.Cursors.{is_cursor_open};
ghost use Rattle.im_history.specs.History.{behind};
ghost use Rattle.im_history.specs.Horizon.{horizon, kept};
ghost use Rattle.im_history.specs.Legal.{Exists, IsLawful, MayLeave, MaySetMemory, MayWrite, put_from};
ghost use Rattle.im_history.specs.Queue.{credits};
ghost use Rattle.im_history.specs.Refusals.{add_refusal, altered, begin_refusal, create_refusal, insert_refusal, open_refusal, write_refusal};
ghost use Rattle.im_history.specs.Tables.{tables, given};
ghost use Rattle.im_history.specs.Transactions.{is_open};
ghost use Rattle.im_history.specs.Views.{look_at, view_at};
ghost use Rattle.im_core.specs.Answers.{IsRefusal, MayPut, content_in, cursor_view, evict_refusal};
ghost use Rattle.im_core.specs.Tasks.{task_fetched, task_lent};
ghost use Rattle.im_history.specs.Serving.{fetched_in, read_in, serving_content};
ghost use Rattle.im_history.specs.Units.{IsOwn, task_content, unit_content};
ghost use Rattle.im_reach.specs.Sides.{Added, Found, IsSwitched, Known, Missed, Offered, Sends, sole, speaks};

use im_core::{
    AddedColumn, Begun, Committed, Evicted, Made, Offer, Pin, Purged, Sent, Switched, Wrote,
};
use im_history::{Change, Look, Mode, Opening, Priority, Refused, Shape, Task, UnitLike, View};
use im_values::limits::{MOST_ROWS, NUMBERS};
use im_values::{Column, Name, Rows, Schema, Steps, Value};
use std::sync::ledger::Ledger;
use std::sync::{Arc, Wait};

/// The calls of a store, over column units of the type `U`, as one side of it makes them.
///
/// Each call may wait for its turn. `who` is the number of the session, worker or background that calls: one that this side
/// speaks for. A refusal changes nothing. After each call the limits are small and the history is legal, others' entries
/// included.
pub trait Reach<U: UnitLike> {
    /// What this side knows of the store.
    ghost known: { Self → Known };

    /// Shows that the history of a store that nobody else has is legal, also before any call. That is a fact for contracts alone:
    /// it does nothing when it runs, and makes no turn.
    fn lawful(&self)
        ensures { (known self.now).side ≡ sole → IsLawful (known self.now).limits (known self.now).log };

    /// What a session finds: the place, the SCN, its transaction, and the tables.
    fn look<R: Wait>(&mut self, rt: &R, who: u32) -> Result<Look, Refused>
        requires session { who < NUMBERS }
        requires speaks { speaks (known self.old).side who ≡ true }
        ensures ok { IfOk result (λ look. Found (known self.old) (known self.new) (λ at. look ≡ look_at at who)) }
        ensures err { IfErr result (λ why. Found (known self.old) (known self.new) (λ at. IsRefusal at None why)) }
        ensures lawful { IsLawful (known self.new).limits (known self.new).log };

    /// Creates a table. It is refused where a table has the name, and then where there are [`MOST_TABLES`] tables.
    ///
    /// [`MOST_TABLES`]: im_values::limits::MOST_TABLES
    fn create<R: Wait>(
        &mut self,
        rt: &R,
        who: u32,
        name: Name,
        schema: Schema,
        shape: Shape,
    ) -> Result<Made, Refused>
        requires session { who < NUMBERS }
        requires speaks { speaks (known self.old).side who ≡ true }
        requires idle { is_open (known self.old).log who ≡ false }
        ensures ok { IfOk result (λ made. Added (known self.old) (known self.new) who (λ at. what.Create name schema shape) (λ at.
            (create_refusal at name ≡ None)
            × (made ≡ record { place = length at; table = length (tables at) + 1; scn = scn at + 1 }))) }
        ensures err { IfErr result (λ why. Found (known self.old) (known self.new) (λ at.
            IsRefusal at (create_refusal at name) why)) }
        ensures lawful { IsLawful (known self.new).limits (known self.new).log };

    /// Adds a column to a table behind those that it has, and its default. It is refused where a column of the table has the name, and
    /// then where the table has [`MOST_COLUMNS`](im_values::limits::MOST_COLUMNS) columns.
    fn add_column<R: Wait>(
        &mut self,
        rt: &R,
        who: u32,
        table: u32,
        column: Column,
        default: Value,
    ) -> Result<AddedColumn, Refused>
        requires session { who < NUMBERS }
        requires speaks { speaks (known self.old).side who ≡ true }
        requires exists { Exists (known self.old).log table }
        requires idle { is_open (known self.old).log who ≡ false }
        requires fits { IsTrue (may_stand column.kind default) }
        ensures ok { IfOk result (λ added. Added (known self.old) (known self.new) who (λ at. what.Add table column default) (λ at.
            (add_refusal at table column.name ≡ None) × (added ≡ record { place = length at; scn = scn at + 1 }))) }
        ensures err { IfErr result (λ why. Found (known self.old) (known self.new) (λ at.
            IsRefusal at (add_refusal at table column.name) why)) }
        ensures lawful { IsLawful (known self.new).limits (known self.new).log };

    /// Begins a transaction of a mode. It is refused where one is open.
    fn begin<R: Wait>(&mut self, rt: &R, who: u32, mode: Mode) -> Result<Begun, Refused>
        requires session { who < NUMBERS }
        requires speaks { speaks (known self.old).side who ≡ true }
        ensures ok { IfOk result (λ begun. Added (known self.old) (known self.new) who (λ at. what.Begin mode) (λ at.
            (begin_refusal at who ≡ None) × (begun ≡ record { place = length at; scn = scn at }))) }
        ensures err { IfErr result (λ why. Found (known self.old) (known self.new) (λ at.
            IsRefusal at (begin_refusal at who) why)) }
        ensures lawful { IsLawful (known self.new).limits (known self.new).log };

    /// Commits what a session has pending.
    fn commit<R: Wait>(&mut self, rt: &R, who: u32) -> Result<Committed, Refused>
        requires session { who < NUMBERS }
        requires speaks { speaks (known self.old).side who ≡ true }
        ensures ok { IfOk result (λ done. Added (known self.old) (known self.new) who (λ at. what.Commit) (λ at.
            done ≡ record { place = length at; scn = scn at + 1 })) }
        ensures err { IfErr result (λ why. Found (known self.old) (known self.new) (λ at. IsRefusal at None why)) }
        ensures lawful { IsLawful (known self.new).limits (known self.new).log };

    /// Rolls back what a session has pending, and answers the place of the entry. It takes no memory.
    fn rollback<R: Wait>(&mut self, rt: &R, who: u32) -> u64
        requires session { who < NUMBERS }
        requires speaks { speaks (known self.old).side who ≡ true }
        requires transaction { is_open (known self.old).log who ≡ true }
        ensures added { Added (known self.old) (known self.new) who (λ at. what.Rollback) (λ at. result ≡ length at) }
        ensures lawful { IsLawful (known self.new).limits (known self.new).log };

    /// Opens a cursor on a table: what it sees is fixed here. It reads at the SCN that is asked for, and then without what the session
    /// has pending, or else at the session's snapshot. It is refused where the table has got columns since the caller saw it; then where
    /// this cursor is open; then where [`MOST_CURSORS`](im_values::limits::MOST_CURSORS) are open beside its statements' own; then where
    /// the SCN that is asked for was not reached; and then where it lies below the horizon.
    fn open_cursor<R: Wait>(
        &mut self,
        rt: &R,
        who: u32,
        cursor: u32,
        opening: Opening,
        asked: Option<u64>,
    ) -> Result<View, Refused>
        requires session { who < NUMBERS }
        requires speaks { speaks (known self.old).side who ≡ true }
        requires exists { Exists (known self.old).log opening.table }
        ensures ok { IfOk result (λ view. Added (known self.old) (known self.new) who (λ at. what.Open cursor opening.table asked) (λ at.
            (altered at opening.table opening.columns ≡ None)
            × (open_refusal at who cursor asked ≡ None)
            × (view ≡ view_at at who opening.table asked))) }
        ensures few { IfOk result (λ view. view.rows ≤ MOST_ROWS) }
        ensures some { IfOk result (λ view. 1 ≤ view.per) }
        ensures err { IfErr result (λ why. Found (known self.old) (known self.new) (λ at.
            IsRefusal at (option_or (altered at opening.table opening.columns) (open_refusal at who cursor asked)) why)) }
        ensures lawful { IsLawful (known self.new).limits (known self.new).log };

    /// Reads what a scan needs of an extent: its current column unit, unless that is newer than the cursor's SCN, and the
    /// rows that commits touched since the unit's SCN; without such a unit all rows. Each is the row committed at the
    /// cursor's SCN.
    ///
    /// Each row that is read is one step at most, also where memory is out.
    fn pin<R: Wait, L: Ledger>(
        &mut self,
        rt: &R,
        who: u32,
        cursor: u32,
        extent: u64,
        steps: &mut Steps<L>,
    ) -> Result<Pin<U>, Refused>
        requires session { who < NUMBERS }
        requires speaks { speaks (known self.old).side who ≡ true }
        requires within { extent < (cursor_view (known self.old).log who cursor).extents }
        ensures ok { IfOk result (λ pin. Found (known self.old) (known self.new) (λ at.
            (pin.place ≡ length at)
            × (content_in U.content pin.unit ≡ serving_content at (cursor_view at who cursor) extent)
            × (pin.fetched ≡ fetched_in at (cursor_view at who cursor) extent)
            × (steps.new ≤ steps.old + length (read_in at (cursor_view at who cursor) extent)))) }
        ensures err { IfErr result (λ why. Found (known self.old) (known self.new) (λ at.
            IsRefusal at None why
            × (steps.new ≤ steps.old + length (read_in at (cursor_view at who cursor) extent)))) }
        ensures lawful { IsLawful (known self.new).limits (known self.new).log };

    /// Shuts a cursor, and answers the place of the entry. It takes no memory.
    fn shut<R: Wait>(&mut self, rt: &R, who: u32, cursor: u32) -> u64
        requires session { who < NUMBERS }
        requires speaks { speaks (known self.old).side who ≡ true }
        requires cursor { is_cursor_open (known self.old).log who cursor ≡ true }
        ensures added { Added (known self.old) (known self.new) who (λ at. what.Shut cursor) (λ at. result ≡ length at) }
        ensures lawful { IsLawful (known self.new).limits (known self.new).log };

    /// Inserts rows into a table, at its next row numbers. It is refused where the table has got columns since the caller saw it, then
    /// where the transaction is READ ONLY, then where it would have too many changes, and then where the store would be too full.
    fn insert<R: Wait>(
        &mut self,
        rt: &R,
        who: u32,
        opening: Opening,
        rows: Rows,
    ) -> Result<Wrote, Refused>
        requires session { who < NUMBERS }
        requires speaks { speaks (known self.old).side who ≡ true }
        requires may { MayPut (known self.old).log opening rows }
        ensures ok { IfOk result (λ wrote. Added (known self.old) (known self.new) who
            (λ at. what.Write (put_from opening.table (given at opening.table) rows)) (λ at.
            (altered at opening.table opening.columns ≡ None)
            × (insert_refusal (known self.old).limits at who (put_from opening.table (given at opening.table) rows) ≡ None)
            × (wrote ≡ record { place = length at; first = given at opening.table }))) }
        ensures err { IfErr result (λ why. Found (known self.old) (known self.new) (λ at.
            IsRefusal at (option_or (altered at opening.table opening.columns)
            (insert_refusal (known self.old).limits at who (put_from opening.table (given at opening.table) rows))) why)) }
        ensures lawful { IsLawful (known self.new).limits (known self.new).log };

    /// Writes changes to rows that an open cursor saw, and answers the place of the entry. It is refused where the
    /// transaction is READ ONLY; then where another session has a change to such a row pending; then where a commit after
    /// the cursor's SCN touched such a row; and then as an insert is.
    fn write<R: Wait>(
        &mut self,
        rt: &R,
        who: u32,
        cursor: u32,
        changes: Vec<Change>,
    ) -> Result<u64, Refused>
        requires session { who < NUMBERS }
        requires speaks { speaks (known self.old).side who ≡ true }
        requires may { MayWrite (known self.old).log who cursor changes.items }
        ensures ok { IfOk result (λ place. Added (known self.old) (known self.new) who (λ at. what.Write changes.items) (λ at.
            (write_refusal (known self.old).limits at who (cursor_view at who cursor).scn changes.items ≡ None)
            × (place ≡ length at))) }
        ensures err { IfErr result (λ why. Found (known self.old) (known self.new) (λ at.
            IsRefusal at (write_refusal (known self.old).limits at who (cursor_view at who cursor).scn changes.items) why)) }
        ensures lawful { IsLawful (known self.new).limits (known self.new).log };

    /// Lets a table join the column store with a priority, or leave it where none is given: then the units of its extents
    /// are gone, and its living builds are killed. It answers the place of the entry.
    fn set_memory<R: Wait>(
        &mut self,
        rt: &R,
        who: u32,
        table: u32,
        priority: Option<Priority>,
    ) -> Result<u64, Refused>
        requires session { who < NUMBERS }
        requires speaks { speaks (known self.old).side who ≡ true }
        requires may { MaySetMemory (known self.old).log who table }
        ensures ok { IfOk result (λ place. Added (known self.old) (known self.new) who (λ at. what.Memory table priority)
            (λ at. place ≡ length at)) }
        ensures err { IfErr result (λ why. Found (known self.old) (known self.new) (λ at. IsRefusal at None why)) }
        ensures lawful { IsLawful (known self.new).limits (known self.new).log };

    /// Begins the build that comes next, where there is one.
    fn build<R: Wait>(&mut self, rt: &R, who: u32) -> Result<Offer, Refused>
        requires session { who < NUMBERS }
        requires speaks { speaks (known self.old).side who ≡ true }
        ensures ok { IfOk result (λ offer. Offered (known self.old) (known self.new) who offer) }
        ensures err { IfErr result (λ why. Missed (known self.old) (known self.new) (λ at. IsRefusal at None why)) }
        ensures lawful { IsLawful (known self.new).limits (known self.new).log };

    /// Reads what a build makes its unit of: its extent's current column unit, unless that is newer than the build, and the rows
    /// that commits touched since the unit's SCN; without such a unit all rows that were given when the build began. Each is
    /// the row committed at the build's SCN.
    ///
    /// Each row that is read is one step at most, also where memory is out.
    fn read_task<R: Wait, L: Ledger>(
        &mut self,
        rt: &R,
        who: u32,
        task: &Task,
        steps: &mut Steps<L>,
    ) -> Result<Pin<U>, Refused>
        requires session { who < NUMBERS }
        requires speaks { speaks (known self.old).side who ≡ true }
        requires own { IsOwn (known self.old).log who task.now }
        ensures ok { IfOk result (λ pin. Found (known self.old) (known self.new) (λ at.
            (pin.place ≡ length at)
            × (content_in U.content pin.unit ≡ task_lent at task.now)
            × (pin.fetched ≡ task_fetched at task.now)
            × (steps.new ≤ steps.old + length (task_fetched at task.now)))) }
        ensures err { IfErr result (λ why. Found (known self.old) (known self.new) (λ at.
            IsRefusal at None why × (steps.new ≤ steps.old + length (task_fetched at task.now)))) }
        ensures lawful { IsLawful (known self.new).limits (known self.new).log };

    /// Makes the unit of a finished build current, with the journal of what was touched since the build began, and hands
    /// back the unit that was. A build that was killed is cancelled, and so is one whose unit does not fit into the area
    /// beside all that is there: its extent then waits. It takes no memory.
    fn switch<R: Wait>(&mut self, rt: &R, who: u32, task: Task, unit: Arc<U>) -> Switched<U>
        requires session { who < NUMBERS }
        requires speaks { speaks (known self.old).side who ≡ true }
        requires own { IsOwn (known self.old).log who task }
        requires holds { U.content unit.value ≡ task_content (known self.old).log task }
        ensures switched { IsSwitched U.content (known self.old) (known self.new) who task result }
        ensures lawful { IsLawful (known self.new).limits (known self.new).log };

    /// Cancels a build, and answers the place of the entry. It takes no memory.
    fn cancel<R: Wait>(&mut self, rt: &R, who: u32, task: Task) -> u64
        requires session { who < NUMBERS }
        requires speaks { speaks (known self.old).side who ≡ true }
        requires own { IsOwn (known self.old).log who task }
        ensures added { Added (known self.old) (known self.new) who (λ at. what.Cancel task.id false) (λ at. result ≡ length at) }
        ensures lawful { IsLawful (known self.new).limits (known self.new).log };

    /// Evicts an extent's current unit, which it hands back, and kills its living build. It is refused where there is no
    /// unit.
    fn evict<R: Wait>(
        &mut self,
        rt: &R,
        who: u32,
        table: u32,
        extent: u64,
    ) -> Result<Evicted<U>, Refused>
        requires session { who < NUMBERS }
        requires speaks { speaks (known self.old).side who ≡ true }
        requires exists { Exists (known self.old).log table }
        ensures ok { IfOk result (λ evicted. Added (known self.old) (known self.new) who (λ at. what.Evict table extent) (λ at.
            (evicted.place ≡ length at)
            × (evicted.used ≡ used (behind at who (what.Evict table extent)))
            × (unit_content at table extent ≡ Some (U.content evicted.old.value)))) }
        ensures err { IfErr result (λ why. Found (known self.old) (known self.new) (λ at.
            IsRefusal at (evict_refusal at table extent) why)) }
        ensures lawful { IsLawful (known self.new).limits (known self.new).log };

    /// Gives credits for trickle repopulations, and answers those that are left then.
    fn trickle<R: Wait>(&mut self, rt: &R, who: u32, n: u32) -> Result<u128, Refused>
        requires session { who < NUMBERS }
        requires speaks { speaks (known self.old).side who ≡ true }
        ensures ok { IfOk result (λ left. Added (known self.old) (known self.new) who (λ at. what.Trickle n) (λ at.
            left ≡ credits (behind at who (what.Trickle n)))) }
        ensures err { IfErr result (λ why. Found (known self.old) (known self.new) (λ at. IsRefusal at None why)) }
        ensures lawful { IsLawful (known self.new).limits (known self.new).log };

    /// Lets go of the versions of rows that only SCNs below the least one that somebody may still read at show, and moves the horizon
    /// there. It answers the horizon, and how many versions are kept.
    fn purge<R: Wait>(&mut self, rt: &R, who: u32) -> Result<Purged, Refused>
        requires session { who < NUMBERS }
        requires speaks { speaks (known self.old).side who ≡ true }
        ensures ok { IfOk result (λ purged. Added (known self.old) (known self.new) who (λ at. what.Purge) (λ at.
            purged ≡ record {
              place = length at;
              horizon = horizon (behind at who what.Purge);
              kept = kept (behind at who what.Purge);
            })) }
        ensures err { IfErr result (λ why. Found (known self.old) (known self.new) (λ at. IsRefusal at None why)) }
        ensures lawful { IsLawful (known self.new).limits (known self.new).log };

    /// Ends a session or worker, and answers the place of the entry.
    fn leave<R: Wait>(&mut self, rt: &R, who: u32) -> Result<u64, Refused>
        requires session { who < NUMBERS }
        requires speaks { speaks (known self.old).side who ≡ true }
        requires may { MayLeave (known self.old).log who }
        ensures ok { IfOk result (λ place. Added (known self.old) (known self.new) who (λ at. what.Leave) (λ at.
            place ≡ length at)) }
        ensures err { IfErr result (λ why. Found (known self.old) (known self.new) (λ at. IsRefusal at None why)) }
        ensures lawful { IsLawful (known self.new).limits (known self.new).log };

    /// Commit n, from 1 on, for a second store; where it is not there yet, how many sessions have ended.
    ///
    /// It costs what the commit has written: reading it is a step, and one more for each write, also where memory is out.
    fn member<R: Wait, L: Ledger>(
        &mut self,
        rt: &R,
        who: u32,
        n: u64,
        steps: &mut Steps<L>,
    ) -> Result<Sent, Refused>
        requires session { who < NUMBERS }
        requires speaks { speaks (known self.old).side who ≡ true }
        requires first { 1 ≤ n }
        ensures ok { IfOk result (λ sent. Sends (known self.old) (known self.new) n steps.old steps.new sent) }
        ensures err { IfErr result (λ why. Missed (known self.old) (known self.new) (λ at.
            IsRefusal at None why × (steps.new ≤ steps.old + 1 + writes_of at n))) }
        ensures lawful { IsLawful (known self.new).limits (known self.new).log };
}
