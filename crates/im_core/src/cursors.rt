ghost use Rattle.std.specs.Prelude.{◌≡◌, ◌+◌, ◌<◌, ◌≤◌, [], length, nat_le, take, true, Some, None, IfOk, IfErr, OnOk, OnErr, if◌then◌else◌};
ghost use Rattle.std.specs.Option.{ForSome, option_map, option_or};
ghost use Rattle.im_history.specs.declared.entry.What.TheVariants as what;
ghost use Rattle.im_history.specs.Cursors.{is_cursor_open};
ghost use Rattle.im_history.specs.Fetched.{all_widened};
ghost use Rattle.im_history.specs.Horizon.{horizon};
ghost use Rattle.im_history.specs.Legal.{Exists};
ghost use Rattle.im_history.specs.Refusals.{altered, open_refusal};
ghost use Rattle.im_history.specs.Rows.{snapshot};
ghost use Rattle.im_history.specs.Serving.{committed_in, fetched_in, not_newer, read_in, rows_in, serving_content};
ghost use Rattle.im_history.specs.Tables.{table_at};
ghost use Rattle.im_history.specs.Units.{content_at, unit};
ghost use Rattle.im_history.specs.Views.{defaults_of, reads_at, shows_own, view_at};
ghost use Rattle.im_core.specs.Answers.{IsRefusal, content_in, cursor_view};
ghost use Rattle.im_core.specs.inner.Kept.{beginning_at};
ghost use Rattle.im_core.specs.inner.Lending.{stale_in};
ghost use Rattle.im_core.specs.Seen.{Adds};

use crate::answers::{Pin, Written};
use crate::store::{Core, owed};
use im_history::{
    Entry, Fetched, LastRows, Mode, Opening, OwnChanges, Refused, ShownRows, UnitLike, View, What,
    Who, Why,
};
use im_txn::Cursor;
use im_values::limits::{MOST_ROWS, NUMBERS};
use im_values::{NoMemory, Steps, clone_row};
use std::alloc::Global;
use std::sync::Arc;
use std::sync::ledger::Ledger;

impl<U: UnitLike> Core<U> {
    /// Opens a cursor on a table: what it sees is fixed here. Where it asks for an SCN it reads there, and shows none of the session's own
    /// changes.
    ///
    /// It is refused where the table has got columns since the caller saw it, then where this cursor is open, then where
    /// [`MOST_CURSORS`](im_values::limits::MOST_CURSORS) are open beside its statements' own, then where the SCN that it asks for was not
    /// reached, and then where that is below the horizon.
    pub fn open_cursor(
        &mut self,
        who: u32,
        cursor: u32,
        opening: Opening,
        asked: Option<u64>,
    ) -> Result<View, Refused>
        requires session { who < NUMBERS }
        requires exists { Exists self.old.log opening.table }
        ensures ok { OnOk result (Adds self.old who (what.Open cursor opening.table asked) self.new) }
        ensures seen { OnOk result (altered self.old.log opening.table opening.columns ≡ None) }
        ensures allowed { OnOk result (open_refusal self.old.log who cursor asked ≡ None) }
        ensures view { IfOk result (λ view. view ≡ view_at self.old.log who opening.table asked) }
        ensures few { IfOk result (λ view. view.rows ≤ MOST_ROWS) }
        ensures some { IfOk result (λ view. 1 ≤ view.per) }
        ensures err { OnErr result (self.new ≡ self.old) }
        ensures refused { IfErr result (λ why. IsRefusal self.old.log
            (option_or (altered self.old.log opening.table opening.columns) (open_refusal self.old.log who cursor asked)) why) }
    {
        let caller = Who::of(who);
        if let Some(why) = self.altered(opening) {
            return Err(self.refused(why));
        }
        if let Some(why) = self.open_refusal(caller, cursor, asked) {
            return Err(self.refused(why));
        }
        match self.record_open(caller, cursor, opening.table, asked) {
            Ok(view) => Ok(view),
            Err(NoMemory) => Err(self.refused(Why::NoMemory)),
        }
    }

    fn record_open(
        &mut self,
        who: Who,
        cursor: u32,
        table: u32,
        asked: Option<u64>,
    ) -> Result<View, NoMemory>
        requires exists { Exists self.old.log table }
        requires allowed { open_refusal self.old.log who cursor asked ≡ None }
        ensures ok { OnOk result (Adds self.old who (what.Open cursor table asked) self.new) }
        ensures view { IfOk result (λ view. view ≡ view_at self.old.log who table asked) }
        ensures few { IfOk result (λ view. view.rows ≤ MOST_ROWS) }
        ensures some { IfOk result (λ view. 1 ≤ view.per) }
        ensures err { OnErr result (self.new ≡ self.old) }
    {
        let view = self.view(who, table, asked)?;
        self.sessions.reserve_cursor(who)?;
        self.history
            .reserve(owed(&self.sessions, &self.directory) + 2)?;
        self.sessions.open_cursor(
            who,
            Cursor {
                cursor,
                table,
                scn: view.scn,
                rows: view.rows,
                per: view.per,
                columns: view.columns.columns().len() as u32,
            },
        );
        self.history.append(Entry {
            who: who.number(),
            what: What::Open {
                cursor,
                table,
                asked,
            },
        });
        Ok(view)
    }

    /// The view that an opening has now.
    fn view(&mut self, who: Who, table: u32, asked: Option<u64>) -> Result<View, NoMemory>
        requires exists { Exists self.old.log table }
        ensures same { self.new ≡ self.old }
        ensures view { IfOk result (λ view. view ≡ view_at self.old.log who table asked) }
        ensures few { IfOk result (λ view. view.rows ≤ MOST_ROWS) }
        ensures some { IfOk result (λ view. 1 ≤ view.per) }
    {
        let own = self.shows_own(who, table, asked)?;
        let rows = self.given_of(table);
        let info = self.catalog.tables()[table as usize - 1].info();
        let per = info.shape.per_extent();
        let columns = info.schema.share()?;
        let defaults = clone_row(self.alloc, &info.defaults)?;
        Ok(View {
            place: self.history.len(),
            table,
            asked,
            scn: self.reads_at(who, asked),
            rows,
            per,
            extents: (rows + per - 1) / per,
            columns,
            defaults,
            own,
        })
    }

    /// The session's own changes to a table that an opening shows: none of them where it asks for an SCN.
    fn shows_own(
        &mut self,
        who: Who,
        table: u32,
        asked: Option<u64>,
    ) -> Result<OwnChanges, NoMemory>
        ensures same { self.new ≡ self.old }
        ensures own { IfOk result (λ own. own ≡ shows_own self.old.log who table asked) }
    {
        match asked {
            Some(_) => no_changes(self.alloc, table),
            None => self.sessions.own(who, table),
        }
    }

    /// The SCN that an opening reads at.
    fn reads_at(&self, who: Who, asked: Option<u64>) -> u64
        ensures { result ≡ reads_at self.now.log who asked }
    {
        match asked {
            Some(scn) => scn,
            None => self.snapshot(who),
        }
    }

    /// The SCN that a statement of the session reads at.
    pub(crate) fn snapshot(&self, who: Who) -> u64
        ensures { result ≡ snapshot self.now.log who }
    {
        match self.sessions.mode(who) {
            Mode::Committed => self.history.scn(),
            Mode::Serializable | Mode::ReadOnly => self.beginning(who),
        }
    }

    /// The SCN that the session's transaction began at, or that it would begin at now.
    pub(crate) fn beginning(&self, who: Who) -> u64
        ensures { result ≡ beginning_at self.now.log who }
    {
        match self.sessions.begun(who) {
            Some(_) => self.beginnings[who.index()],
            None => self.history.scn(),
        }
    }

    /// Reads what a scan needs of an extent: its current column unit, unless that is newer than the cursor's SCN, and the
    /// rows that commits touched since the unit's SCN; without such a unit all rows. Each is a copy of the row committed at
    /// the cursor's SCN, with the defaults of the columns that its table got since. It adds no entry.
    ///
    /// Each row that is read is one step at most.
    pub fn pin<L: Ledger>(
        &mut self,
        who: u32,
        cursor: u32,
        extent: u64,
        steps: &mut Steps<L>,
    ) -> Result<Pin<U>, Refused>
        requires session { who < NUMBERS }
        requires within { extent < (cursor_view self.old.log who cursor).extents }
        ensures same { self.new ≡ self.old }
        ensures place { IfOk result (λ pin. pin.place ≡ length self.old.log) }
        ensures unit { IfOk result (λ pin. content_in U.content pin.unit
            ≡ serving_content self.old.log (cursor_view self.old.log who cursor) extent) }
        ensures fetched { IfOk result (λ pin.
            pin.fetched ≡ fetched_in self.old.log (cursor_view self.old.log who cursor) extent) }
        ensures steps { steps.new ≤ steps.old + length (read_in self.old.log (cursor_view self.old.log who cursor) extent) }
        ensures err { IfErr result (λ why. IsRefusal self.old.log None why) }
    {
        let caller = Who::of(who);
        self.draw(caller, cursor, extent);
        match self.read(caller, cursor, extent, steps) {
            Ok(pin) => Ok(pin),
            Err(NoMemory) => Err(self.refused(Why::NoMemory)),
        }
    }

    /// Lets the images of an extent that a cursor reads be made anew, where that is due.
    fn draw(&mut self, who: Who, cursor: u32, extent: u64)
        ensures { self.new ≡ self.old }
    {
        if let Some(view) = self.sessions.cursor(who, cursor) {
            let first = extent.saturating_mul(view.per);
            let most = self.most_read(view, extent);
            self.blocks
                .draw(view.table, first, view.per, view.scn, most);
        }
    }

    /// How many rows of an extent a cursor has to read at most: those beside the unit that it is lent, or all.
    fn most_read(&self, view: Cursor, extent: u64) -> u64 {
        match self.directory.unit(view.table, extent) {
            Some(unit) if unit.scn() <= view.scn => {
                self.directory.stale_count(view.table, extent)
            }
            _ => view.per,
        }
    }

    /// Reads what a cursor needs of an extent.
    fn read<L: Ledger>(
        &self,
        who: Who,
        cursor: u32,
        extent: u64,
        steps: &mut Steps<L>,
    ) -> Result<Pin<U>, NoMemory>
        requires within { extent < (cursor_view self.now.log who cursor).extents }
        ensures place { IfOk result (λ pin. pin.place ≡ length self.now.log) }
        ensures unit { IfOk result (λ pin. content_in U.content pin.unit
            ≡ serving_content self.now.log (cursor_view self.now.log who cursor) extent) }
        ensures fetched { IfOk result (λ pin.
            pin.fetched ≡ fetched_in self.now.log (cursor_view self.now.log who cursor) extent) }
        ensures steps { steps.new ≤ steps.old + length (read_in self.now.log (cursor_view self.now.log who cursor) extent) }
    {
        let view = self.sessions.cursor(who, cursor).unwrap();
        let read = self.read_written(who, cursor, extent, steps)?;
        let fetched = self.shown(view.table, view.columns, read.fetched)?;
        Ok(Pin {
            place: read.place,
            unit: read.unit,
            fetched,
        })
    }

    /// Reads what a cursor needs of an extent, the rows as they were written.
    fn read_written<L: Ledger>(
        &self,
        who: Who,
        cursor: u32,
        extent: u64,
        steps: &mut Steps<L>,
    ) -> Result<Written<U>, NoMemory>
        requires within { extent < (cursor_view self.now.log who cursor).extents }
        ensures place { IfOk result (λ read. read.place ≡ length self.now.log) }
        ensures unit { IfOk result (λ read. content_in U.content read.unit
            ≡ serving_content self.now.log (cursor_view self.now.log who cursor) extent) }
        ensures fetched { IfOk result (λ read.
            read.fetched ≡ read_in self.now.log (cursor_view self.now.log who cursor) extent) }
        ensures steps { steps.new ≤ steps.old + length (read_in self.now.log (cursor_view self.now.log who cursor) extent) }
    {
        let view = self.sessions.cursor(who, cursor).unwrap();
        let place = self.len();
        match self.lend(view.table, extent, view.scn)? {
            Some(unit) => Ok(Written {
                place,
                unit: Some(unit),
                fetched: self.fetch_stale(view.table, extent, view.scn, steps)?,
            }),
            None => Ok(Written {
                place,
                unit: None,
                fetched: self.fetch(who, cursor, extent, steps)?,
            }),
        }
    }

    /// What was read of a table, as a reader of so many columns shows it. The table's defaults are shared: it takes no memory.
    pub(crate) fn shown(
        &self,
        table: u32,
        columns: u32,
        read: Fetched,
    ) -> Result<ShownRows, NoMemory>
        requires { Exists self.now.log table }
        ensures { IfOk result (λ shown. shown ≡ all_widened (take columns (defaults_of (table_at self.now.log table))) read) }
    {
        let info = self.catalog.tables()[table as usize - 1].info();
        let defaults = clone_row(self.alloc, &info.defaults)?;
        Ok(ShownRows::of(read, defaults, columns as usize))
    }

    /// An extent's current unit, unless it is newer than this SCN.
    pub(crate) fn lend(&self, table: u32, extent: u64, scn: u64) -> Result<Option<Arc<U>>, NoMemory>
        ensures { IfOk result (λ lent. content_in U.content lent
            ≡ option_map (content_at self.now.log table extent) (not_newer scn (unit self.now.log table extent))) }
    {
        match self.directory.unit(table, extent) {
            Some(unit) => lend_up_to(unit, scn),
            None => Ok(None),
        }
    }

    /// Reads the rows of an extent that commits touched since its unit's SCN, and up to this one.
    pub(crate) fn fetch_stale<L: Ledger>(
        &self,
        table: u32,
        extent: u64,
        scn: u64,
        steps: &mut Steps<L>,
    ) -> Result<Fetched, NoMemory>
        requires old { horizon self.now.log ≤ scn }
        ensures fetched { IfOk result (λ fetched. ForSome (unit self.now.log table extent) (λ at.
            fetched ≡ stale_in self.now.log table extent scn at)) }
        ensures steps { ForSome (unit self.now.log table extent) (λ at.
            steps.new ≤ steps.old + length (stale_in self.now.log table extent scn at)) }
    {
        let stale = self.directory.stale_at(table, extent, scn)?;
        let fetched = self
            .blocks
            .rows_of(self.alloc, table, stale.as_slice(), scn, steps)?;
        Ok(fetched)
    }

    fn fetch<L: Ledger>(
        &self,
        who: Who,
        cursor: u32,
        extent: u64,
        steps: &mut Steps<L>,
    ) -> Result<Fetched, NoMemory>
        requires within { extent < (cursor_view self.now.log who cursor).extents }
        ensures fetched { IfOk result (λ fetched.
            fetched ≡ committed_in self.now.log (cursor_view self.now.log who cursor) extent) }
        ensures steps { steps.new ≤ steps.old + rows_in (cursor_view self.now.log who cursor) extent }
    {
        let view = self.sessions.cursor(who, cursor).unwrap();
        let first = extent * view.per;
        let count = view.per.min(view.rows - first);
        let fetched = self
            .blocks
            .extent_rows(self.alloc, view.table, first, count, view.scn, steps)?;
        Ok(fetched)
    }

    /// Shuts a cursor, and answers the place of the entry. It takes no memory.
    pub fn shut(&mut self, who: u32, cursor: u32) -> u64
        requires session { who < NUMBERS }
        requires cursor { is_cursor_open self.old.log who cursor ≡ true }
        ensures added { Adds self.old who (what.Shut cursor) self.new }
        ensures place { result ≡ length self.old.log }
    {
        let caller = Who::of(who);
        let place = self.history.len();
        self.sessions.shut(caller, cursor);
        self.history.append(Entry {
            who,
            what: What::Shut { cursor },
        });
        place
    }
}

/// No changes to a table.
fn no_changes(alloc: Global, table: u32) -> Result<OwnChanges, NoMemory>
    ensures { IfOk result (λ own. own ≡ []) }
{
    let none = Vec::new(alloc);
    Ok(OwnChanges::of(table, LastRows::new(alloc)?, &none))
}

/// A unit, unless it is newer than this SCN.
fn lend_up_to<U: UnitLike>(unit: &Arc<U>, scn: u64) -> Result<Option<Arc<U>>, NoMemory>
    ensures { IfOk result (λ lent. content_in U.content lent
        ≡ (if nat_le (U.content unit.now.value).scn scn then Some (U.content unit.now.value) else None)) }
{
    if unit.scn() <= scn {
        Ok(Some(Arc::try_clone(unit)?))
    } else {
        Ok(None)
    }
}
