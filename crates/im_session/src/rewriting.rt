ghost use Rattle.std.specs.Prelude.{◌≡◌, ◌<◌, ◌≤◌, ◌⊎◌, length, true, false};
ghost use Rattle.im_history.specs.Cursors.{has_own_open, is_cursor_open};
ghost use Rattle.im_history.specs.Legal.{MayWrite};
ghost use Rattle.im_history.specs.Tables.{tables};
ghost use Rattle.im_history.specs.Views.{look_at};
ghost use Rattle.im_names.specs.Fitting.{OfTable};
ghost use Rattle.im_reach.specs.Sides.{Known, speaks};
ghost use Rattle.im_session.specs.declared.scan.Purpose.TheVariants as purpose;
ghost use Rattle.im_session.specs.inner.Purposes.{IsUsed, MayUse};
ghost use Rattle.im_session.specs.inner.Rests.{IsRest};
ghost use Rattle.im_session.specs.inner.Scans.{IsScan, IsShut, Longer};
ghost use Rattle.im_session.specs.Reads.{IsCounted, IsOutOfMemory, Own};
ghost use Rattle.im_session.specs.inner.Writes as inner;
ghost use Rattle.im_statements.specs.Outcomes.{State, said};
ghost use Rattle.im_statements.specs.Statements.{seen_columns};
ghost use Rattle.im_statements.specs.Writes as plan;

use crate::changes::changes_to;
use crate::context::Context;
use crate::cursor::Cursor;
use crate::refusals::{out_of_memory, write_refused};
use crate::scan::{Purpose, scan};
use crate::serving::{Wanted, gather};
use im_edge::Gate;
use im_history::{Change, Look, Mode, OWN_CURSOR, View};
use im_reach::Reach;
use im_replies::{Body, Fault, Reply, Served};
use im_statements::Rewriting;
use im_syntax::{Bound, Filter};
use im_unit::ColumnUnit;
use im_values::limits::NUMBERS;
use im_values::{List, Row, Steps};
use std::alloc::Global;
use std::sync::Wait;
use std::sync::ledger::Ledger;
use std::thread::Threads;

/// UPDATE and DELETE: rewrites the rows of a table that a session sees and a condition keeps, unless its transaction was READ
/// ONLY at this look.
pub fn rewrite<R: Threads + Wait + Sync, H: Reach<ColumnUnit>, G: Gate, L: Ledger>(
    context: &Context<R, G>,
    reach: &mut H,
    look: &Look,
    table: u32,
    filter: Option<Filter>,
    rewriting: Rewriting,
    steps: &mut Steps<L>,
) -> Reply
    requires session { context.now.who < NUMBERS }
    requires speaks { speaks (H.known reach.old).side context.now.who ≡ true }
    requires shut { has_own_open (H.known reach.old).log context.now.who ≡ false }
    requires look { look.now ≡ look_at (H.known reach.old).log context.now.who }
    requires serves { OfTable (tables (H.known reach.old).log) table (inner.RewriteServes filter rewriting) }
    ensures rest { IsRest context.now.who 0 (H.known reach.old)
        (plan.unless_read_only context.now.who (H.known reach.old).log
        (plan.rewrite (H.known reach.old).limits context.now.who table (seen_columns (H.known reach.old).log table) filter rewriting)) (said result)
        (H.known reach.new) }
    ensures ticks { (state : State) → IsCounted Own state context.now.who result steps.old steps.new (H.known reach.old).log (H.known reach.new).log }
{
    match look.mode {
        Mode::ReadOnly => {
            drop(filter);
            drop(rewriting);
            Reply::settled(
                context.outside.alloc,
                look.place,
                Body::Error(Fault::ReadOnly),
            )
        }
        Mode::Committed | Mode::Serializable => {
            let columns = look.tables.columns_of(table);
            rewrite_rows(context, reach, table, columns, filter, rewriting, steps)
        }
    }
}

/// Rewrites the rows of a table that a session sees and a condition keeps, by a scan and a write.
fn rewrite_rows<R: Threads + Wait + Sync, H: Reach<ColumnUnit>, G: Gate, L: Ledger>(
    context: &Context<R, G>,
    reach: &mut H,
    table: u32,
    columns: u32,
    filter: Option<Filter>,
    rewriting: Rewriting,
    steps: &mut Steps<L>,
) -> Reply
    requires session { context.now.who < NUMBERS }
    requires speaks { speaks (H.known reach.old).side context.now.who ≡ true }
    requires shut { has_own_open (H.known reach.old).log context.now.who ≡ false }
    requires seen { columns ≡ seen_columns (H.known reach.old).log table }
    requires serves { OfTable (tables (H.known reach.old).log) table (inner.RewriteServes filter rewriting) }
    ensures rest { IsRest context.now.who 0 (H.known reach.old)
        (plan.rewrite (H.known reach.old).limits context.now.who table (seen_columns (H.known reach.old).log table) filter rewriting) (said result)
        (H.known reach.new) }
    ensures ticks { (state : State) → IsCounted Own state context.now.who result steps.old steps.new (H.known reach.old).log (H.known reach.new).log }
{
    let bound = condition_query(context.outside.alloc, table, filter);
    scan(
        context,
        reach,
        columns,
        bound,
        Purpose::Rewrite(rewriting),
        steps,
    )
}

/// The query of a condition alone. It takes no memory.
fn condition_query(alloc: Global, table: u32, filter: Option<Filter>) -> Bound
    ensures { result ≡ inner.condition_query table filter }
{
    Bound {
        table,
        asked: None,
        filter,
        items: List::of(Vec::new(alloc)),
        groups: List::of(Vec::new(alloc)),
        keys: List::of(Vec::new(alloc)),
        grouped: false,
    }
}

/// Rewrites the rows that a scan sees and its condition keeps. Its cursor is still open then.
pub fn rewrite_seen<R: Threads + Wait + Sync, H: Reach<ColumnUnit>, G: Gate, L: Ledger>(
    context: &Context<R, G>,
    reach: &mut H,
    cursor: &Cursor,
    rewriting: &Rewriting,
    steps: &mut Steps<L>,
) -> Reply
    requires session { context.now.who < NUMBERS }
    requires speaks { speaks (H.known reach.old).side context.now.who ≡ true }
    requires may { MayUse context.now.who (purpose.Rewrite rewriting.now) cursor.now (H.known reach.old) }
    ensures used { IsUsed context.now.who (purpose.Rewrite rewriting.now) cursor.now (H.known reach.old) result (H.known reach.new) }
    ensures ticks { (state : State) → IsCounted Own state context.now.who result steps.old steps.new (H.known reach.old).log (H.known reach.new).log }
{
    match gather(context, reach, cursor, Wanted::Parts, steps) {
        Ok(gathered) => {
            let marks = List::of(gathered.marks);
            let rows = gathered.part.into_rows();
            rewrite_kept(context, reach, &cursor.view, marks, rows, rewriting)
        }
        Err(_) => out_of_memory(context.outside.alloc, 1),
    }
}

/// Rewrites rows that the open scan of a session saw. The scan is still open then.
fn rewrite_kept<R: Wait, H: Reach<ColumnUnit>, G: Gate>(
    context: &Context<R, G>,
    reach: &mut H,
    view: &View,
    marks: List<Served>,
    rows: Vec<(u64, Row)>,
    rewriting: &Rewriting,
) -> Reply
    requires session { context.now.who < NUMBERS }
    requires speaks { speaks (H.known reach.old).side context.now.who ≡ true }
    requires scan { IsScan context.now.who OWN_CURSOR view.now (H.known reach.old) }
    requires may { inner.MayRewriteIn context.now.who rewriting.now view.now (H.known reach.old) }
    requires rows { inner.AreRows (H.known reach.old).log view.now rows.items }
    ensures side { (H.known reach.new).side ≡ (H.known reach.old).side }
    ensures cursor { is_cursor_open (H.known reach.new).log context.now.who OWN_CURSOR ≡ true }
    ensures rest { (late : Known) → IsShut context.now.who (H.known reach.new) late →
        IsRest context.now.who 1 (H.known reach.old) (plan.write_or_end (H.known reach.old).limits context.now.who view.now.place view.now.scn marks
        (plan.changes_to view.now.table rewriting.now rows.items) (plan.written rewriting.now)) (said result) late }
    ensures longer { Longer (H.known reach.old) (H.known reach.new) }
    ensures marks { (result.marks ≡ marks) ⊎ IsOutOfMemory result }
{
    match changes_to(context.outside.alloc, view.table, rewriting, rows) {
        Ok(changes) => write_changes(context, reach, view, marks, changes, rewriting),
        Err(_) => out_of_memory(context.outside.alloc, 1),
    }
}

/// Writes changes to rows that the open scan of a session saw, and answers how many. The scan is still open then.
fn write_changes<R: Wait, H: Reach<ColumnUnit>, G: Gate>(
    context: &Context<R, G>,
    reach: &mut H,
    view: &View,
    marks: List<Served>,
    changes: Vec<Change>,
    rewriting: &Rewriting,
) -> Reply
    requires session { context.now.who < NUMBERS }
    requires speaks { speaks (H.known reach.old).side context.now.who ≡ true }
    requires scan { IsScan context.now.who OWN_CURSOR view.now (H.known reach.old) }
    requires may { 1 ≤ length changes.items → MayWrite (H.known reach.old).log context.now.who OWN_CURSOR changes.items }
    ensures side { (H.known reach.new).side ≡ (H.known reach.old).side }
    ensures cursor { is_cursor_open (H.known reach.new).log context.now.who OWN_CURSOR ≡ true }
    ensures rest { (late : Known) → IsShut context.now.who (H.known reach.new) late →
        IsRest context.now.who 1 (H.known reach.old) (plan.write_or_end (H.known reach.old).limits context.now.who view.now.place view.now.scn marks
        changes.items (plan.written rewriting.now)) (said result) late }
    ensures longer { Longer (H.known reach.old) (H.known reach.new) }
    ensures marks { (result.marks ≡ marks) ⊎ IsOutOfMemory result }
{
    if changes.is_empty() {
        drop(changes);
        return Reply {
            place: Some(view.place),
            marks,
            body: rewriting.written(0),
        };
    }
    let rows = changes.len() as u64;
    match reach.write(context.outside.rt, context.who, OWN_CURSOR, changes) {
        Ok(place) => Reply {
            place: Some(place),
            marks,
            body: rewriting.written(rows),
        },
        Err(refused) => write_refused(context.outside.alloc, marks, refused),
    }
}
