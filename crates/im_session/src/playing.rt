ghost use Rattle.std.specs.Prelude.{◌≡◌, ◌<◌, true, false};
ghost use Rattle.std.specs.List.{position};
ghost use Rattle.im_history.specs.Cursors.{has_own_open};
ghost use Rattle.im_history.specs.Tables.{tables};
ghost use Rattle.im_history.specs.Views.{look_at};
ghost use Rattle.im_names.specs.Fitting.{OfTable, QueryServes, Serves};
ghost use Rattle.im_reach.specs.Sides.{speaks};
ghost use Rattle.im_replies.specs.declared.body.Body.TheVariants.{Error};
ghost use Rattle.im_replies.specs.declared.fault.Fault.TheVariants as fault;
ghost use Rattle.im_session.specs.Reads.{IsCounted, reading_of};
ghost use Rattle.im_session.specs.Sessions.{state_of};
ghost use Rattle.im_session.specs.inner.Names.{defines, reading_in};
ghost use Rattle.im_session.specs.inner.Running.{AreKept, IsRun, is_number, plan_over, reading_by};
ghost use Rattle.im_statements.specs.Cursors as cursors;
ghost use Rattle.im_statements.specs.Statements as plan;
ghost use Rattle.im_statements.specs.Turns.{settled_reply};
ghost use Rattle.im_syntax.specs.Rules.{IsStmt};

use crate::context::Context;
use crate::cursor::{Cursor, OpenOutcome, close, fetch, forget, open_query, step};
use crate::inserts::insert;
use crate::refusals::{name_reply, out_of_memory};
use crate::rewriting::rewrite;
use crate::scan::{Purpose, scan};
use crate::statement::{define, is_definition};
use crate::transaction::{commit, roll_back, set_mode};
use im_edge::Gate;
use im_history::{Look, Opening};
use im_names::{Resolved, resolve};
use im_reach::Reach;
use im_replies::{Body, Fault, Reply};
use im_statements::Rewriting;
use im_syntax::{Bound, Stmt};
use im_unit::ColumnUnit;
use im_values::Steps;
use im_values::limits::NUMBERS;
use std::alloc::Global;
use std::sync::Wait;
use std::sync::ledger::Ledger;
use std::thread::Threads;

/// Plays one statement over the cursors that its session keeps.
pub fn run<R: Threads + Wait + Sync, H: Reach<ColumnUnit>, G: Gate, L: Ledger>(
    context: &Context<R, G>,
    reach: &mut H,
    kept: &mut Vec<Cursor>,
    statement: &Stmt,
    steps: &mut Steps<L>,
) -> Reply
    requires session { context.now.who < NUMBERS }
    requires speaks { speaks (H.known reach.old).side context.now.who ≡ true }
    requires statement { IsStmt statement.now }
    requires agrees { AreKept context.now.who kept.old.items (H.known reach.old) }
    ensures run { IsRun context.now.who
        (plan.statement_plan (H.known reach.old).limits context.now.who (state_of kept.old.items) statement.now) kept.old.items
        (H.known reach.old) result kept.new.items (H.known reach.new) }
    ensures ticks { IsCounted (reading_of statement.now) (state_of kept.old.items) context.now.who result steps.old steps.new (H.known reach.old).log
        (H.known reach.new).log }
{
    if is_definition(statement) {
        return define(context, reach, statement);
    }
    let Ok(look) = reach.look(context.outside.rt, context.who) else {
        return out_of_memory(context.outside.alloc, 0);
    };
    match resolve(context.outside.alloc, statement, &look) {
        Ok(resolved) => {
            let reply = play(context, reach, kept, &look, resolved, steps);
            drop(look);
            reply
        }
        Err(fault) => {
            let place = look.place;
            drop(look);
            name_reply(context.outside.alloc, 0, place, fault)
        }
    }
}

/// Plays a statement that is no definition and whose names were found at this look.
fn play<R: Threads + Wait + Sync, H: Reach<ColumnUnit>, G: Gate, L: Ledger>(
    context: &Context<R, G>,
    reach: &mut H,
    kept: &mut Vec<Cursor>,
    look: &Look,
    resolved: Resolved,
    steps: &mut Steps<L>,
) -> Reply
    requires session { context.now.who < NUMBERS }
    requires speaks { speaks (H.known reach.old).side context.now.who ≡ true }
    requires look { look.now ≡ look_at (H.known reach.old).log context.now.who }
    requires serves { Serves (tables (H.known reach.old).log) resolved }
    requires agrees { AreKept context.now.who kept.old.items (H.known reach.old) }
    requires shut { has_own_open (H.known reach.old).log context.now.who ≡ false }
    requires other { defines resolved ≡ false }
    ensures run { IsRun context.now.who
        (plan.resolved_plan (H.known reach.old).limits context.now.who (state_of kept.old.items) (H.known reach.old).log resolved)
        kept.old.items (H.known reach.old) result kept.new.items (H.known reach.new) }
    ensures ticks { IsCounted (reading_in resolved) (state_of kept.old.items) context.now.who result steps.old steps.new (H.known reach.old).log
        (H.known reach.new).log }
{
    match resolved {
        Resolved::Select(bound) => {
            let columns = look.tables.columns_of(bound.table);
            scan(context, reach, columns, bound, Purpose::Answer, steps)
        }
        Resolved::Explain(bound) => {
            let columns = look.tables.columns_of(bound.table);
            scan(context, reach, columns, bound, Purpose::Explain, steps)
        }
        Resolved::Insert { table, rows } => {
            let columns = look.tables.columns_of(table);
            insert(context, reach, Opening { table, columns }, rows)
        }
        Resolved::Update {
            table,
            filter,
            sets,
        } => {
            let rewriting = Rewriting::Updating(sets);
            rewrite(context, reach, look, table, filter, rewriting, steps)
        }
        Resolved::Delete { table, filter } => {
            let rewriting = Rewriting::Deleting;
            rewrite(context, reach, look, table, filter, rewriting, steps)
        }
        Resolved::SetMode(mode) => set_mode(context, reach, mode),
        Resolved::Commit => commit(context, reach),
        Resolved::Rollback => roll_back(context, reach, look),
        Resolved::OpenFor { cursor, bound } => {
            let columns = look.tables.columns_of(bound.table);
            open(context, reach, kept, cursor, columns, bound)
        }
        Resolved::Step(cursor) => on_cursor(context, reach, kept, look, cursor, Use::Step, steps),
        Resolved::Fetch(cursor) => on_cursor(context, reach, kept, look, cursor, Use::Fetch, steps),
        Resolved::Close(cursor) => on_cursor(context, reach, kept, look, cursor, Use::Close, steps),
        Resolved::Run
        | Resolved::Begin
        | Resolved::Switch
        | Resolved::Cancel
        | Resolved::Trickle(_)
        | Resolved::Evict { .. }
        | Resolved::Purge => Reply::settled(context.outside.alloc, look.place, Body::Nothing),
        Resolved::Create { .. } | Resolved::Memory { .. } | Resolved::AddColumn { .. } => {
            unreachable!()
        }
    }
}

/// OPEN: opens a cursor, and keeps it.
fn open<R: Wait, H: Reach<ColumnUnit>, G: Gate>(
    context: &Context<R, G>,
    reach: &mut H,
    kept: &mut Vec<Cursor>,
    number: u32,
    columns: u32,
    bound: Bound,
) -> Reply
    requires session { context.now.who < NUMBERS }
    requires speaks { speaks (H.known reach.old).side context.now.who ≡ true }
    requires seen { columns ≡ plan.seen_columns (H.known reach.old).log bound.table }
    requires serves { OfTable (tables (H.known reach.old).log) bound.table (QueryServes bound) }
    requires agrees { AreKept context.now.who kept.old.items (H.known reach.old) }
    ensures { IsRun context.now.who (cursors.open_query context.now.who number (plan.seen_columns (H.known reach.old).log bound.table) bound)
        kept.old.items (H.known reach.old) result kept.new.items (H.known reach.new) }
{
    if kept.reserve(1).is_err() {
        drop(bound);
        return out_of_memory(context.outside.alloc, 0);
    }
    let OpenOutcome { reply, cursor } = open_query(context, reach, number, columns, bound);
    match cursor {
        Some(opened) => {
            kept.push(opened).unwrap();
            reply
        }
        None => reply,
    }
}

/// What a statement does with a cursor that its session keeps.
#[derive(Clone, Copy)]
pub enum Use {
    /// STEP: it is served its next extent.
    Step,
    /// FETCH: its query is answered, and it is closed.
    Fetch,
    /// CLOSE: it is closed.
    Close,
}

/// STEP, FETCH and CLOSE: uses a cursor so, where it is open.
fn on_cursor<R: Threads + Wait + Sync, H: Reach<ColumnUnit>, G: Gate, L: Ledger>(
    context: &Context<R, G>,
    reach: &mut H,
    kept: &mut Vec<Cursor>,
    look: &Look,
    number: u32,
    usage: Use,
    steps: &mut Steps<L>,
) -> Reply
    requires session { context.now.who < NUMBERS }
    requires speaks { speaks (H.known reach.old).side context.now.who ≡ true }
    requires look { look.now ≡ look_at (H.known reach.old).log context.now.who }
    requires agrees { AreKept context.now.who kept.old.items (H.known reach.old) }
    ensures run { IsRun context.now.who (plan_over usage (state_of kept.old.items) (H.known reach.old).log number) kept.old.items
        (H.known reach.old) result kept.new.items (H.known reach.new) }
    ensures ticks { IsCounted (reading_by usage number) (state_of kept.old.items) context.now.who result steps.old steps.new (H.known reach.old).log
        (H.known reach.new).log }
{
    let Some(at) = place_of(kept.as_slice(), number) else {
        return unknown(context.outside.alloc, look, number);
    };
    match usage {
        Use::Step => step(context, reach, look, &mut kept[at], steps).reply,
        Use::Fetch => {
            let fetched = fetch(context, reach, look, &kept[at], steps);
            if !fetched.closed {
                return fetched.reply;
            }
            forget(kept, number);
            fetched.reply
        }
        Use::Close => {
            let reply = close(context, reach, &kept[at]);
            forget(kept, number);
            reply
        }
    }
}

/// The place of the cursor of a number among those that are kept.
fn place_of(cursors: &[Cursor], number: u32) -> Option<usize>
    ensures { result ≡ position (is_number number) cursors.now }
{
    cursors.iter().position(|kept| kept.number == number)
}

/// The reply of a line over a cursor that was not open at this look.
fn unknown(alloc: Global, look: &Look, cursor: u32) -> Reply
    ensures { result ≡ settled_reply look.now.place (Error (fault.CursorUnknown cursor)) }
{
    Reply::settled(
        alloc,
        look.place,
        Body::Error(Fault::CursorUnknown { cursor }),
    )
}
