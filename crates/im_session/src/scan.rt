ghost use Rattle.std.specs.Prelude.{◌≡◌, ◌<◌, map, true, false, IfOk};
ghost use Rattle.im_history.specs.Cursors.{has_own_open};
ghost use Rattle.im_history.specs.Tables.{tables};
ghost use Rattle.im_names.specs.Fitting.{OfTable, QueryServes};
ghost use Rattle.im_reach.specs.Sides.{speaks};
ghost use Rattle.im_session.specs.declared.scan.Purpose.TheVariants as purpose;
ghost use Rattle.im_session.specs.inner.Purposes.{IsUsed, MayScanFor, MayUse, plan_of};
ghost use Rattle.im_session.specs.inner.Rests.{IsRest};
ghost use Rattle.im_session.specs.Reads.{IsCounted, Own};
ghost use Rattle.im_statements.specs.Outcomes.{State, said};
ghost use Rattle.im_statements.specs.Scans as plan;
ghost use Rattle.im_statements.specs.Statements.{seen_columns};

use crate::context::Context;
use crate::cursor::{Cursor, open_cursor};
use crate::refusals::{out_of_memory, refused_reply};
use crate::rewriting::rewrite_seen;
use crate::serving::{Gathered, Wanted, answer_scan, gather};
use im_edge::Gate;
use im_history::OWN_CURSOR;
use im_reach::Reach;
use im_replies::{Aim, Body, How, Reply, Served};
use im_statements::Rewriting;
use im_syntax::Bound;
use im_unit::ColumnUnit;
use im_values::limits::NUMBERS;
use im_values::{List, NoMemory, Steps};
use std::alloc::Global;
use std::sync::Wait;
use std::sync::ledger::Ledger;
use std::thread::Threads;

/// What a statement scans a table for.
#[derive(Drop)]
pub enum Purpose {
    /// SELECT: to answer the query.
    Answer,
    /// EXPLAIN: to answer how each extent is served.
    Explain,
    /// UPDATE and DELETE: to rewrite the rows that the condition keeps.
    Rewrite(Rewriting),
}

/// Plays a statement that scans a table by itself, which was seen to have so many columns: a cursor of its own is opened, serves its
/// purpose, and is closed.
///
/// Each extent is served by itself: others may change the table meanwhile, and what is seen is what there was at the opening. Each row
/// that is read from the blocks is one step at most.
pub fn scan<R: Threads + Wait + Sync, H: Reach<ColumnUnit>, G: Gate, L: Ledger>(
    context: &Context<R, G>,
    reach: &mut H,
    columns: u32,
    bound: Bound,
    purpose: Purpose,
    steps: &mut Steps<L>,
) -> Reply
    requires session { context.now.who < NUMBERS }
    requires speaks { speaks (H.known reach.old).side context.now.who ≡ true }
    requires shut { has_own_open (H.known reach.old).log context.now.who ≡ false }
    requires seen { columns ≡ seen_columns (H.known reach.old).log bound.table }
    requires serves { OfTable (tables (H.known reach.old).log) bound.table (QueryServes bound) }
    requires may { MayScanFor purpose bound (tables (H.known reach.old).log) }
    ensures rest { IsRest context.now.who 0 (H.known reach.old) (plan_of (H.known reach.old).limits context.now.who
        (seen_columns (H.known reach.old).log bound.table) bound purpose) (said result) (H.known reach.new) }
    ensures ticks { (state : State) → IsCounted Own state context.now.who result steps.old steps.new (H.known reach.old).log (H.known reach.new).log }
{
    let table = bound.table;
    match open_cursor(context, reach, OWN_CURSOR, columns, bound) {
        Ok(cursor) => {
            let reply = use_scan(context, reach, &cursor, &purpose, steps);
            drop(cursor);
            drop(purpose);
            reach.shut(context.outside.rt, context.who, OWN_CURSOR);
            reply
        }
        Err(refused) => {
            drop(purpose);
            refused_reply(
                context.outside.alloc,
                Aim::Opening {
                    table,
                    cursor: OWN_CURSOR,
                },
                0,
                refused,
            )
        }
    }
}

/// Lets an open scan serve its purpose. It is still open then.
fn use_scan<R: Threads + Wait + Sync, H: Reach<ColumnUnit>, G: Gate, L: Ledger>(
    context: &Context<R, G>,
    reach: &mut H,
    cursor: &Cursor,
    purpose: &Purpose,
    steps: &mut Steps<L>,
) -> Reply
    requires session { context.now.who < NUMBERS }
    requires speaks { speaks (H.known reach.old).side context.now.who ≡ true }
    requires may { MayUse context.now.who purpose.now cursor.now (H.known reach.old) }
    ensures used { IsUsed context.now.who purpose.now cursor.now (H.known reach.old) result (H.known reach.new) }
    ensures ticks { (state : State) → IsCounted Own state context.now.who result steps.old steps.new (H.known reach.old).log (H.known reach.new).log }
{
    match purpose {
        Purpose::Answer => answer_seen(context, reach, cursor, steps),
        Purpose::Explain => explain_seen(context, reach, cursor, steps),
        Purpose::Rewrite(rewriting) => rewrite_seen(context, reach, cursor, rewriting, steps),
    }
}

/// Answers the query of a scan over the rows that it sees. Its cursor is still open then.
fn answer_seen<R: Threads + Wait + Sync, H: Reach<ColumnUnit>, G: Gate, L: Ledger>(
    context: &Context<R, G>,
    reach: &mut H,
    cursor: &Cursor,
    steps: &mut Steps<L>,
) -> Reply
    requires session { context.now.who < NUMBERS }
    requires speaks { speaks (H.known reach.old).side context.now.who ≡ true }
    requires may { MayUse context.now.who purpose.Answer cursor.now (H.known reach.old) }
    ensures used { IsUsed context.now.who purpose.Answer cursor.now (H.known reach.old) result (H.known reach.new) }
    ensures ticks { (state : State) → IsCounted Own state context.now.who result steps.old steps.new (H.known reach.old).log (H.known reach.new).log }
{
    match answer_scan(context, reach, cursor, steps) {
        Ok(answered) => answered.reply(cursor.view.place, cursor.view.scn),
        Err(_) => out_of_memory(context.outside.alloc, 1),
    }
}

/// Answers how each extent is served to a scan. Its cursor is still open then.
fn explain_seen<R: Threads + Wait + Sync, H: Reach<ColumnUnit>, G: Gate, L: Ledger>(
    context: &Context<R, G>,
    reach: &mut H,
    cursor: &Cursor,
    steps: &mut Steps<L>,
) -> Reply
    requires session { context.now.who < NUMBERS }
    requires speaks { speaks (H.known reach.old).side context.now.who ≡ true }
    requires may { MayUse context.now.who purpose.Explain cursor.now (H.known reach.old) }
    ensures used { IsUsed context.now.who purpose.Explain cursor.now (H.known reach.old) result (H.known reach.new) }
    ensures ticks { (state : State) → IsCounted Own state context.now.who result steps.old steps.new (H.known reach.old).log (H.known reach.new).log }
{
    let Ok(gathered) = gather(context, reach, cursor, Wanted::Marks, steps) else {
        return out_of_memory(context.outside.alloc, 1);
    };
    let Gathered { marks, part } = gathered;
    drop(part);
    match explanation(context.outside.alloc, marks.as_slice()) {
        Ok(served) => Reply {
            place: Some(cursor.view.place),
            marks: List::of(marks),
            body: Body::Plan {
                scn: cursor.view.scn,
                served,
            },
        },
        Err(_) => out_of_memory(context.outside.alloc, 1),
    }
}

/// What an explanation says of these marks.
fn explanation(alloc: Global, marks: &[Served]) -> Result<List<(u64, How)>, NoMemory>
    ensures { IfOk result (λ extents. extents ≡ map plan.explained marks.now) }
{
    let mut extents = Vec::with_capacity(alloc, marks.len())?;
    for mark in marks {
        extents.push((mark.extent, mark.how))?;
    }
    Ok(List::of(extents))
}
