ghost use Rattle.std.specs.Prelude.{◌≡◌, ◌<◌, ◌+◌, [], ◌∷◌, Some, true, false, not, filter, IfOk, IfErr};
ghost use Rattle.std.specs.Option.{ForSome};
ghost use Rattle.im_group.specs.Partials.{CanMerge};
ghost use Rattle.im_history.specs.Cursors.{has_own_open, is_cursor_open};
ghost use Rattle.im_history.specs.Legal.{IsLawful};
ghost use Rattle.im_history.specs.Tables.{tables};
ghost use Rattle.im_history.specs.Views.{look_at};
ghost use Rattle.im_names.specs.Fitting.{OfTable, QueryServes};
ghost use Rattle.im_reach.specs.Sides.{speaks};
ghost use Rattle.im_session.specs.Cursors.{query_of};
ghost use Rattle.im_session.specs.Reads.{Left, Next};
ghost use Rattle.im_session.specs.inner.Cursors as inner;
ghost use Rattle.im_session.specs.inner.Rests.{IsRest};
ghost use Rattle.im_session.specs.inner.Running.{is_number};
ghost use Rattle.im_session.specs.inner.Serving.{IsCountedFor};
ghost use Rattle.im_statements.specs.Cursors as plan;
ghost use Rattle.im_statements.specs.Outcomes.{Closes, Replied};
ghost use Rattle.im_statements.specs.Statements.{seen_columns};

use crate::context::Context;
use crate::refusals::{out_of_memory, refused_reply};
use crate::serving::{ServedPart, answer_scan, served_part};
use im_edge::Gate;
use im_group::Partial;
use im_history::{Look, Opening, Refused, View, Why};
use im_reach::Reach;
use im_replies::{Aim, Body, Reply, Served};
use im_syntax::Bound;
use im_unit::ColumnUnit;
use im_values::limits::NUMBERS;
use im_values::{List, NoMemory, Steps};
use std::alloc::Global;
use std::sync::Wait;
use std::sync::ledger::Ledger;
use std::thread::Threads;

/// A cursor that a session has open.
#[derive(Drop)]
pub struct Cursor {
    /// Its number, from 1 on.
    pub number: u32,
    /// Its query.
    pub bound: Bound,
    /// What it sees.
    pub view: View,
    /// The next extent that a step serves.
    pub next: u64,
    /// What the extents before that one give to the query.
    pub part: Partial,
}

/// What comes of an OPEN.
#[derive(Drop)]
pub struct OpenOutcome {
    pub reply: Reply,
    /// None where it was refused.
    pub cursor: Option<Cursor>,
}

/// Opens a cursor for a query, on a table that was seen to have so many columns. It was served nothing yet. Where the table got others
/// since then it is refused. Where memory is out before the call of the store, the refusal is at no place.
pub fn open_cursor<R: Wait, H: Reach<ColumnUnit>, G: Gate>(
    context: &Context<R, G>,
    reach: &mut H,
    number: u32,
    columns: u32,
    bound: Bound,
) -> Result<Cursor, Refused>
    requires session { context.now.who < NUMBERS }
    requires speaks { speaks (H.known reach.old).side context.now.who ≡ true }
    requires seen { columns ≡ seen_columns (H.known reach.old).log bound.table }
    requires serves { OfTable (tables (H.known reach.old).log) bound.table (QueryServes bound) }
    ensures opened { IfOk result (λ cursor. inner.IsJustOpened context.now.who number (seen_columns (H.known reach.old).log bound.table) bound cursor
        (H.known reach.old) (H.known reach.new)) }
    ensures kept { IfOk result (λ cursor. inner.IsKept context.now.who cursor (H.known reach.new)) }
    ensures lawful { IfOk result (λ cursor. IsLawful (H.known reach.new).limits (H.known reach.new).log) }
    ensures err { IfErr result (λ refused. inner.IsUnopened context.now.who number bound.table (seen_columns (H.known reach.old).log bound.table) bound.asked refused
        (H.known reach.old) (H.known reach.new)) }
{
    let Ok(part) = Partial::of_lent(context.outside.alloc, &bound, &[]) else {
        drop(bound);
        return Err(Refused {
            place: 0,
            why: Why::NoMemory,
        });
    };
    let opening = Opening {
        table: bound.table,
        columns,
    };
    let asked = bound.asked;
    match reach.open_cursor(context.outside.rt, context.who, number, opening, asked) {
        Ok(view) => Ok(Cursor {
            number,
            bound,
            view,
            next: 0,
            part,
        }),
        Err(refused) => {
            drop(bound);
            drop(part);
            Err(refused)
        }
    }
}

/// OPEN: opens a cursor for a query.
pub fn open_query<R: Wait, H: Reach<ColumnUnit>, G: Gate>(
    context: &Context<R, G>,
    reach: &mut H,
    number: u32,
    columns: u32,
    bound: Bound,
) -> OpenOutcome
    requires session { context.now.who < NUMBERS }
    requires speaks { speaks (H.known reach.old).side context.now.who ≡ true }
    requires shut { has_own_open (H.known reach.old).log context.now.who ≡ false }
    requires seen { columns ≡ seen_columns (H.known reach.old).log bound.table }
    requires serves { OfTable (tables (H.known reach.old).log) bound.table (QueryServes bound) }
    ensures rest { IsRest context.now.who 0 (H.known reach.old)
        (plan.open_query context.now.who number (seen_columns (H.known reach.old).log bound.table) bound)
        (inner.opening_outcome result.reply result.cursor) (H.known reach.new) }
    ensures agrees { ForSome result.cursor (λ kept. inner.IsKept context.now.who kept (H.known reach.new)) }
    ensures fresh { ForSome result.cursor (λ kept. is_cursor_open (H.known reach.old).log context.now.who kept.number ≡ false) }
{
    let table = bound.table;
    match open_cursor(context, reach, number, columns, bound) {
        Ok(cursor) => OpenOutcome {
            reply: Reply::settled(
                context.outside.alloc,
                cursor.view.place,
                Body::Opened {
                    cursor: number,
                    scn: cursor.view.scn,
                    extents: cursor.view.extents,
                },
            ),
            cursor: Some(cursor),
        },
        Err(refused) => OpenOutcome {
            reply: refused_reply(
                context.outside.alloc,
                Aim::Opening {
                    table,
                    cursor: number,
                },
                0,
                refused,
            ),
            cursor: None,
        },
    }
}

/// CLOSE: closes a cursor that is open.
pub fn close<R: Wait, H: Reach<ColumnUnit>, G: Gate>(
    context: &Context<R, G>,
    reach: &mut H,
    kept: &Cursor,
) -> Reply
    requires session { context.now.who < NUMBERS }
    requires speaks { speaks (H.known reach.old).side context.now.who ≡ true }
    requires agrees { inner.IsKept context.now.who kept.now (H.known reach.old) }
    ensures { IsRest context.now.who 0 (H.known reach.old) (plan.close_query kept.now.number) (Replied result (Closes kept.now.number)) (H.known reach.new) }
{
    let place = reach.shut(context.outside.rt, context.who, kept.number);
    Reply::settled(
        context.outside.alloc,
        place,
        Body::Closed {
            cursor: kept.number,
        },
    )
}

/// What comes of a FETCH.
#[derive(Drop)]
pub struct FetchOutcome {
    pub reply: Reply,
    /// Whether the cursor was closed. It stays open where memory was out.
    pub closed: bool,
}

/// FETCH: answers the query of an open cursor over all rows that it sees, whatever steps served before, and closes it. The
/// answer was settled at this look.
pub fn fetch<R: Threads + Wait + Sync, H: Reach<ColumnUnit>, G: Gate, L: Ledger>(
    context: &Context<R, G>,
    reach: &mut H,
    look: &Look,
    kept: &Cursor,
    steps: &mut Steps<L>,
) -> FetchOutcome
    requires session { context.now.who < NUMBERS }
    requires speaks { speaks (H.known reach.old).side context.now.who ≡ true }
    requires shut { has_own_open (H.known reach.old).log context.now.who ≡ false }
    requires look { look.now ≡ look_at (H.known reach.old).log context.now.who }
    requires agrees { inner.IsKept context.now.who kept.now (H.known reach.old) }
    ensures rest { IsRest context.now.who 0 (H.known reach.old) (plan.fetch_query (H.known reach.old).log (query_of kept.now))
        (inner.fetch_outcome kept.now.number result.reply result.closed) (H.known reach.new) }
    ensures agrees { result.closed ≡ false → inner.IsKept context.now.who kept.now (H.known reach.new) }
    ensures ticks { IsCountedFor Left kept.now context.now.who result.reply steps.old steps.new (H.known reach.old).log (H.known reach.new).log }
{
    match answer_scan(context, reach, kept, steps) {
        Ok(answered) => {
            reach.shut(context.outside.rt, context.who, kept.number);
            FetchOutcome {
                reply: answered.reply(look.place, kept.view.scn),
                closed: true,
            }
        }
        Err(_) => FetchOutcome {
            reply: out_of_memory(context.outside.alloc, 0),
            closed: false,
        },
    }
}

/// What comes of a STEP.
#[derive(Drop)]
pub struct StepOutcome {
    pub reply: Reply,
    /// Whether an extent was served. Where memory was out none was, and the cursor is as before.
    pub served: bool,
}

/// STEP: serves an open cursor its next extent, unless none was left at this look.
pub fn step<R: Wait, H: Reach<ColumnUnit>, G: Gate, L: Ledger>(
    context: &Context<R, G>,
    reach: &mut H,
    look: &Look,
    kept: &mut Cursor,
    steps: &mut Steps<L>,
) -> StepOutcome
    requires session { context.now.who < NUMBERS }
    requires speaks { speaks (H.known reach.old).side context.now.who ≡ true }
    requires shut { has_own_open (H.known reach.old).log context.now.who ≡ false }
    requires look { look.now ≡ look_at (H.known reach.old).log context.now.who }
    requires agrees { inner.IsKept context.now.who kept.old (H.known reach.old) }
    ensures rest { IsRest context.now.who 0 (H.known reach.old) (plan.step_query (H.known reach.old).log (query_of kept.old))
        (inner.step_outcome kept.old.number result.reply result.served) (H.known reach.new) }
    ensures kept { query_of kept.new ≡ inner.query_after result.served (query_of kept.old) }
    ensures agrees { inner.IsKept context.now.who kept.new (H.known reach.new) }
    ensures ticks { IsCountedFor Next kept.old context.now.who result.reply steps.old steps.new (H.known reach.old).log (H.known reach.new).log }
{
    if kept.next >= kept.view.extents {
        return StepOutcome {
            reply: Reply::settled(
                context.outside.alloc,
                look.place,
                Body::End {
                    cursor: kept.number,
                },
            ),
            served: false,
        };
    }
    let next = kept.next;
    match served_part(context, reach, kept, next, steps) {
        Ok(served) => take(context.outside.alloc, kept, served, next + 1),
        Err(_) => StepOutcome {
            reply: out_of_memory(context.outside.alloc, 0),
            served: false,
        },
    }
}

/// Takes the part of the next extent of a cursor. Behind it comes this one.
fn take(alloc: Global, kept: &mut Cursor, served: ServedPart, behind: u64) -> StepOutcome
    requires few { CanMerge kept.old.part served.part }
    requires behind { behind ≡ kept.old.next + 1 }
    ensures reply { result.reply ≡ inner.served_reply_of result.served served.mark }
    ensures kept { kept.new ≡ inner.cursor_after result.served kept.old served.part }
{
    let ServedPart { mark, part } = served;
    let Ok(marks) = single(alloc, mark) else {
        return StepOutcome {
            reply: out_of_memory(alloc, 0),
            served: false,
        };
    };
    match kept.part.merge(part) {
        Ok(()) => {
            kept.next = behind;
            StepOutcome {
                reply: Reply {
                    place: Some(mark.place),
                    marks,
                    body: Body::Step {
                        extent: mark.extent,
                        how: mark.how,
                    },
                },
                served: true,
            }
        }
        Err(_) => StepOutcome {
            reply: out_of_memory(alloc, 0),
            served: false,
        },
    }
}

/// One mark.
fn single(alloc: Global, mark: Served) -> Result<List<Served>, NoMemory>
    ensures { IfOk result (λ marks. marks ≡ mark ∷ []) }
{
    let mut marks = Vec::with_capacity(alloc, 1)?;
    marks.push(mark)?;
    Ok(List::of(marks))
}

/// Keeps the cursor of a number no longer. The others stay in order.
pub fn forget(cursors: &mut Vec<Cursor>, number: u32)
    ensures { cursors.new.items ≡ filter (λ kept. not (is_number number kept)) cursors.old.items }
{
    cursors.retain(|kept| kept.number != number);
}
