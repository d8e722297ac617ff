ghost use Rattle.std.specs.Prelude.{◌≡◌, ◌<◌, [], true};
ghost use Rattle.im_history.specs.Legal.{Exists};
ghost use Rattle.im_reach.specs.Sides.{speaks};
ghost use Rattle.im_statements.specs.Background as plan;
ghost use Rattle.im_syntax.specs.Rules.{IsStmt};
ghost use Rattle.im_worker.specs.Background.{tasks_of};
ghost use Rattle.im_worker.specs.Reads.{IsCounted};
ghost use Rattle.im_worker.specs.inner.Running as inner;
ghost use Rattle.im_worker.specs.inner.Running.{IsRun, evict_named};
ghost use Rattle.im_worker.specs.inner.Standing.{Stands};

use crate::building::{Beginning, begin_next};
use crate::ending::{cancel_build, end_build};
use crate::held::Build;
use crate::replies::{built_of, out_of_memory};
use im_edge::{Gate, Outside};
use im_names::{Resolved, resolve};
use im_reach::Reach;
use im_replies::{Aim, Body, Ending, Fault, Reply};
use im_syntax::Stmt;
use im_unit::ColumnUnit;
use im_values::Steps;
use im_values::limits::NUMBERS;
use std::collections::VecDeque;
use std::sync::Wait;
use std::sync::ledger::Ledger;

/// BEGIN: begins the build that comes next, makes its unit ready, and holds it.
pub fn begin<R: Wait, H: Reach<ColumnUnit>, G, L: Ledger>(
    outside: &Outside<R, G>,
    reach: &mut H,
    who: u32,
    held: &mut VecDeque<Build>,
    steps: &mut Steps<L>,
) -> Reply
    requires session { who < NUMBERS }
    requires speaks { speaks (H.known reach.old).side who ≡ true }
    requires stands { Stands who held.old.items [] (H.known reach.old).log }
    ensures run { IsRun who (plan.begin (tasks_of held.old.items)) held.old.items (H.known reach.old) result held.new.items
        (H.known reach.new) }
    ensures ticks { IsCounted who steps.old steps.new (H.known reach.old).log (H.known reach.new).log }
{
    if held.reserve(1).is_err() {
        return out_of_memory(outside.alloc, 0);
    }
    match begin_next(outside, reach, who, held, steps) {
        Beginning::Ready(build) => {
            let built = built_of(&build.task);
            held.push_back_reserved(build);
            Reply::plain(outside.alloc, Body::Build(built))
        }
        Beginning::Idle { .. } => Reply::plain(outside.alloc, Body::Idle),
        Beginning::Lacks => out_of_memory(outside.alloc, 0),
        Beginning::Dropped => out_of_memory(outside.alloc, 1),
    }
}

/// SWITCH: ends the oldest build that is held, its unit being ready. It takes no memory.
pub fn switch<R: Wait, H: Reach<ColumnUnit>, G: Gate>(
    outside: &Outside<R, G>,
    reach: &mut H,
    who: u32,
    held: &mut VecDeque<Build>,
) -> Reply
    requires session { who < NUMBERS }
    requires speaks { speaks (H.known reach.old).side who ≡ true }
    requires stands { Stands who held.old.items [] (H.known reach.old).log }
    ensures run { IsRun who (plan.switch (H.known reach.old).limits who (tasks_of held.old.items)) held.old.items (H.known reach.old)
        result held.new.items (H.known reach.new) }
{
    match held.pop_front() {
        Some(build) => {
            let ending = end_build(outside, reach, who, build);
            Reply::plain(outside.alloc, Body::Ended(ending))
        }
        None => Reply::plain(outside.alloc, Body::Nothing),
    }
}

/// CANCEL: ends the oldest build that is held without its unit. It takes no memory.
pub fn cancel<R: Wait, H: Reach<ColumnUnit>, G>(
    outside: &Outside<R, G>,
    reach: &mut H,
    who: u32,
    held: &mut VecDeque<Build>,
) -> Reply
    requires session { who < NUMBERS }
    requires speaks { speaks (H.known reach.old).side who ≡ true }
    requires stands { Stands who held.old.items [] (H.known reach.old).log }
    ensures run { IsRun who (plan.cancel (tasks_of held.old.items)) held.old.items (H.known reach.old) result held.new.items
        (H.known reach.new) }
{
    match held.pop_front() {
        Some(build) => {
            let id = cancel_build(outside.rt, reach, who, build);
            Reply::plain(outside.alloc, Body::Ended(Ending::Dropped { id }))
        }
        None => Reply::plain(outside.alloc, Body::Nothing),
    }
}

/// TRICKLE: allows so many more builds ahead of the threshold.
pub fn trickle<R: Wait, H: Reach<ColumnUnit>, G>(
    outside: &Outside<R, G>,
    reach: &mut H,
    who: u32,
    held: &VecDeque<Build>,
    count: u32,
) -> Reply
    requires session { who < NUMBERS }
    requires speaks { speaks (H.known reach.old).side who ≡ true }
    requires stands { Stands who held.now.items [] (H.known reach.old).log }
    ensures run { IsRun who (plan.trickle who (tasks_of held.now.items) count) held.now.items (H.known reach.old) result
        held.now.items (H.known reach.new) }
{
    match reach.trickle(outside.rt, who, count) {
        Ok(credits) => Reply::plain(outside.alloc, Body::Trickle { credits }),
        Err(_) => out_of_memory(outside.alloc, 0),
    }
}

/// Takes an extent of a table that is there out of the column store.
fn evict_extent<R: Wait, H: Reach<ColumnUnit>, G>(
    outside: &Outside<R, G>,
    reach: &mut H,
    who: u32,
    held: &VecDeque<Build>,
    table: u32,
    extent: u64,
) -> Reply
    requires session { who < NUMBERS }
    requires speaks { speaks (H.known reach.old).side who ≡ true }
    requires stands { Stands who held.now.items [] (H.known reach.old).log }
    requires exists { Exists (H.known reach.old).log table }
    ensures run { IsRun who (plan.evict who (tasks_of held.now.items) table extent) held.now.items (H.known reach.old) result
        held.now.items (H.known reach.new) }
{
    match reach.evict(outside.rt, who, table, extent) {
        Ok(evicted) => {
            let used = evicted.used;
            Reply::plain(
                outside.alloc,
                Body::Evicted {
                    table,
                    extent,
                    used,
                },
            )
        }
        Err(refused) => Reply::refusal(
            outside.alloc,
            Fault::of(Aim::Evicting { table, extent }, refused.why),
        ),
    }
}

/// PURGE: lets go of the versions of rows that nobody may ask for any more.
pub fn purge<R: Wait, H: Reach<ColumnUnit>, G>(
    outside: &Outside<R, G>,
    reach: &mut H,
    who: u32,
    held: &VecDeque<Build>,
) -> Reply
    requires session { who < NUMBERS }
    requires speaks { speaks (H.known reach.old).side who ≡ true }
    requires stands { Stands who held.now.items [] (H.known reach.old).log }
    ensures run { IsRun who (plan.purge who (tasks_of held.now.items)) held.now.items (H.known reach.old) result
        held.now.items (H.known reach.new) }
{
    match reach.purge(outside.rt, who) {
        Ok(purged) => Reply::plain(
            outside.alloc,
            Body::Purged {
                horizon: purged.horizon,
                kept: purged.kept,
            },
        ),
        Err(_) => out_of_memory(outside.alloc, 0),
    }
}

/// The table and the extent of an EVICT.
fn extent_of(resolved: &Resolved) -> Option<(u32, u64)>
    ensures { result ≡ inner.extent_of resolved.now }
{
    match resolved {
        Resolved::Evict { table, extent } => Some((*table, *extent)),
        _ => None,
    }
}

/// EVICT: looks the table's name up, and takes its extent out of the column store.
pub fn evict<R: Wait, H: Reach<ColumnUnit>, G>(
    outside: &Outside<R, G>,
    reach: &mut H,
    who: u32,
    held: &VecDeque<Build>,
    statement: &Stmt,
) -> Reply
    requires session { who < NUMBERS }
    requires speaks { speaks (H.known reach.old).side who ≡ true }
    requires statement { IsStmt statement.now }
    requires stands { Stands who held.now.items [] (H.known reach.old).log }
    ensures run { IsRun who (evict_named who (tasks_of held.now.items) statement.now) held.now.items (H.known reach.old) result
        held.now.items (H.known reach.new) }
{
    let Ok(look) = reach.look(outside.rt, who) else {
        return out_of_memory(outside.alloc, 0);
    };
    let resolved = resolve(outside.alloc, statement, &look);
    drop(look);
    match resolved {
        Ok(resolved) => {
            let extent = extent_of(&resolved);
            drop(resolved);
            match extent {
                Some((table, extent)) => evict_extent(outside, reach, who, held, table, extent),
                None => Reply::plain(outside.alloc, Body::Nothing),
            }
        }
        Err(fault) => Reply::refusal(outside.alloc, Fault::from(fault)),
    }
}
