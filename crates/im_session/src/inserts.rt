ghost use Rattle.std.specs.Prelude.{◌≡◌, ◌<◌, true, false};
ghost use Rattle.im_core.specs.Answers.{MayPut};
ghost use Rattle.im_history.specs.Cursors.{has_own_open};
ghost use Rattle.im_reach.specs.Sides.{speaks};
ghost use Rattle.im_session.specs.inner.Rests.{IsRest};
ghost use Rattle.im_statements.specs.Outcomes.{said};
ghost use Rattle.im_statements.specs.Statements.{seen_columns};
ghost use Rattle.im_statements.specs.Writes as plan;

use crate::context::Context;
use crate::refusals::refused_reply;
use im_edge::Gate;
use im_history::Opening;
use im_reach::Reach;
use im_replies::{Aim, Body, Reply};
use im_unit::ColumnUnit;
use im_values::Rows;
use im_values::limits::NUMBERS;
use std::sync::Wait;

/// INSERT: puts rows into a table that was seen to have so many columns, at its next row numbers. Where the table got others since then
/// it is refused.
pub fn insert<R: Wait, H: Reach<ColumnUnit>, G: Gate>(
    context: &Context<R, G>,
    reach: &mut H,
    opening: Opening,
    rows: Rows,
) -> Reply
    requires session { context.now.who < NUMBERS }
    requires speaks { speaks (H.known reach.old).side context.now.who ≡ true }
    requires shut { has_own_open (H.known reach.old).log context.now.who ≡ false }
    requires seen { opening.columns ≡ seen_columns (H.known reach.old).log opening.table }
    requires may { MayPut (H.known reach.old).log opening rows }
    ensures { IsRest context.now.who 0 (H.known reach.old) (plan.insert (H.known reach.old).limits context.now.who opening.table
        (seen_columns (H.known reach.old).log opening.table) rows) (said result) (H.known reach.new) }
{
    let count = rows.len() as u64;
    let table = opening.table;
    match reach.insert(context.outside.rt, context.who, opening, rows) {
        Ok(wrote) => Reply::settled(
            context.outside.alloc,
            wrote.place,
            Body::Inserted {
                rows: count,
                first: wrote.first,
            },
        ),
        Err(refused) => refused_reply(context.outside.alloc, Aim::Inserting { table }, 0, refused),
    }
}
