ghost use Rattle.std.specs.Prelude.{◌≡◌, ◌<◌, true, false};
ghost use Rattle.im_history.specs.Cursors.{has_own_open};
ghost use Rattle.im_history.specs.Views.{look_at};
ghost use Rattle.im_reach.specs.Sides.{speaks};
ghost use Rattle.im_session.specs.inner.Rests.{IsRest};
ghost use Rattle.im_statements.specs.Definitions as plan;
ghost use Rattle.im_statements.specs.Outcomes.{said};
ghost use Rattle.im_statements.specs.Transaction as after;

use crate::context::Context;
use crate::refusals::{out_of_memory, refused_reply};
use crate::statement::is_definition;
use im_edge::Gate;
use im_history::{Look, Mode};
use im_reach::Reach;
use im_replies::{Aim, Body, Fault, Reply};
use im_syntax::Stmt;
use im_unit::ColumnUnit;
use im_values::limits::NUMBERS;
use std::sync::Wait;

/// SET TRANSACTION: begins a transaction of a mode.
pub fn set_mode<R: Wait, H: Reach<ColumnUnit>, G: Gate>(
    context: &Context<R, G>,
    reach: &mut H,
    mode: Mode,
) -> Reply
    requires session { context.now.who < NUMBERS }
    requires speaks { speaks (H.known reach.old).side context.now.who ≡ true }
    requires shut { has_own_open (H.known reach.old).log context.now.who ≡ false }
    ensures { IsRest context.now.who 0 (H.known reach.old) (plan.set_mode context.now.who mode) (said result) (H.known reach.new) }
{
    match reach.begin(context.outside.rt, context.who, mode) {
        Ok(begun) => Reply::settled(
            context.outside.alloc,
            begun.place,
            Body::Begun { scn: begun.scn },
        ),
        Err(refused) => refused_reply(context.outside.alloc, Aim::Plain, 0, refused),
    }
}

/// COMMIT: commits what a session has pending.
pub fn commit<R: Wait, H: Reach<ColumnUnit>, G: Gate>(
    context: &Context<R, G>,
    reach: &mut H,
) -> Reply
    requires session { context.now.who < NUMBERS }
    requires speaks { speaks (H.known reach.old).side context.now.who ≡ true }
    requires shut { has_own_open (H.known reach.old).log context.now.who ≡ false }
    ensures { IsRest context.now.who 0 (H.known reach.old) plan.commit (said result) (H.known reach.new) }
{
    match reach.commit(context.outside.rt, context.who) {
        Ok(done) => Reply::settled(
            context.outside.alloc,
            done.place,
            Body::Committed { scn: done.scn },
        ),
        Err(_) => out_of_memory(context.outside.alloc, 0),
    }
}

/// ROLLBACK: rolls back what a session has pending, where a transaction of it was open at this look.
pub fn roll_back<R: Wait, H: Reach<ColumnUnit>, G: Gate>(
    context: &Context<R, G>,
    reach: &mut H,
    look: &Look,
) -> Reply
    requires session { context.now.who < NUMBERS }
    requires speaks { speaks (H.known reach.old).side context.now.who ≡ true }
    requires look { look.now ≡ look_at (H.known reach.old).log context.now.who }
    ensures { IsRest context.now.who 0 (H.known reach.old) (plan.roll_back context.now.who (H.known reach.old).log) (said result) (H.known reach.new) }
{
    if look.begun.is_none() {
        return Reply::settled(context.outside.alloc, look.place, Body::RolledBack);
    }
    Reply::settled(
        context.outside.alloc,
        reach.rollback(context.outside.rt, context.who),
        Body::RolledBack,
    )
}

/// Whether a transaction of the session is open after a line, by the reply to it and by whether one was open before it. The history
/// is not read for it, so it takes no memory.
pub fn is_open_after(statement: &Stmt, reply: &Reply, before: bool) -> bool
    ensures { result ≡ after.open_after statement.now reply.now before }
{
    if is_definition(statement) {
        open_by_definition(&reply.body, before)
    } else {
        open_by(&reply.body, before)
    }
}

/// The same where the statement was to define a table.
fn open_by_definition(body: &Body, before: bool) -> bool
    ensures { result ≡ after.open_by_definition body.now before }
{
    match body {
        Body::Error(Fault::Memory { k }) => *k == 0 && before,
        _ => false,
    }
}

/// The same where it was not.
fn open_by(body: &Body, before: bool) -> bool
    ensures { result ≡ after.open_by body.now before }
{
    match body {
        Body::Begun { .. } | Body::Inserted { .. } => true,
        Body::Committed { .. } | Body::RolledBack => false,
        Body::Updated { rows } | Body::Deleted { rows } => *rows > 0 || before,
        _ => before,
    }
}
