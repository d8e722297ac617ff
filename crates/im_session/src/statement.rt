ghost use Rattle.std.specs.Prelude.{◌≡◌, ◌<◌, ◌≤◌, true, false};
ghost use Rattle.im_history.specs.Cursors.{has_own_open};
ghost use Rattle.im_history.specs.Legal.{IsLawful};
ghost use Rattle.im_history.specs.Tables.{tables};
ghost use Rattle.im_history.specs.Transactions.{is_open};
ghost use Rattle.im_history.specs.Views.{look_at};
ghost use Rattle.im_names.specs.Fitting.{Serves};
ghost use Rattle.im_reach.specs.Sides.{speaks};
ghost use Rattle.im_session.specs.inner.Names.{defines};
ghost use Rattle.im_session.specs.inner.Rests.{IsRest};
ghost use Rattle.im_statements.specs.Outcomes.{State, said};
ghost use Rattle.im_statements.specs.Statements as plan;
ghost use Rattle.im_syntax.specs.Rules.{IsStmt};

use crate::context::Context;
use crate::definition::{NewTable, add_column, alter, create};
use crate::refusals::{name_reply, out_of_memory};
use im_edge::Gate;
use im_history::Look;
use im_names::{Resolved, resolve};
use im_reach::Reach;
use im_replies::Reply;
use im_syntax::Stmt;
use im_unit::ColumnUnit;
use im_values::limits::NUMBERS;
use std::sync::Wait;

/// CREATE TABLE and ALTER TABLE: an open transaction of the session is committed first, whether or not the statement is then
/// refused, and its names are looked up behind that.
pub fn define<R: Wait, H: Reach<ColumnUnit>, G: Gate>(
    context: &Context<R, G>,
    reach: &mut H,
    statement: &Stmt,
) -> Reply
    requires session { context.now.who < NUMBERS }
    requires speaks { speaks (H.known reach.old).side context.now.who ≡ true }
    requires shut { has_own_open (H.known reach.old).log context.now.who ≡ false }
    requires statement { IsStmt statement.now }
    requires definition { plan.is_definition statement.now ≡ true }
    ensures { (state : State) → IsRest context.now.who 0 (H.known reach.old) (plan.definition_plan (H.known reach.old).limits context.now.who state statement.now)
        (said result) (H.known reach.new) }
{
    let Ok(look) = reach.look(context.outside.rt, context.who) else {
        return out_of_memory(context.outside.alloc, 0);
    };
    if look.begun.is_none() {
        let reply = define_named(context, reach, statement, &look, 0);
        drop(look);
        return reply;
    }
    drop(look);
    match reach.commit(context.outside.rt, context.who) {
        Ok(_) => define_later(context, reach, statement),
        Err(_) => out_of_memory(context.outside.alloc, 0),
    }
}

/// Plays a definition once the line has committed.
fn define_later<R: Wait, H: Reach<ColumnUnit>, G: Gate>(
    context: &Context<R, G>,
    reach: &mut H,
    statement: &Stmt,
) -> Reply
    requires session { context.now.who < NUMBERS }
    requires speaks { speaks (H.known reach.old).side context.now.who ≡ true }
    requires shut { has_own_open (H.known reach.old).log context.now.who ≡ false }
    requires idle { is_open (H.known reach.old).log context.now.who ≡ false }
    requires statement { IsStmt statement.now }
    requires definition { plan.is_definition statement.now ≡ true }
    ensures { (state : State) → IsRest context.now.who 1 (H.known reach.old) (plan.looked_up (H.known reach.old).limits context.now.who state statement.now)
        (said result) (H.known reach.new) }
{
    match reach.look(context.outside.rt, context.who) {
        Ok(look) => {
            let reply = define_named(context, reach, statement, &look, 1);
            drop(look);
            reply
        }
        Err(_) => out_of_memory(context.outside.alloc, 1),
    }
}

/// Plays a definition whose names are looked up at this look, once the line has made so many entries.
fn define_named<R: Wait, H: Reach<ColumnUnit>, G: Gate>(
    context: &Context<R, G>,
    reach: &mut H,
    statement: &Stmt,
    look: &Look,
    entries: u64,
) -> Reply
    requires session { context.now.who < NUMBERS }
    requires speaks { speaks (H.known reach.old).side context.now.who ≡ true }
    requires shut { has_own_open (H.known reach.old).log context.now.who ≡ false }
    requires idle { is_open (H.known reach.old).log context.now.who ≡ false }
    requires statement { IsStmt statement.now }
    requires definition { plan.is_definition statement.now ≡ true }
    requires look { look.now ≡ look_at (H.known reach.old).log context.now.who }
    requires lawful { IsLawful (H.known reach.old).limits (H.known reach.old).log }
    requires few { entries ≤ 1 }
    ensures { (state : State) → IsRest context.now.who entries (H.known reach.old)
        (plan.named_plan (H.known reach.old).limits context.now.who state statement.now (H.known reach.old).log) (said result) (H.known reach.new) }
{
    match resolve(context.outside.alloc, statement, look) {
        Ok(resolved) => define_resolved(context, reach, resolved, entries),
        Err(fault) => name_reply(context.outside.alloc, entries, look.place, fault),
    }
}

/// Plays a definition whose names are found, once the line has made so many entries.
fn define_resolved<R: Wait, H: Reach<ColumnUnit>, G: Gate>(
    context: &Context<R, G>,
    reach: &mut H,
    resolved: Resolved,
    entries: u64,
) -> Reply
    requires session { context.now.who < NUMBERS }
    requires speaks { speaks (H.known reach.old).side context.now.who ≡ true }
    requires shut { has_own_open (H.known reach.old).log context.now.who ≡ false }
    requires idle { is_open (H.known reach.old).log context.now.who ≡ false }
    requires definition { defines resolved ≡ true }
    requires serves { Serves (tables (H.known reach.old).log) resolved }
    requires few { entries ≤ 1 }
    ensures { (state : State) → IsRest context.now.who entries (H.known reach.old)
        (plan.resolved_plan (H.known reach.old).limits context.now.who state (H.known reach.old).log resolved) (said result) (H.known reach.new) }
{
    match resolved {
        Resolved::Create {
            name,
            schema,
            shape,
            memory,
        } => create(
            context,
            reach,
            NewTable {
                name,
                schema,
                shape,
                memory,
            },
            entries,
        ),
        Resolved::Memory { table, priority } => { alter(context, reach, table, priority, entries) }
        Resolved::AddColumn {
            table,
            column,
            default,
        } => add_column(context, reach, table, column, default, entries),
        _ => unreachable!(),
    }
}

/// Whether a statement defines a table, or changes what one is.
pub fn is_definition(statement: &Stmt) -> bool
    ensures { result ≡ plan.is_definition statement.now }
{
    matches!(
        statement,
        Stmt::Create { .. }
            | Stmt::AlterMemory { .. }
            | Stmt::AlterNoMemory { .. }
            | Stmt::AddColumn { .. }
    )
}
