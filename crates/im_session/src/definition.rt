ghost use Rattle.std.specs.Prelude.{◌≡◌, ◌<◌, ◌≤◌, IsTrue, Some, true, false};
ghost use Rattle.im_values.specs.Fits.{may_stand};
ghost use Rattle.im_history.specs.declared.entry.What.TheVariants as what;
ghost use Rattle.im_history.specs.Cursors.{has_own_open};
ghost use Rattle.im_history.specs.Legal.{Exists, MaySetMemory};
ghost use Rattle.im_history.specs.Transactions.{is_open};
ghost use Rattle.im_plan.specs.Plan.{End};
ghost use Rattle.im_reach.specs.Sides.{speaks};
ghost use Rattle.im_session.specs.inner.Definitions as inner;
ghost use Rattle.im_session.specs.inner.Rests.{IsRest};
ghost use Rattle.im_statements.specs.Definitions as plan;
ghost use Rattle.im_statements.specs.Outcomes.{said};
ghost use Rattle.im_statements.specs.Turns.{decide_by};

use crate::context::Context;
use crate::refusals::{out_of_memory, refused_reply};
use im_core::Made;
use im_edge::Gate;
use im_history::{Priority, Shape};
use im_reach::Reach;
use im_replies::{Aim, Body, Reply};
use im_unit::ColumnUnit;
use im_values::limits::NUMBERS;
use im_values::{Column, Name, Schema, Value};
use std::alloc::Global;
use std::sync::Wait;

/// A table that is to be created.
#[derive(Drop)]
pub struct NewTable {
    pub name: Name,
    pub schema: Schema,
    pub shape: Shape,
    /// None where the table does not join the column store.
    pub memory: Option<Priority>,
}

/// The reply of a line that created a table.
fn created(alloc: Global, made: Made) -> Reply
    ensures { result ≡ inner.created_reply made }
{
    Reply::settled(
        alloc,
        made.place,
        Body::Created {
            table: made.table,
            scn: made.scn,
        },
    )
}

/// Lets a table that was just created join the column store with a priority, once the line has made so many entries.
fn join_memory<R: Wait, H: Reach<ColumnUnit>, G: Gate>(
    context: &Context<R, G>,
    reach: &mut H,
    made: Made,
    priority: Priority,
    entries: u64,
) -> Reply
    requires session { context.now.who < NUMBERS }
    requires speaks { speaks (H.known reach.old).side context.now.who ≡ true }
    requires shut { has_own_open (H.known reach.old).log context.now.who ≡ false }
    requires may { MaySetMemory (H.known reach.old).log context.now.who made.table }
    ensures { IsRest context.now.who entries (H.known reach.old)
        (decide_by (λ here. what.Memory made.table (Some priority)) (λ here. End (said (inner.created_reply made)))) (said result)
        (H.known reach.new) }
{
    match reach.set_memory(context.outside.rt, context.who, made.table, Some(priority)) {
        Ok(_) => created(context.outside.alloc, made),
        Err(_) => out_of_memory(context.outside.alloc, entries),
    }
}

/// CREATE TABLE: creates a table, once the line has made so many entries. Where it is to join the column store, that is an
/// entry of its own behind the table's.
///
/// A table that was created stays where memory runs out before it has joined.
pub fn create<R: Wait, H: Reach<ColumnUnit>, G: Gate>(
    context: &Context<R, G>,
    reach: &mut H,
    table: NewTable,
    entries: u64,
) -> Reply
    requires session { context.now.who < NUMBERS }
    requires speaks { speaks (H.known reach.old).side context.now.who ≡ true }
    requires shut { has_own_open (H.known reach.old).log context.now.who ≡ false }
    requires idle { is_open (H.known reach.old).log context.now.who ≡ false }
    requires few { entries ≤ 1 }
    ensures { IsRest context.now.who entries (H.known reach.old) (plan.create_table table.name table.schema table.shape table.memory)
        (said result) (H.known reach.new) }
{
    let NewTable {
        name,
        schema,
        shape,
        memory,
    } = table;
    let Ok(told) = name.copy(context.outside.alloc) else {
        drop(name);
        drop(schema);
        return out_of_memory(context.outside.alloc, entries);
    };
    match reach.create(context.outside.rt, context.who, name, schema, shape) {
        Ok(made) => {
            drop(told);
            match memory {
                None => created(context.outside.alloc, made),
                Some(priority) => join_memory(context, reach, made, priority, entries + 1),
            }
        }
        Err(refused) => refused_reply(
            context.outside.alloc,
            Aim::Creating { name: told },
            entries,
            refused,
        ),
    }
}

/// ALTER TABLE ADD: adds a column to a table, once the line has made so many entries.
pub fn add_column<R: Wait, H: Reach<ColumnUnit>, G: Gate>(
    context: &Context<R, G>,
    reach: &mut H,
    table: u32,
    column: Column,
    default: Value,
    entries: u64,
) -> Reply
    requires session { context.now.who < NUMBERS }
    requires speaks { speaks (H.known reach.old).side context.now.who ≡ true }
    requires shut { has_own_open (H.known reach.old).log context.now.who ≡ false }
    requires exists { Exists (H.known reach.old).log table }
    requires idle { is_open (H.known reach.old).log context.now.who ≡ false }
    requires fits { IsTrue (may_stand column.kind default) }
    ensures { IsRest context.now.who entries (H.known reach.old) (plan.add_column table column default) (said result) (H.known reach.new) }
{
    let Ok(told) = column.name.copy(context.outside.alloc) else {
        drop(column);
        drop(default);
        return out_of_memory(context.outside.alloc, entries);
    };
    match reach.add_column(context.outside.rt, context.who, table, column, default) {
        Ok(added) => {
            drop(told);
            Reply::settled(context.outside.alloc, added.place, Body::Altered { table })
        }
        Err(refused) => refused_reply(
            context.outside.alloc,
            Aim::Adding { name: told },
            entries,
            refused,
        ),
    }
}

/// ALTER TABLE: lets a table join the column store with a priority, or leave it where none is given, once the line has made so
/// many entries.
pub fn alter<R: Wait, H: Reach<ColumnUnit>, G: Gate>(
    context: &Context<R, G>,
    reach: &mut H,
    table: u32,
    priority: Option<Priority>,
    entries: u64,
) -> Reply
    requires session { context.now.who < NUMBERS }
    requires speaks { speaks (H.known reach.old).side context.now.who ≡ true }
    requires shut { has_own_open (H.known reach.old).log context.now.who ≡ false }
    requires may { MaySetMemory (H.known reach.old).log context.now.who table }
    ensures { IsRest context.now.who entries (H.known reach.old) (plan.alter_table table priority) (said result) (H.known reach.new) }
{
    match reach.set_memory(context.outside.rt, context.who, table, priority) {
        Ok(place) => Reply::settled(context.outside.alloc, place, Body::Altered { table }),
        Err(_) => out_of_memory(context.outside.alloc, entries),
    }
}
