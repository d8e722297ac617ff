ghost use Rattle.std.specs.Prelude.{◌≡◌, IfOk};
ghost use Rattle.im_history.specs.Puts.{all_changes};
ghost use Rattle.im_history.specs.declared.member.Member.TheVariants as member;

use crate::changes::Changes;
use crate::shape::Shape;
use im_values::{Column, Name, NoMemory, Schema, Value};
use std::alloc::Global;
use std::marker::Model;

/// What one commit did to the store. The members of a history, in order, are all that a second store needs to have its rows.
#[derive(Drop)]
pub enum Member {
    /// A table was created. Tables are numbered from 1 in this order.
    Create {
        name: Name,
        schema: Schema,
        shape: Shape,
    },
    /// A table got one more column, behind those that it had. The rows that were written before have the default in it.
    Add {
        table: u32,
        column: Column,
        default: Value,
    },
    /// A session's changes, in the order in which it wrote them.
    Changes(AllChanges),
}

impl Member {
    /// The creation of a table. The schema is shared.
    pub(crate) fn created(
        alloc: Global,
        name: &Name,
        schema: &Schema,
        shape: Shape,
    ) -> Result<Member, NoMemory>
        ensures { IfOk result (λ made. made ≡ member.Create name.now schema.now shape) }
    {
        Ok(Member::Create {
            name: name.copy(alloc)?,
            schema: schema.share()?,
            shape,
        })
    }

    /// The addition of a column to a table.
    pub(crate) fn added(
        alloc: Global,
        table: u32,
        column: &Column,
        default: &Value,
    ) -> Result<Member, NoMemory>
        ensures { IfOk result (λ made. made ≡ member.Add table column.now default.now) }
    {
        Ok(Member::Add {
            table,
            column: column.copy(alloc)?,
            default: default.copy(alloc)?,
        })
    }
}

/// All changes of a commit, as they were written.
///
/// Contracts see the list of the changes.
#[derive(Drop)]
pub struct AllChanges {
    writes: Vec<Changes>,
}

impl Model for AllChanges {
    ghost use Rattle.std.specs.Prelude.{List};
    ghost use Rattle.im_history.specs.declared.change.Change.{Change as AnyChange};

    ghost Value = { List AnyChange };

    ghost use Rattle.im_history.specs.Puts.{all_changes};

    ghost view = { λ c. all_changes c.writes.items };
}

impl AllChanges {
    /// The changes of these writes, those of the first write first. It takes no memory.
    pub fn of(writes: Vec<Changes>) -> AllChanges
        ensures { result ≡ all_changes writes.items }
    {
        AllChanges { writes }
    }

    /// The writes that they came in, the first one first.
    pub fn writes(&self) -> &[Changes]
        ensures { all_changes result.now ≡ self.now }
    {
        self.writes.as_slice()
    }
}
