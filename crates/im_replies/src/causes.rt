ghost use Rattle.std.specs.Prelude.{◌≡◌};
ghost use Rattle.im_replies.specs.declared.aim.Aim.TheVariants as aims;
ghost use Rattle.im_replies.specs.Causes as spec;

use crate::aim::Aim;
use crate::fault::Fault;
use im_history::Why;
use im_names::NameFault;

/// The fault of a call that was refused for a cause that names nothing of what it was to do.
fn plain(cause: Why) -> Fault
    ensures { result ≡ spec.fault_of aims.Plain cause }
{
    match cause {
        Why::TooManyTables => Fault::TooManyTables,
        Why::TooManyColumns => Fault::TooManyColumns,
        Why::TransactionOpen { place } => Fault::TransactionOpen { place },
        Why::ReadOnly => Fault::ReadOnly,
        Why::TooManyCursors => Fault::TooManyCursors,
        Why::NoSuchScn { asked, scn } => Fault::NoSuchScn { asked, scn },
        Why::SnapshotTooOld { asked, horizon } => Fault::SnapshotTooOld { asked, horizon },
        Why::RowLocked { row, holder } => Fault::RowLocked { row, holder },
        Why::Serialize { row, scn } => Fault::CannotSerialize { row, scn },
        Why::TooManyChanges { need, left } => Fault::TooManyChanges { need, left },
        Why::StoreFull { need, left } => Fault::StoreFull { need, left },
        Why::TableExists { .. }
        | Why::ColumnExists
        | Why::Altered { .. }
        | Why::CursorOpen
        | Why::NoUnit
        | Why::NoMemory => Fault::Memory { k: 0 },
    }
}

impl Fault {
    /// The fault of a call that was to do this, and was refused for this cause.
    pub fn of(aim: Aim, cause: Why) -> Fault
        ensures { result ≡ spec.fault_of aim cause }
    {
        match aim {
            Aim::Creating { name } => match cause {
                Why::TableExists { .. } => Fault::TableExists { name },
                cause => plain(cause),
            },
            Aim::Adding { name } => match cause {
                Why::ColumnExists => Fault::RepeatedColumn { name },
                cause => plain(cause),
            },
            Aim::Opening { table, cursor } => match cause {
                Why::Altered { place } => Fault::TableAltered { table, place },
                Why::CursorOpen => Fault::CursorOpen { cursor },
                cause => plain(cause),
            },
            Aim::Inserting { table } => match cause {
                Why::Altered { place } => Fault::TableAltered { table, place },
                cause => plain(cause),
            },
            Aim::Evicting { table, extent } => match cause {
                Why::NoUnit => Fault::NoUnit { table, extent },
                cause => plain(cause),
            },
            Aim::Plain => plain(cause),
        }
    }
}

impl From<NameFault> for Fault {
    ghost from_gives = { λ cause fault. fault ≡ spec.name_fault cause };

    fn from(cause: NameFault) -> Fault {
        match cause {
            NameFault::UnknownTable { name } => Fault::UnknownTable { name },
            NameFault::UnknownColumn { name } => Fault::UnknownColumn { name },
            NameFault::RepeatedColumn { name } => Fault::RepeatedColumn { name },
            NameFault::WrongCount { got, wanted } => Fault::WrongCount { got, wanted },
            NameFault::WrongKind { column } => Fault::WrongKind { column },
            NameFault::TooLong {
                column,
                length,
                limit,
            } => Fault::TooLong {
                column,
                length,
                limit,
            },
            NameFault::NotGrouped { column } => Fault::NotGrouped { column },
            NameFault::NoMemory => Fault::Memory { k: 0 },
        }
    }
}
