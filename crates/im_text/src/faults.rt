ghost use Rattle.std.specs.Prelude.{[], ◌∷◌, OnOk, ◌≡◌};
ghost use Rattle.im_text.specs.Faults as spec;
ghost use Rattle.im_text.specs.inner.Pages.{IsBetween, Puts};

use crate::page::Page;
use im_replies::Fault;
use im_values::limits::{MOST_COLUMNS, MOST_CURSORS, MOST_TABLES};
use im_values::{Name, NoMemory};

/// The column of a grouped query, or its `*`.
fn column_or_star(column: &Option<Name>) -> &[u8]
    ensures { result.now ≡ spec.column_or_star column.now }
{
    match column {
        Some(name) => name.bytes(),
        None => b"*",
    }
}

/// Puts the refusal of a line.
pub fn put_fault(page: &mut Page, fault: &Fault) -> Result<(), NoMemory>
    requires { IsBetween page.old }
    ensures { OnOk result (Puts page.old page.new (spec.fault_record fault.now ∷ [])) }
{
    match fault {
        Fault::Syntax { byte } => page.refuse("01", "syntax", &[*byte]),
        Fault::LineTooLong { length } => page.refuse("02", "line-too-long", &[*length]),
        Fault::UnknownTable { name } => page.refuse_name("03", "unknown-table", name.bytes(), &[]),
        Fault::UnknownColumn { name } => page.refuse_name(
            "03",
            "unknown-column",
            name.bytes(),
            &[],
        ),
        Fault::RepeatedColumn { name } => page.refuse_name(
            "03",
            "repeated-column",
            name.bytes(),
            &[],
        ),
        Fault::WrongKind { column } => page.refuse_name("04", "wrong-kind", column.bytes(), &[]),
        Fault::WrongCount { got, wanted } => page.refuse("05", "wrong-count", &[*got, *wanted]),
        Fault::TooLong {
            column,
            length,
            limit,
        } => page.refuse_name("06", "too-long", column.bytes(), &[*length, *limit]),
        Fault::TableExists { name } => page.refuse_name("07", "table-exists", name.bytes(), &[]),
        Fault::TooManyTables => page.refuse("08", "too-many-tables", &[MOST_TABLES as u64]),
        Fault::NotGrouped { column } => page.refuse_name(
            "09",
            "not-grouped",
            column_or_star(column),
            &[],
        ),
        Fault::CursorUnknown { cursor } => page.refuse(
            "10",
            "cursor-unknown",
            &[u64::from(*cursor)],
        ),
        Fault::CursorOpen { cursor } => page.refuse("11", "cursor-open", &[u64::from(*cursor)]),
        Fault::TooManyCursors => page.refuse("12", "too-many-cursors", &[MOST_CURSORS]),
        Fault::TransactionOpen { place } => page.refuse("13", "transaction-open", &[*place]),
        Fault::ReadOnly => page.refuse("14", "read-only", &[]),
        Fault::RowLocked { row, holder } => page.refuse(
            "15",
            "row-locked",
            &[*row, u64::from(*holder)],
        ),
        Fault::CannotSerialize { row, scn } => page.refuse("16", "cannot-serialize", &[*row, *scn]),
        Fault::TooManyChanges { need, left } => page.refuse(
            "17",
            "too-many-changes",
            &[*need, *left],
        ),
        Fault::StoreFull { need, left } => page.refuse("18", "store-full", &[*need, *left]),
        Fault::NoUnit { table, extent } => page.refuse(
            "19",
            "no-unit",
            &[u64::from(*table), *extent],
        ),
        Fault::SnapshotTooOld { asked, horizon } => page.refuse(
            "20",
            "snapshot-too-old",
            &[*asked, *horizon],
        ),
        Fault::TooManyColumns => page.refuse("21", "too-many-columns", &[MOST_COLUMNS as u64]),
        Fault::TableAltered { table, place } => page.refuse(
            "22",
            "table-altered",
            &[u64::from(*table), *place],
        ),
        Fault::NoSuchScn { asked, scn } => page.refuse("23", "no-such-scn", &[*asked, *scn]),
        Fault::Memory { k } => page.refuse("99", "memory", &[*k]),
    }
}
