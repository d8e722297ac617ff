ghost use Rattle.std.specs.Prelude.{◌≡◌, ◌+◌, ◌<◌, ◌^◌, false, OnOk};
ghost use Rattle.im_history.specs.Views as views;
ghost use Rattle.im_scan.specs.inner.Steps.{ArePutBehind, IsUnchanged, as_shown};

use im_history::{LentRow, View, wide_values};
use im_values::{NoMemory, Row, RowValues};

/// Whether the view's own changes are to any of so many row numbers from the first on.
///
/// It costs a search.
pub fn has_own(view: &View, first: u64, count: u64) -> bool
    requires { first + count < 2 ^ 64 }
    ensures { result ≡ false → IsUnchanged (as_shown view.now) first count }
{
    match view.own.between(view.table, first, count).next() {
        Some(_) => true,
        None => false,
    }
}

/// What a change of a view's own left, lent as the view shows it: a row that was written before the last of the view's columns were
/// there has their defaults.
pub fn shown<'a>(view: &'a View, row: &'a Option<Row>) -> Option<RowValues<'a>>
    ensures { result ≡ views.shown view.now row.now }
{
    wide_values(row, view.defaults.values())
}

/// Puts what the view's own changes left at so many row numbers from the first on behind other rows, lent as the view shows it.
///
/// It costs those of the row numbers that the view's own changes are to.
pub fn put_own<'a>(
    rows: &mut Vec<LentRow<'a>>,
    view: &'a View,
    first: u64,
    count: u64,
) -> Result<(), NoMemory>
    requires { first + count < 2 ^ 64 }
    ensures { OnOk result (ArePutBehind (as_shown view.now) first count rows.old.items rows.new.items) }
{
    for (rid, row) in view.own.between(view.table, first, count) {
        rows.push((*rid, shown(view, row)))?;
    }
    Ok(())
}
