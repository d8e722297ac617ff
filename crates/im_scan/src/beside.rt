ghost use Rattle.std.specs.Prelude.{◌≡◌, ◌+◌, ◌<◌, ◌≤◌, ◌^◌, length, IfOk};
ghost use Rattle.std.specs.Option.{ForSome};
ghost use Rattle.im_scan.specs.inner.Beside.{AreBeside, IsPassed, IsRising, SkipsEqual};
ghost use Rattle.im_scan.specs.inner.Steps.{as_shown};

use crate::left::are_between;
use crate::own::{has_own, shown};
use crate::pieces::lent_again;
use im_history::{LentRow, Lying, ShownRows, View};
use im_values::NoMemory;
use std::alloc::Global;

/// What stands beside a unit.
#[derive(Clone, Copy)]
pub struct RowsBeside<'a, 'b> {
    /// Each row number with its row, or none.
    pub rows: &'a [LentRow<'b>],
    /// The same as it lies in pieces, where no change of the view's own is among it.
    pub pieces: Option<Lying<'b>>,
}

/// Puts what was fetched from one place on behind others, up to the first of it whose row number is not below one: the place of
/// that.
fn put_below<'a>(
    fetched: &[LentRow<'a>],
    from: usize,
    rid: u64,
    rows: &mut Vec<LentRow<'a>>,
) -> Result<usize, NoMemory>
    requires { from ≤ length fetched.now }
    ensures { IfOk result (λ next. IsPassed fetched.now from next rid rows.old.items rows.new.items) }
{
    let mut at = from;
    while at < fetched.len() && fetched[at].0 < rid {
        rows.push(lent_again(&fetched[at]))?;
        at += 1;
    }
    Ok(at)
}

/// The place behind one whose row number is this one, and else the same place.
fn past_equal(fetched: &[LentRow<'_>], at: usize, rid: u64) -> usize
    requires { at ≤ length fetched.now }
    ensures { SkipsEqual fetched.now at rid result }
{
    if at < fetched.len() && fetched[at].0 == rid {
        at + 1
    } else {
        at
    }
}

/// What was fetched, with what the view's own changes left, as the view shows it, in its place and between.
fn merged<'a>(
    alloc: Global,
    fetched: &[LentRow<'a>],
    view: &'a View,
    first: u64,
    count: u64,
) -> Result<Vec<LentRow<'a>>, NoMemory>
    requires within { first + count < 2 ^ 64 }
    requires rising { IsRising fetched.now }
    ensures { IfOk result (λ rows. AreBeside fetched.now (as_shown view.now) first count rows.items) }
{
    let mut rows = Vec::with_capacity(alloc, fetched.len())?;
    let mut at = 0;
    for (rid, row) in view.own.between(view.table, first, count) {
        at = put_below(fetched, at, *rid, &mut rows)?;
        at = past_equal(fetched, at, *rid);
        rows.push((*rid, shown(view, row)))?;
    }
    put_below(fetched, at, first + count, &mut rows)?;
    Ok(rows)
}

/// What stands beside an extent's unit, where the view changed any of its row numbers: of each row number that was fetched or that the
/// view changed, what the view has there. None where the view changed none, and where what was fetched is not of rising row numbers
/// among these.
///
/// It costs what was fetched, a search, and those of the row numbers that the view's own changes are to. No row is shared or copied.
pub fn beside<'a>(
    alloc: Global,
    fetched: &'a ShownRows,
    view: &'a View,
    first: u64,
    count: u64,
) -> Result<Option<Vec<LentRow<'a>>>, NoMemory>
    requires { first + count < 2 ^ 64 }
    ensures { IfOk result (λ rows. ForSome rows (λ rows. AreBeside fetched.now (as_shown view.now) first count rows.items)) }
{
    if !has_own(view, first, count) {
        return Ok(None);
    }
    let read = fetched.lent(alloc)?;
    let lying = read.as_slice();
    if !are_between(lying, first, first + count) {
        return Ok(None);
    }
    let rows = merged(alloc, lying, view, first, count)?;
    Ok(Some(rows))
}
