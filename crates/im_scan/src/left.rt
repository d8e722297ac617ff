ghost use Rattle.std.specs.Prelude.{◌≡◌, ◌+◌, ◌<◌, ◌^◌, IfOk, OnOk, length, map, take};
ghost use Rattle.std.specs.Bool.{OnTrue};
ghost use Rattle.std.specs.List.{AllByRecursion};
ghost use Rattle.std.specs.Option.{ForSome};
ghost use Rattle.im_group.specs.Partials.{keeps};
ghost use Rattle.im_syntax.specs.BoundFits.{FilterFits};
ghost use Rattle.im_unit.specs.Holding.{count_present, present_rows, spot_of};
ghost use Rattle.im_scan.specs.inner.Left.{AreBetween, cut_at, is_left, spots_where, without, without_all};

use crate::kept::kept_spots;
use im_history::{LentRow, UnitLike};
use im_lanes::Mask;
use im_syntax::Filter;
use im_unit::ColumnUnit;
use im_values::NoMemory;
use std::alloc::Global;

/// Whether the row numbers of rows rise from one on and stay below another.
pub fn are_between(rows: &[LentRow<'_>], first: u64, end: u64) -> bool
    requires { end < 2 ^ 64 }
    ensures { OnTrue result (AreBetween first end rows.now) }
{
    let mut low = first;
    for (rid, _) in rows {
        if *rid < low || *rid >= end {
            return false;
        }
        low = *rid + 1;
    }
    true
}

/// Chooses no longer the row at a row number, where one is present.
fn hide(unit: &ColumnUnit, rid: u64, spots: &mut Mask)
    requires { length spots.old ≡ count_present unit.now.rows }
    ensures { spots.new ≡ without (spot_of unit.now rid) spots.old }
{
    if let Some(spot) = unit.spot(rid) {
        spots.clear(spot);
    }
}

/// Chooses no longer the rows in whose place others stand.
fn hide_all(unit: &ColumnUnit, beside: &[LentRow<'_>], spots: &mut Mask)
    requires { length spots.old ≡ count_present unit.now.rows }
    ensures { spots.new ≡ without_all unit.now beside.now spots.old }
{
    for (rid, _) in beside {
        hide(unit, *rid, spots);
    }
}

/// Chooses no longer the rows behind so many row numbers. It costs the words of the mask, and none where no row is present there.
fn hide_past(alloc: Global, unit: &ColumnUnit, count: u64, spots: &mut Mask) -> Result<(), NoMemory>
    requires { length spots.old ≡ count_present unit.now.rows }
    ensures { OnOk result (spots.new ≡ cut_at (count_present (take count unit.now.rows)) spots.old) }
{
    if unit.len() <= count {
        return Ok(());
    }
    let below = unit.before(count);
    let len = spots.len();
    if below >= len {
        return Ok(());
    }
    let mut first = Mask::none(alloc, len)?;
    first.fill(0, below);
    spots.and_with(&first);
    Ok(())
}

/// Which of the rows that are present in a unit are left to be taken: those at its first row numbers, so many, in whose place no other
/// stands, and of which a condition is true.
pub fn left_spots(
    alloc: Global,
    unit: &ColumnUnit,
    filter: &Option<Filter>,
    beside: &[LentRow<'_>],
    count: u64,
) -> Result<Mask, NoMemory>
    requires { AllByRecursion (λ row. ForSome row (λ values. ForSome filter.now (FilterFits values))) unit.now.rows }
    ensures { IfOk result (λ spots.
        spots ≡ spots_where (is_left (unit.now.first + count) beside.now) (keeps filter.now) unit.now.first unit.now.rows) }
{
    let mut spots = kept_spots(alloc, unit, filter)?;
    hide_past(alloc, unit, count, &mut spots)?;
    hide_all(unit, beside, &mut spots);
    Ok(spots)
}
