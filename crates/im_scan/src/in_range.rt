ghost use Rattle.std.specs.Prelude.{◌≡◌, ◌+◌, IfOk, IfSome, Some, length, map};
ghost use Rattle.std.specs.Option.{ForSome};
ghost use Rattle.im_codepred.specs.Tallies.{IsTallyOfAll};
ghost use Rattle.im_group.specs.Partials.{keeps};
ghost use Rattle.im_unit.specs.Holding.{present_rows, values_in};
ghost use Rattle.im_scan.specs.inner.Left.{IsPartOfChosen, is_left, spots_where};
ghost use Rattle.im_scan.specs.inner.Summed.{TakesTogether};

use crate::summed::{sums_by, takes_together, whole_part};
use im_codepred::{Tally, tally_where};
use im_group::{Asking, Partial};
use im_history::{LentRow, UnitLike};
use im_syntax::Filter;
use im_unit::ColumnUnit;
use im_values::NoMemory;
use std::alloc::Global;

/// What the values of one column of a unit come to in the rows of which a condition is true, where that is known without a mask.
fn kept_tally<'a>(unit: &'a ColumnUnit, filter: &Filter, column: u32) -> Option<Tally<'a>>
    ensures { IfSome result (IsTallyOfAll (map (keeps (Some filter.now)) (present_rows unit.now.rows)) (values_in column (present_rows unit.now.rows))) }
{
    let columns = unit.columns();
    if column as usize >= columns.len() {
        return None;
    }
    tally_where(filter, columns, unit.present(), column)
}

/// The part of a query that takes its rows together and asks one column, made of the rows of a unit of which its condition is true,
/// where that is known without a mask.
fn kept_part(
    alloc: Global,
    asking: &Asking<'_>,
    filter: &Filter,
    unit: &ColumnUnit,
) -> Result<Option<Partial>, NoMemory>
    requires together { TakesTogether asking.now }
    ensures { IfOk result (λ part. ForSome part (IsPartOfChosen asking.now unit.now (map (keeps (Some filter.now)) (present_rows unit.now.rows)))) }
{
    let asked = asking.asked();
    if asked.len() != 1 {
        return Ok(None);
    }
    let one = asked[0];
    let Some(tally) = kept_tally(unit, filter, one.column) else {
        return Ok(None);
    };
    let Some(found) = sums_by(alloc, one, tally)? else {
        return Ok(None);
    };
    let mut sums = Vec::with_capacity(alloc, 1)?;
    sums.push(found)?;
    let part = whole_part(alloc, asking, tally.values, sums)?;
    Ok(Some(part))
}

/// The part of what is left of a unit beside rows, where a query takes its rows together, its condition chooses a range of the codes
/// of the one column that it asks, and all of the unit is left. None elsewhere.
///
/// The codes are counted and added up: no mask is made, and no position is looked at.
pub fn part_in_range(
    alloc: Global,
    asking: &Asking<'_>,
    unit: &ColumnUnit,
    beside: &[LentRow<'_>],
    count: u64,
) -> Result<Option<Partial>, NoMemory>
    ensures { IfOk result (λ part. ForSome part
        (IsPartOfChosen asking.now unit.now (spots_where (is_left (unit.now.first + count) beside.now) (keeps asking.now.filter) unit.now.first unit.now.rows))) }
{
    if !beside.is_empty() || unit.len() > count || !takes_together(asking.bound()) {
        return Ok(None);
    }
    match &asking.bound().filter {
        Some(filter) => kept_part(alloc, asking, filter, unit),
        None => Ok(None),
    }
}
