ghost use Rattle.std.specs.Prelude.{◌≡◌, ◌+◌, ◌<◌, ◌^◌, IfOk, OnOk, Some, length, true};
ghost use Rattle.std.specs.Bool.{OnTrue};
ghost use Rattle.std.specs.List.{AllByRecursion};
ghost use Rattle.std.specs.Option.{ForSome};
ghost use Rattle.im_history.specs.Rows.{present};
ghost use Rattle.im_group.specs.Partials as group;
ghost use Rattle.im_group.specs.Partials.{keeps};
ghost use Rattle.im_unit.specs.Holding.{count_present};
ghost use Rattle.im_scan.specs.Parts.{MayAsk};
ghost use Rattle.im_scan.specs.inner.Lying.{LieIn};
ghost use Rattle.im_scan.specs.inner.Left.{IsPartOfChosen, is_left, spots_where};
ghost use Rattle.im_scan.specs.inner.Pieces.{HasRoomFor, numbered_all};
ghost use Rattle.im_scan.specs.inner.Steps.{GoesOnBy};
ghost use Rattle.im_scan.specs.inner.Walk.{standing};

use crate::beside::RowsBeside;
use crate::by_code::{coded, coded_key};
use crate::in_place::take_pieces;
use crate::in_range::part_in_range;
use crate::left::{are_between, left_spots};
use crate::parts::take_row;
use crate::summed::{takes_together, together};
use im_group::{Asking, Partial};
use im_history::LentRow;
use im_lanes::Mask;
use im_syntax::Bound;
use im_unit::ColumnUnit;
use im_values::NoMemory;
use std::alloc::Global;

/// Whether the columns of a unit answer a query without a row of it.
fn is_by_columns(bound: &Bound, unit: &ColumnUnit) -> bool
    ensures { OnTrue result (bound.now.grouped ≡ true) }
{
    if takes_together(bound) {
        return true;
    }
    coded_key(bound, unit).is_some()
}

/// The part of the chosen rows of a unit, made of its columns. None where they do not answer the query.
fn chosen_part(
    alloc: Global,
    asking: &Asking<'_>,
    unit: &ColumnUnit,
    spots: &Mask,
) -> Result<Option<Partial>, NoMemory>
    requires { length spots.now ≡ count_present unit.now.rows }
    ensures { IfOk result (λ part. ForSome part (IsPartOfChosen asking.now unit.now spots.now)) }
{
    if takes_together(asking.bound()) {
        together(alloc, asking, unit, spots)
    } else {
        coded(alloc, asking, unit, spots)
    }
}

/// The part takes lent rows, one by one. They stay where they are.
fn take_lent(
    alloc: Global,
    asking: &Asking<'_>,
    rows: &[LentRow<'_>],
    part: &mut Partial,
) -> Result<(), NoMemory>
    requires fits { AllByRecursion (λ row. MayAsk asking.now row.1) rows.now }
    requires few { HasRoomFor asking.now (length rows.now) part.old }
    ensures { OnOk result (GoesOnBy asking.now part.old (numbered_all rows.now) part.new) }
{
    for (rid, row) in rows {
        take_row(alloc, asking, *rid, row, part)?;
    }
    Ok(())
}

/// The part takes the rows that stand beside a unit: those of a piece together, where they lie in pieces.
fn take_beside(
    alloc: Global,
    asking: &Asking<'_>,
    beside: RowsBeside<'_, '_>,
    part: &mut Partial,
) -> Result<(), NoMemory>
    requires lie { LieIn beside }
    requires fits { AllByRecursion (λ row. MayAsk asking.now row.1) beside.rows.now }
    requires few { HasRoomFor asking.now (length beside.rows.now) part.old }
    ensures { OnOk result (GoesOnBy asking.now part.old (numbered_all beside.entry.rows.now) part.new) }
{
    match beside.pieces {
        Some(pieces) => take_pieces(alloc, asking, pieces, part),
        None => take_lent(alloc, asking, beside.rows, part),
    }
}

/// The part of what is left of a unit beside rows, made of its columns. None where they do not answer the query.
fn unit_part(
    alloc: Global,
    asking: &Asking<'_>,
    unit: &ColumnUnit,
    beside: &[LentRow<'_>],
    count: u64,
) -> Result<Option<Partial>, NoMemory>
    requires { AllByRecursion (MayAsk asking.now) unit.now.rows }
    ensures { IfOk result (λ part. ForSome part
        (IsPartOfChosen asking.now unit.now (spots_where (is_left (unit.now.first + count) beside.now) (keeps asking.now.filter) unit.now.first unit.now.rows))) }
{
    if let Some(part) = part_in_range(alloc, asking, unit, beside, count)? {
        return Ok(Some(part));
    }
    let spots = left_spots(alloc, unit, &asking.bound().filter, beside, count)?;
    chosen_part(alloc, asking, unit, &spots)
}

/// What so many row numbers from the first of a unit on give to a query that is grouped: what is left of the unit, by its columns, and
/// then the rows beside it.
fn left_part(
    alloc: Global,
    asking: &Asking<'_>,
    unit: &ColumnUnit,
    beside: RowsBeside<'_, '_>,
    count: u64,
) -> Result<Option<Partial>, NoMemory>
    requires grouped { asking.now.grouped ≡ true }
    requires within { unit.now.first + count < 2 ^ 64 }
    requires fits { AllByRecursion (MayAsk asking.now) unit.now.rows }
    requires lie { LieIn beside }
    requires beside_fits { AllByRecursion (λ row. MayAsk asking.now row.1) beside.rows.now }
    ensures { IfOk result (λ part. ForSome part (λ part.
        part ≡ group.partial asking.now (present (standing (Some unit.now) beside.entry.rows.now) unit.now.first count))) }
{
    let first = unit.first();
    if !are_between(beside.rows, first, first + count) {
        return Ok(None);
    }
    let Some(mut part) = unit_part(alloc, asking, unit, beside.rows, count)? else {
        return Ok(None);
    };
    take_beside(alloc, asking, beside, &mut part)?;
    Ok(Some(part))
}

/// What so many row numbers from the first on give to a query that the columns of a unit answer: what stands beside the unit, and
/// else what the unit has. None for any other query, where the rows beside the unit are not of rising row numbers among these, and
/// where the unit begins elsewhere.
///
/// Of the unit not one row is read. The rows beside it are taken behind what is left of it: what a grouped query takes has no order.
pub fn column_part(
    alloc: Global,
    asking: &Asking<'_>,
    unit: &ColumnUnit,
    beside: RowsBeside<'_, '_>,
    first: u64,
    count: u64,
) -> Result<Option<Partial>, NoMemory>
    requires within { first + count < 2 ^ 64 }
    requires fits { AllByRecursion (MayAsk asking.now) unit.now.rows }
    requires lie { LieIn beside }
    requires beside_fits { AllByRecursion (λ row. MayAsk asking.now row.1) beside.rows.now }
    ensures { IfOk result (λ part. ForSome part (λ part.
        part ≡ group.partial asking.now (present (standing (Some unit.now) beside.entry.rows.now) first count))) }
{
    if unit.first() != first || !is_by_columns(asking.bound(), unit) {
        return Ok(None);
    }
    left_part(alloc, asking, unit, beside, count)
}
