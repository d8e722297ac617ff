ghost use Rattle.std.specs.Prelude.{◌≡◌, ◌+◌, ◌-◌, ◌<◌, ◌≤◌, ◌^◌, Some, true, map, IfOk, OnOk};
ghost use Rattle.std.specs.List.{AllByRecursion};
ghost use Rattle.std.specs.Option.{ForSome};
ghost use Rattle.im_history.specs.Rows.{present};
ghost use Rattle.im_group.specs.Partials as group;
ghost use Rattle.im_unit.specs.Holding as holding;
ghost use Rattle.im_scan.specs.Parts.{MayAsk, row_in_unit};
ghost use Rattle.im_scan.specs.inner.Steps.{GoesOnBy, numbered};
ghost use Rattle.im_scan.specs.inner.Walk.{AreKept, BeginsBy, IsPartTo, is_kept, standing, unit_in};

use crate::kept::{Kept, next_chosen};
use crate::parts::take_row;
use im_group::{Asking, Partial};
use im_history::LentRow;
use im_unit::ColumnUnit;
use im_values::{NoMemory, RowValues, Value};
use std::alloc::Global;

/// The part of a grouped query takes a row of a unit that is kept. It is read into a list that is lent.
fn take_read(
    alloc: Global,
    asking: &Asking<'_>,
    unit: &ColumnUnit,
    rid: u64,
    values: &mut Vec<Value>,
    part: &mut Partial,
) -> Result<(), NoMemory>
    requires kept { is_kept asking.now.filter (holding.row_of unit.now rid) ≡ true }
    requires fits { MayAsk asking.now (holding.row_of unit.now rid) }
    requires few { group.IsPartOfFew asking.now part.old }
    ensures { OnOk result (GoesOnBy asking.now part.old (numbered rid (holding.row_of unit.now rid)) part.new) }
{
    if unit.read(alloc, rid, values)? {
        part.take_kept(alloc, asking, rid, &RowValues::of(values.as_slice()))?;
    }
    Ok(())
}

/// The part of a query that keeps rows takes one of a unit: a copy that is handed over.
fn take_copy(
    alloc: Global,
    asking: &Asking<'_>,
    unit: &ColumnUnit,
    rid: u64,
    part: &mut Partial,
) -> Result<(), NoMemory>
    requires kept { is_kept asking.now.filter (holding.row_of unit.now rid) ≡ true }
    requires fits { MayAsk asking.now (holding.row_of unit.now rid) }
    requires few { group.IsPartOfFew asking.now part.old }
    ensures { OnOk result (GoesOnBy asking.now part.old (numbered rid (holding.row_of unit.now rid)) part.new) }
{
    if let Some(row) = unit.get(alloc, rid)? {
        part.take_made(alloc, asking, rid, row)?;
    }
    Ok(())
}

/// The part takes a row of a unit that is kept. The condition is not asked again.
fn take_chosen(
    alloc: Global,
    asking: &Asking<'_>,
    unit: &ColumnUnit,
    rid: u64,
    values: &mut Vec<Value>,
    part: &mut Partial,
) -> Result<(), NoMemory>
    requires kept { is_kept asking.now.filter (holding.row_of unit.now rid) ≡ true }
    requires fits { MayAsk asking.now (holding.row_of unit.now rid) }
    requires few { group.IsPartOfFew asking.now part.old }
    ensures { OnOk result (GoesOnBy asking.now part.old (numbered rid (holding.row_of unit.now rid)) part.new) }
{
    if asking.bound().grouped {
        take_read(alloc, asking, unit, rid, values, part)
    } else {
        take_copy(alloc, asking, unit, rid, part)
    }
}

/// The part takes what a condition keeps of a unit at row numbers from one on and below another.
fn take_stretch(
    alloc: Global,
    asking: &Asking<'_>,
    kept: &Kept<'_>,
    from: u64,
    end: u64,
    values: &mut Vec<Value>,
    part: &mut Partial,
) -> Result<(), NoMemory>
    requires begins { kept.now.unit.now.first ≤ from }
    requires order { from ≤ end }
    requires kept { kept.now.places ≡ map (is_kept asking.now.filter) kept.now.unit.now.rows }
    requires fits { AllByRecursion (MayAsk asking.now) kept.now.unit.now.rows }
    requires few { IsPartTo asking.now from part.old }
    ensures { OnOk result (GoesOnBy asking.now part.old (present (holding.row_of kept.now.unit.now) from (end - from)) part.new) }
{
    let first = kept.unit.first();
    let past = kept.places.len().min(end - first);
    let mut at = from - first;
    while let Some(place) = next_chosen(&kept.places, at, past) {
        take_chosen(alloc, asking, kept.unit, first + place, values, part)?;
        at = place + 1;
    }
    Ok(())
}

/// The same where nothing may be gone over of a unit.
fn take_unit(
    alloc: Global,
    asking: &Asking<'_>,
    kept: &Option<Kept<'_>>,
    from: u64,
    end: u64,
    values: &mut Vec<Value>,
    part: &mut Partial,
) -> Result<(), NoMemory>
    requires begins { BeginsBy from kept.now }
    requires order { from ≤ end }
    requires kept { AreKept asking.now.filter kept.now }
    requires fits { ForSome (unit_in kept.now) (λ content. AllByRecursion (MayAsk asking.now) content.rows) }
    requires few { IsPartTo asking.now from part.old }
    ensures { OnOk result (GoesOnBy asking.now part.old (present (row_in_unit (unit_in kept.now)) from (end - from)) part.new) }
{
    match kept {
        Some(kept) => take_stretch(alloc, asking, kept, from, end, values, part),
        None => Ok(()),
    }
}

/// What so many row numbers from the first on give: the rows beside the unit, and where none is beside it, what is kept of the unit.
///
/// It goes once over the rows beside the unit and the chosen places between them. None where the rows beside it are not of rising
/// row numbers, each one of these.
pub fn walked(
    alloc: Global,
    asking: &Asking<'_>,
    kept: &Option<Kept<'_>>,
    beside: &[LentRow<'_>],
    first: u64,
    count: u64,
) -> Result<Option<Partial>, NoMemory>
    requires within { first + count < 2 ^ 64 }
    requires begins { BeginsBy first kept.now }
    requires kept { AreKept asking.now.filter kept.now }
    requires fits { ForSome (unit_in kept.now) (λ content. AllByRecursion (MayAsk asking.now) content.rows) }
    requires beside_fits { AllByRecursion (λ row. MayAsk asking.now row.1) beside.now }
    ensures { IfOk result (λ part. ForSome part (λ part.
        part ≡ group.partial asking.now (present (standing (unit_in kept.now) beside.now) first count))) }
{
    let end = first + count;
    let mut part = Partial::new(alloc, asking)?;
    let mut values = Vec::new(alloc);
    let mut from = first;
    for (rid, row) in beside {
        if *rid < from || *rid >= end {
            return Ok(None);
        }
        take_unit(alloc, asking, kept, from, *rid, &mut values, &mut part)?;
        take_row(alloc, asking, *rid, row, &mut part)?;
        from = *rid + 1;
    }
    take_unit(alloc, asking, kept, from, end, &mut values, &mut part)?;
    Ok(Some(part))
}
