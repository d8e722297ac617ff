ghost use Rattle.std.specs.Prelude.{◌≡◌, ◌^◌, ◌<◌, ◌≤◌, IfOk, length, map, slice_set, true, if◌then◌else◌};
ghost use Rattle.std.specs.Bool.{OnTrue};
ghost use Rattle.std.specs.List.{AllByRecursion};
ghost use Rattle.std.specs.Option.{ForSome};
ghost use Rattle.im_group.specs.Partials.{keeps};
ghost use Rattle.im_syntax.specs.BoundFits.{FilterFits};
ghost use Rattle.im_unit.specs.Holding.{count_present, present_rows};
ghost use Rattle.im_scan.specs.Faces.{unit_of};
ghost use Rattle.im_scan.specs.Parts.{MayAsk};
ghost use Rattle.im_scan.specs.inner.Walk.{AreByPlace, AreKept, BeginsBy, IsNext, is_kept, unit_in};

use crate::faces::Face;
use im_codepred::select;
use im_history::UnitLike;
use im_lanes::Mask;
use im_syntax::{Bound, Filter};
use im_unit::ColumnUnit;
use im_values::NoMemory;
use std::alloc::Global;

/// A column unit, and where the condition of a query keeps its rows: a position for each of its row numbers, from the first one on.
#[derive(Drop)]
pub struct Kept<'a> {
    pub unit: &'a ColumnUnit,
    pub places: Mask,
}

/// The first chosen position from one on and below another. It costs the words between.
pub fn next_chosen(mask: &Mask, from: u64, end: u64) -> Option<u64>
    requires { end ≤ length mask.now }
    ensures { IsNext mask.now from end result }
{
    let words = mask.words();
    let mut at = from;
    while at < end {
        let rest = words[(at / 64) as usize] >> (at % 64);
        if rest != 0 {
            let next = at + u64::from(rest.trailing_zeros());
            return (next < end).then_some(next);
        }
        at = (at / 64 + 1) * 64;
    }
    None
}

/// Of which of the rows that are present in a unit a condition is true.
pub fn kept_spots(
    alloc: Global,
    unit: &ColumnUnit,
    filter: &Option<Filter>,
) -> Result<Mask, NoMemory>
    requires { AllByRecursion (λ row. ForSome row (λ values. ForSome filter.now (FilterFits values))) unit.now.rows }
    ensures { IfOk result (λ mask. mask ≡ map (keeps filter.now) (present_rows unit.now.rows)) }
{
    let present = unit.present();
    match filter {
        Some(filter) => Ok(select(alloc, filter, unit.columns(), present)?),
        None => Ok(Mask::all(alloc, present)?),
    }
}

/// Chooses a place that was not chosen, where its row is.
fn choose(places: &mut Mask, place: u64, chosen: bool)
    requires { place < length places.old }
    ensures { places.new ≡ (if chosen then slice_set places.old place true else places.old) }
{
    if chosen {
        places.set(place);
    }
}

/// What was chosen of the rows that are present, by the places of all rows.
fn by_place(alloc: Global, unit: &ColumnUnit, spots: &Mask) -> Result<Mask, NoMemory>
    requires { length spots.now ≡ count_present unit.now.rows }
    ensures { IfOk result (λ places. AreByPlace unit.now.rows spots.now places) }
{
    let len = unit.len();
    let mut places = Mask::none(alloc, len)?;
    let mut spot = 0;
    for place in 0..len {
        if unit.is_present(place) {
            choose(&mut places, place, spots.get(spot));
            spot += 1;
        }
    }
    Ok(places)
}

/// Where a condition keeps the rows of a unit.
fn kept_places(alloc: Global, unit: &ColumnUnit, filter: &Option<Filter>) -> Result<Mask, NoMemory>
    requires { AllByRecursion (λ row. ForSome row (λ values. ForSome filter.now (FilterFits values))) unit.now.rows }
    ensures { IfOk result (λ places. places ≡ map (is_kept filter.now) unit.now.rows) }
{
    let spots = kept_spots(alloc, unit, filter)?;
    if unit.is_full() {
        return Ok(spots);
    }
    let places = by_place(alloc, unit, &spots)?;
    Ok(places)
}

/// What is gone over of a unit: nothing where it is pruned or there is none.
///
/// The condition is asked of the columns, once of each value of a dictionary and once of each run.
pub fn kept_in<'a>(
    alloc: Global,
    face: Face<'a>,
    bound: &Bound,
) -> Result<Option<Kept<'a>>, NoMemory>
    requires { ForSome (unit_of face) (λ content. AllByRecursion (MayAsk bound.now) content.rows) }
    ensures unit { IfOk result (λ kept. unit_in kept ≡ unit_of face.entry) }
    ensures kept { IfOk result (AreKept bound.now.filter) }
{
    match face {
        Face::Whole(unit) => {
            let places = kept_places(alloc, unit, &bound.filter)?;
            Ok(Some(Kept { unit, places }))
        }
        Face::Edges(_) | Face::Bare => Ok(None),
    }
}

/// Whether the unit, if one is gone over, does not begin behind a row number.
pub fn begins_by(kept: &Option<Kept<'_>>, first: u64) -> bool
    ensures { OnTrue result (BeginsBy first kept.now) }
{
    match kept {
        Some(kept) => kept.unit.first() <= first,
        None => true,
    }
}
