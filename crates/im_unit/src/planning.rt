ghost use Rattle.std.specs.Prelude.{◌≡◌, ◌+◌, ◌++◌, ◌^◌, ◌<◌, ◌∷◌, [], IfOk, List, OnOk, Some, None, length, if◌then◌else◌};
ghost use Rattle.im_history.specs.Rows.{Row};
ghost use Rattle.im_unit.specs.Holding.{present_rows};
ghost use Rattle.im_unit.specs.Rebuilt.{RiseWithin, rows_with};
ghost use Rattle.im_unit.specs.inner.Planned.{Planned, places_in, stock};

use crate::unit::ColumnUnit;
use im_history::{LentRow, UnitLike};
use im_values::NoMemory;
use std::alloc::Global;

/// Where the rows of a unit stand that is built anew: the place of each that is present, where the present rows of the old unit
/// come first, and those that were fetched behind them.
///
/// It costs a step for each row number.
pub fn planned(
    alloc: Global,
    old: &ColumnUnit,
    fetched: &[LentRow<'_>],
) -> Result<Vec<Option<u32>>, NoMemory>
    requires { RiseWithin old.now.first (old.now.first + length old.now.rows) fetched.now }
    ensures planned { IfOk result (λ slots.
        Planned (stock old.now.rows fetched.now) slots.items (rows_with fetched.now old.now.first old.now.rows)) }
    ensures few { IfOk result (λ slots. length slots.items < 2 ^ 31) }
{
    let _ = old.len();
    let mut slots = slots_before(alloc, old)?;
    put_fetched(&mut slots, old, fetched);
    Ok(slots)
}

/// A place, where there is a row.
fn slot_of(is_there: bool, place: u32) -> Option<u32>
    ensures { result ≡ (if is_there then Some place else None) }
{
    if is_there { Some(place) } else { None }
}

/// Where the rows of a unit stand among those that are present.
fn slots_before(alloc: Global, old: &ColumnUnit) -> Result<Vec<Option<u32>>, NoMemory>
    ensures { IfOk result (λ slots. (more : List Row) → Planned (present_rows old.now.rows ++ more) slots.items old.now.rows) }
{
    let mut slots = Vec::with_capacity(alloc, old.len() as usize)?;
    let mut count = 0;
    for place in 0..old.len() {
        let is_present = old.is_present(place);
        slots.push(slot_of(is_present, count))?;
        count += u32::from(is_present);
    }
    Ok(slots)
}

/// Puts the place of each fetched row, or none, in place of what stands at its row number.
fn put_fetched(slots: &mut Vec<Option<u32>>, old: &ColumnUnit, fetched: &[LentRow<'_>])
    requires within { RiseWithin old.now.first (old.now.first + length old.now.rows) fetched.now }
    requires before { (more : List Row) → Planned (present_rows old.now.rows ++ more) slots.old.items old.now.rows }
    ensures { Planned (stock old.now.rows fetched.now) slots.new.items (rows_with fetched.now old.now.first old.now.rows) }
{
    let _ = old.len();
    let first = old.first();
    let mut place = old.present() as u32;
    for i in 0..fetched.len() {
        let (rid, row) = &fetched[i];
        slots[(*rid - first) as usize] = slot_of(row.is_some(), place);
        place += u32::from(row.is_some());
    }
}

/// Puts the place of a slot, where it has one, behind others.
fn put_place(slot: Option<u32>, places: &mut Vec<u32>) -> Result<(), NoMemory>
    ensures { OnOk result (places.new.items ≡ places.old.items ++ places_in (slot ∷ [])) }
{
    if let Some(place) = slot {
        places.push(place)?;
    }
    Ok(())
}

/// The places of the slots that have one.
pub fn places_of(alloc: Global, slots: &[Option<u32>]) -> Result<Vec<u32>, NoMemory>
    ensures { IfOk result (λ places. places.items ≡ places_in slots.now) }
{
    let mut places = Vec::with_capacity(alloc, slots.len())?;
    for i in 0..slots.len() {
        put_place(slots[i], &mut places)?;
    }
    Ok(places)
}
