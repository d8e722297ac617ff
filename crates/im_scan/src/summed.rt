ghost use Rattle.std.specs.Prelude.{◌≡◌, IfOk, List, map, length, if◌then◌else◌};
ghost use Rattle.std.specs.Bool.{OnTrue};
ghost use Rattle.std.specs.Option.{ForSome, option_copied, unwrap_or};
ghost use Rattle.im_values.specs.declared.content.Content.{Content as Value};
ghost use Rattle.im_values.specs.declared.content.Content.TheVariants.{Null};
ghost use Rattle.im_codepred.specs.Tallies.{IsTallyFor, chosen};
ghost use Rattle.im_group.specs.MadeGroups.{kept_values, with_sums};
ghost use Rattle.im_group.specs.Partials as group;
ghost use Rattle.im_group.specs.Sums as sums;
ghost use Rattle.im_group.specs.Tallies.{asked_in, tallied, wanted};
ghost use Rattle.im_unit.specs.Holding.{count_present, present_rows, values_in};
ghost use Rattle.im_scan.specs.inner.Left.{IsPartOfChosen};
ghost use Rattle.im_scan.specs.inner.Summed.{TakesTogether, wants_ends};

use im_codepred::{Tally, tally_of};
use im_group::{Asked, Asking, Group, Partial, Sums};
use im_lanes::{Mask, count};
use im_syntax::Bound;
use im_unit::ColumnUnit;
use im_values::{NoMemory, Value};
use std::alloc::Global;

/// Whether so many numbers of 64 bits can add up to a total.
fn is_within(values: u64, total: i128) -> bool
    ensures { OnTrue result (sums.IsWithin values total) }
{
    total.unsigned_abs() <= u128::from(values) * 0x8000_0000_0000_0000
}

/// A copy of an end of the values of a column, where it is asked for and there is one, and else NULL.
fn end_of(alloc: Global, asked: bool, end: Option<&Value>) -> Result<Value, NoMemory>
    ensures { IfOk result (λ value. value ≡ (if asked then unwrap_or (option_copied end.entry) Null else Null)) }
{
    if !asked {
        return Ok(Value::null());
    }
    match end {
        Some(value) => Ok(value.copy(alloc)?),
        None => Ok(Value::null()),
    }
}

/// Whether a query asks for the least or the greatest value of a column.
pub fn wants_ends(asked: Asked) -> bool
    ensures { result ≡ wants_ends asked }
{
    asked.least || asked.greatest
}

/// The sum that values come to.
fn sum_in(tally: &Tally<'_>) -> i128
    ensures { result ≡ tally.now.sum }
{
    tally.sum
}

/// The summary of values by what they come to. None where they cannot come to this.
pub fn sums_by(alloc: Global, asked: Asked, tally: Tally<'_>) -> Result<Option<Sums>, NoMemory>
    ensures { IfOk result (λ found. ForSome found (λ found. (vs : List Value) → IsTallyFor (wants_ends asked) vs tally.entry → found ≡ sums.sums_of asked vs)) }
{
    let sum = sum_in(&tally);
    if !is_within(tally.values, sum) {
        return Ok(None);
    }
    let least = end_of(alloc, asked.least, tally.least)?;
    let greatest = end_of(alloc, asked.greatest, tally.greatest)?;
    Ok(Some(Sums::of(tally.values, sum, least, greatest)))
}

/// The summary of the chosen values of one column of a unit, of what a query asks of it. None where the unit has no such column.
fn sums_of(
    alloc: Global,
    asked: Asked,
    unit: &ColumnUnit,
    spots: &Mask,
) -> Result<Option<Sums>, NoMemory>
    requires { length spots.now ≡ count_present unit.now.rows }
    ensures { IfOk result (λ found. ForSome found (λ found.
        found ≡ sums.sums_of asked (chosen spots.now (values_in asked.column (present_rows unit.now.rows))))) }
{
    if asked.column as usize >= unit.columns().len() {
        return Ok(None);
    }
    sums_by(alloc, asked, tally_of(unit.column(asked.column), spots))
}

/// The summaries of all columns of which a query asks one.
fn all_sums(
    alloc: Global,
    asked: &[Asked],
    unit: &ColumnUnit,
    spots: &Mask,
) -> Result<Option<Vec<Sums>>, NoMemory>
    requires { length spots.now ≡ count_present unit.now.rows }
    ensures { IfOk result (λ found. ForSome found (λ found.
        found.items ≡ map (λ a. sums.sums_of a (chosen spots.now (values_in a.column (present_rows unit.now.rows)))) asked.now)) }
{
    let mut all = Vec::with_capacity(alloc, asked.len())?;
    for one in asked {
        match sums_of(alloc, *one, unit, spots)? {
            Some(found) => all.push(found)?,
            None => return Ok(None),
        }
    }
    Ok(Some(all))
}

/// The part of a query that takes all rows together, made of how many it keeps and of a summary of each column that it asks.
pub fn whole_part(
    alloc: Global,
    asking: &Asking<'_>,
    rows: u64,
    sums: Vec<Sums>,
) -> Result<Partial, NoMemory>
    requires { TakesTogether asking.now }
    ensures { IfOk result (λ part. (of : List group.Numbered) →
        with_sums rows sums.items ≡ tallied (asked_in (wanted asking.now)) (kept_values asking.now of) → part ≡ group.partial asking.now of) }
{
    let key = Vec::new(alloc);
    let mut groups = Vec::with_capacity(alloc, 1)?;
    groups.push(Group { key, rows, sums })?;
    Partial::of_groups(alloc, asking, groups)
}

/// The part of a query that takes its rows together, made of the chosen rows of a unit without one of them.
pub fn together(
    alloc: Global,
    asking: &Asking<'_>,
    unit: &ColumnUnit,
    spots: &Mask,
) -> Result<Option<Partial>, NoMemory>
    requires together { TakesTogether asking.now }
    requires spots { length spots.now ≡ count_present unit.now.rows }
    ensures { IfOk result (λ part. ForSome part (IsPartOfChosen asking.now unit.now spots.now)) }
{
    let Some(sums) = all_sums(alloc, asking.asked(), unit, spots)? else {
        return Ok(None);
    };
    let part = whole_part(alloc, asking, count(spots), sums)?;
    Ok(Some(part))
}

/// Whether a query takes all rows together: it is grouped, and without GROUP BY.
pub fn takes_together(bound: &Bound) -> bool
    ensures { OnTrue result (TakesTogether bound.now) }
{
    bound.grouped && bound.groups.items().is_empty()
}
