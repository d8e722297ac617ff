ghost use Rattle.std.specs.Prelude.{◌≡◌, ◌+◌, ◌<◌, ◌≤◌, All, Contains, IfOk, List, count_by, false, length, map, slice_index_or};
ghost use Rattle.std.specs.List.{AllByRecursion};
ghost use Rattle.std.specs.Option.{ForSome};
ghost use Rattle.im_values.specs.Order.{is_null};
ghost use Rattle.im_values.specs.Sizes.{dictionary};
ghost use Rattle.im_values.specs.declared.content.Content.{Content as Value};
ghost use Rattle.im_values.specs.declared.content.Content.TheVariants.{Null};
ghost use Rattle.im_codes.specs.Dictionary.{coded};
ghost use Rattle.im_codepred.specs.Tallies.{AreCounts, AreTallies, IsTallyFor, chosen};
ghost use Rattle.im_group.specs.MadeGroups.{groups_in, group_of};
ghost use Rattle.im_group.specs.Sums as sums;
ghost use Rattle.im_unit.specs.Holding.{count_present, present_rows, values_in};
ghost use Rattle.im_scan.specs.inner.ByCode.{AreAllTallies, AreByCode, ComeTo, IsGroupedBy, group_for, groups_for};
ghost use Rattle.im_scan.specs.inner.Left.{IsPartOfChosen};
ghost use Rattle.im_scan.specs.inner.Summed.{wants_ends};

use crate::summed::{sums_by, wants_ends};
use im_codepred::{Tally, counts_by_code, tallies_by_code};
use im_codes::Dict;
use im_column::{Column, Form};
use im_group::{Asked, Asking, Group, Partial, Sums};
use im_lanes::Mask;
use im_syntax::Bound;
use im_unit::ColumnUnit;
use im_values::{NoMemory, Value};
use std::alloc::Global;

/// A column has few codes where there are this many values for each: a tally is kept of every code, whether a row has it or not.
const VALUES_PER_CODE: u64 = 16;

/// Whether a column is kept as codes, and has few of them.
fn has_few_codes(column: &Column) -> bool {
    match column.form() {
        Form::Coded(dict, bits) => u64::from(dict.len()) <= bits.len() / VALUES_PER_CODE,
        Form::Plain(_) | Form::Runs(_, _) => false,
    }
}

/// The column by which a query is grouped, where it is one.
fn key_column(bound: &Bound) -> Option<u32>
    ensures { ForSome result (λ column. IsGroupedBy column bound.now) }
{
    let columns = bound.groups.items();
    if bound.grouped && columns.len() == 1 {
        Some(columns[0])
    } else {
        None
    }
}

/// What the chosen values of one column of a unit come to for each code of the keys, of what a query asks of it. None where the unit
/// has no such column, or the keys have no codes.
fn column_tallies<'a>(
    alloc: Global,
    asked: Asked,
    keys: &Column,
    unit: &'a ColumnUnit,
    spots: &Mask,
) -> Result<Option<Vec<Tally<'a>>>, NoMemory>
    requires keys { length keys.now ≡ length spots.now }
    requires spots { length spots.now ≡ count_present unit.now.rows }
    ensures { IfOk result (λ found. ForSome found (λ tallies.
        AreTallies (wants_ends asked) spots.now keys.now (values_in asked.column (present_rows unit.now.rows)) (coded (dictionary keys.now)) tallies.items)) }
{
    if asked.column as usize >= unit.columns().len() {
        return Ok(None);
    }
    tallies_by_code(
        alloc,
        wants_ends(asked),
        keys,
        unit.column(asked.column),
        spots,
    )
}

/// The same of all columns of which a query asks one.
fn all_tallies<'a>(
    alloc: Global,
    asked: &[Asked],
    keys: &Column,
    unit: &'a ColumnUnit,
    spots: &Mask,
) -> Result<Option<Vec<Vec<Tally<'a>>>>, NoMemory>
    requires keys { length keys.now ≡ length spots.now }
    requires spots { length spots.now ≡ count_present unit.now.rows }
    ensures { IfOk result (λ found. ForSome found (λ all.
        AreAllTallies spots.now keys.now (present_rows unit.now.rows) (coded (dictionary keys.now)) asked.now (map (λ tallies. tallies.items) all.items))) }
{
    let mut all = Vec::with_capacity(alloc, asked.len())?;
    for one in asked {
        match column_tallies(alloc, *one, keys, unit, spots)? {
            Some(tallies) => all.push(tallies)?,
            None => return Ok(None),
        }
    }
    Ok(Some(all))
}

/// The summary of one asked column for the code at a place.
fn sum_at(
    alloc: Global,
    asked: Asked,
    tallies: &[Tally<'_>],
    place: usize,
) -> Result<Option<Sums>, NoMemory>
    requires { place < length tallies.now }
    ensures { IfOk result (λ found. ForSome found (λ found. (vs : List Value) →
        ((d : _) → IsTallyFor (wants_ends asked) vs (slice_index_or tallies.now place d)) → found ≡ sums.sums_of asked vs)) }
{
    sums_by(alloc, asked, tallies[place])
}

/// The summaries of all asked columns for the code at a place.
fn sums_at(
    alloc: Global,
    asked: &[Asked],
    all: &[Vec<Tally<'_>>],
    place: usize,
) -> Result<Option<Vec<Sums>>, NoMemory>
    requires size { length all.now ≡ length asked.now }
    requires within { All (λ tallies. place < length tallies.items) all.now }
    ensures { IfOk result (λ found. ForSome found (λ found. (of : _) →
        ComeTo of place asked.now (map (λ tallies. tallies.items) all.now) → found.items ≡ map (λ a. sums.sums_of a (of a)) asked.now)) }
{
    let mut sums = Vec::with_capacity(alloc, asked.len())?;
    for (i, one) in asked.iter().enumerate() {
        match sum_at(alloc, *one, all[i].as_slice(), place)? {
            Some(found) => sums.push(found)?,
            None => return Ok(None),
        }
    }
    Ok(Some(sums))
}

/// The value that a code stands for, copied.
fn value_of(alloc: Global, dict: &Dict, code: u32) -> Result<Value, NoMemory>
    requires { code ≤ length dict.now }
    ensures { IfOk result (λ value. value ≡ slice_index_or (coded dict.now) code Null) }
{
    if code == 0 {
        return Ok(Value::null());
    }
    Ok(dict.value(code).copy(alloc)?)
}

/// The group of a code, of so many rows.
fn group_at(
    alloc: Global,
    asked: &[Asked],
    dict: &Dict,
    all: &[Vec<Tally<'_>>],
    code: u32,
    rows: u64,
) -> Result<Option<Group>, NoMemory>
    requires code { code ≤ length dict.now }
    requires size { length all.now ≡ length asked.now }
    requires within { All (λ tallies. code < length tallies.items) all.now }
    ensures { IfOk result (λ found. ForSome found (λ found. (of : _) →
        ComeTo of code asked.now (map (λ tallies. tallies.items) all.now) →
        group_of found ≡ group_for of asked.now (slice_index_or (coded dict.now) code Null) rows)) }
{
    let Some(sums) = sums_at(alloc, asked, all, code as usize)? else {
        return Ok(None);
    };
    let mut key = Vec::with_capacity(alloc, 1)?;
    key.push(value_of(alloc, dict, code)?)?;
    Ok(Some(Group { key, rows, sums }))
}

/// The groups of all codes that have a row.
fn groups_by_code(
    alloc: Global,
    asked: &[Asked],
    dict: &Dict,
    counts: &[u64],
    all: &[Vec<Tally<'_>>],
) -> Result<Option<Vec<Group>>, NoMemory>
    requires counts { length counts.now ≡ length dict.now + 1 }
    requires size { length all.now ≡ length asked.now }
    requires within { All (λ tallies. length tallies.items ≡ length dict.now + 1) all.now }
    ensures { IfOk result (λ found. ForSome found (λ found. (of : _) →
        ((code : _) → code < length dict.now + 1 → ComeTo (of (slice_index_or (coded dict.now) code Null)) code asked.now (map (λ tallies. tallies.items) all.now)) →
        groups_in found.items ≡ groups_for of asked.now (coded dict.now) counts.now)) }
{
    let mut groups = Vec::new(alloc);
    for code in 0..dict.len() + 1 {
        let rows = counts[code as usize];
        if rows != 0 {
            match group_at(alloc, asked, dict, all, code, rows)? {
                Some(group) => groups.push(group)?,
                None => return Ok(None),
            }
        }
    }
    Ok(Some(groups))
}

/// Whether a unit has no such column, or NULL in it.
fn has_null(unit: &ColumnUnit, column: u32) -> bool
    ensures { result ≡ false → count_by is_null (values_in column (present_rows unit.now.rows)) ≡ 0 }
{
    if column as usize >= unit.columns().len() {
        return true;
    }
    unit.column(column).bounds().nulls != 0
}

/// How many values each tally has.
fn value_counts(alloc: Global, tallies: &[Tally<'_>]) -> Result<Vec<u64>, NoMemory>
    ensures { IfOk result (λ counts. counts.items ≡ map (λ tally. tally.values) tallies.now) }
{
    let mut counts = Vec::with_capacity(alloc, tallies.len())?;
    for tally in tallies {
        counts.push(tally.values)?;
    }
    Ok(counts)
}

/// How many chosen rows have each code of the keys. None where these have no codes.
///
/// Where the first asked column has no NULL, there are as many as it has values, and no row is gone over for it.
fn row_counts(
    alloc: Global,
    asked: &[Asked],
    all: &[Vec<Tally<'_>>],
    keys: &Column,
    unit: &ColumnUnit,
    spots: &Mask,
) -> Result<Option<Vec<u64>>, NoMemory>
    requires keys { length keys.now ≡ length spots.now }
    requires spots { length spots.now ≡ count_present unit.now.rows }
    requires tallies { AreAllTallies spots.now keys.now (present_rows unit.now.rows) (coded (dictionary keys.now)) asked.now (map (λ tallies. tallies.items) all.now) }
    ensures { IfOk result (λ found. ForSome found (λ counts.
        AreCounts (chosen spots.now keys.now) (coded (dictionary keys.now)) counts.items)) }
{
    if asked.is_empty() || all.is_empty() {
        return counts_by_code(alloc, keys, spots);
    }
    if has_null(unit, asked[0].column) {
        return counts_by_code(alloc, keys, spots);
    }
    let counts = value_counts(alloc, all[0].as_slice())?;
    Ok(Some(counts))
}

/// The groups of the chosen rows of a unit by the codes of the keys, whose dictionary this is.
fn groups_in_codes(
    alloc: Global,
    asked: &[Asked],
    dict: &Dict,
    keys: &Column,
    unit: &ColumnUnit,
    spots: &Mask,
) -> Result<Option<Vec<Group>>, NoMemory>
    requires dict { dict.now ≡ dictionary keys.now }
    requires codes { AllByRecursion (Contains (coded dict.now)) keys.now }
    requires keys { length keys.now ≡ length spots.now }
    requires spots { length spots.now ≡ count_present unit.now.rows }
    ensures { IfOk result (λ found. ForSome found (λ groups.
        AreByCode spots.now keys.now (present_rows unit.now.rows) asked.now (groups_in groups.items))) }
{
    let Some(all) = all_tallies(alloc, asked, keys, unit, spots)? else {
        return Ok(None);
    };
    let Some(counts) = row_counts(alloc, asked, all.as_slice(), keys, unit, spots)? else {
        return Ok(None);
    };
    groups_by_code(alloc, asked, dict, counts.as_slice(), all.as_slice())
}

/// The groups of the chosen rows of a unit by the codes of the keys. None where these have no codes.
fn made_groups(
    alloc: Global,
    asked: &[Asked],
    keys: &Column,
    unit: &ColumnUnit,
    spots: &Mask,
) -> Result<Option<Vec<Group>>, NoMemory>
    requires keys { length keys.now ≡ length spots.now }
    requires spots { length spots.now ≡ count_present unit.now.rows }
    ensures { IfOk result (λ found. ForSome found (λ groups.
        AreByCode spots.now keys.now (present_rows unit.now.rows) asked.now (groups_in groups.items))) }
{
    match keys.form() {
        Form::Coded(dict, _) => groups_in_codes(alloc, asked, dict, keys, unit, spots),
        Form::Plain(_) | Form::Runs(_, _) => Ok(None),
    }
}

/// The part of a query that is grouped by one column of a unit, made of its chosen rows without one of them.
fn by_code(
    alloc: Global,
    asking: &Asking<'_>,
    column: u32,
    unit: &ColumnUnit,
    spots: &Mask,
) -> Result<Option<Partial>, NoMemory>
    requires grouped { IsGroupedBy column asking.now }
    requires within { column < unit.now.columns }
    requires spots { length spots.now ≡ count_present unit.now.rows }
    ensures { IfOk result (λ part. ForSome part (IsPartOfChosen asking.now unit.now spots.now)) }
{
    match made_groups(alloc, asking.asked(), unit.column(column), unit, spots)? {
        Some(groups) => {
            let part = Partial::of_groups(alloc, asking, groups)?;
            Ok(Some(part))
        }
        None => Ok(None),
    }
}

/// The column by which a query is grouped, where it is one and a unit keeps it as few codes.
pub fn coded_key(bound: &Bound, unit: &ColumnUnit) -> Option<u32>
    ensures grouped { ForSome result (λ column. IsGroupedBy column bound.now) }
    ensures within { ForSome result (λ column. column < unit.now.columns) }
{
    let column = key_column(bound)?;
    if column as usize >= unit.columns().len() || !has_few_codes(unit.column(column)) {
        return None;
    }
    Some(column)
}

/// The part of a query that is grouped by one column which a unit keeps as few codes, made of the chosen rows of the unit: a group for
/// each code that one of them has, and no row. None for any other.
pub fn coded(
    alloc: Global,
    asking: &Asking<'_>,
    unit: &ColumnUnit,
    spots: &Mask,
) -> Result<Option<Partial>, NoMemory>
    requires { length spots.now ≡ count_present unit.now.rows }
    ensures { IfOk result (λ part. ForSome part (IsPartOfChosen asking.now unit.now spots.now)) }
{
    match coded_key(asking.bound(), unit) {
        Some(column) => by_code(alloc, asking, column, unit, spots),
        None => Ok(None),
    }
}
