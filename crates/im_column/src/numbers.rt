ghost use Rattle.std.specs.Prelude.{◌≡◌, ◌^◌, ◌+◌, ◌++◌, ◌+ℤ◌, ◌*◌, ◌<◌, ◌≤◌, All, IfOk, IfSome, OnOk, length, get_or};
ghost use Rattle.std.specs.Bool.{OnTrue};
ghost use Rattle.im_values.specs.declared.content.Content.TheVariants.{Int, Null};
ghost use Rattle.im_values.specs.Sizes.{plain_bytes};
ghost use Rattle.im_codes.specs.Dictionary.{AreCodesOf, IsDictionaryOf, coded, lent, values_at, whole};
ghost use Rattle.im_column.specs.Picks.{values_picked};
ghost use Rattle.im_column.specs.inner.Sized.{AreRising, IsCountedFor, IsSummary, IsWithin};

use crate::column::{Column, Counted, as_codes, as_plain, assembled, bounds_from};
use crate::form::Kept;
use crate::picking::unpacked;
use crate::sizes::{coded_bytes, runs_bytes};
use crate::summary::Summary;
use im_codes::{Coding, Dict, numbers_rise, whole_values};
use im_values::{NoMemory, Seen, Value};
use std::alloc::Global;

impl Column {
    /// A column of whole numbers.
    ///
    /// Numbers that rise are kept as they are. Else it costs a table of those between the least and the greatest, and the codes;
    /// where that table would be too large for so many, it costs what [`Column::build_lent`] does.
    pub fn of_numbers(alloc: Global, numbers: &[i64]) -> Result<Column, NoMemory>
        requires { length numbers.now < 2 ^ 31 }
        ensures { IfOk result (λ column. column ≡ whole numbers.now) }
    {
        let summary = summarize_numbers(numbers);
        if numbers_rise(numbers) {
            return rising_numbers(alloc, numbers, summary);
        }
        match Coding::of_numbers(alloc, numbers)? {
            Some(coding) => coded_numbers(alloc, numbers, summary, coding),
            None => of_far_numbers(alloc, numbers),
        }
    }
}

/// A column of whole numbers that rise.
fn rising_numbers(alloc: Global, numbers: &[i64], summary: Summary) -> Result<Column, NoMemory>
    requires few { length (whole numbers.now) < 2 ^ 31 }
    requires rising { AreRising (whole numbers.now) }
    requires summary { IsSummary (whole numbers.now) summary.nulls summary.sum summary.bytes }
    ensures { IfOk result (λ column. column ≡ whole numbers.now) }
{
    let kept = whole_values(alloc, numbers)?;
    let bounds = bounds_from(alloc, kept.as_slice(), summary.nulls)?;
    let counted = as_plain(kept, summary.bytes);
    Ok(assembled(counted, bounds, summary.sum))
}

/// A column of whole numbers, by their dictionary and codes.
fn coded_numbers(
    alloc: Global,
    numbers: &[i64],
    summary: Summary,
    coding: Coding,
) -> Result<Column, NoMemory>
    requires few { length (whole numbers.now) < 2 ^ 31 }
    requires summary { IsSummary (whole numbers.now) summary.nulls summary.sum summary.bytes }
    requires dictionary { IsDictionaryOf (whole numbers.now) coding.dict }
    requires codes { AreCodesOf (whole numbers.now) coding.dict coding.codes.items }
    ensures { IfOk result (λ column. column ≡ whole numbers.now) }
{
    let bounds = bounds_from(alloc, coding.dict.values(), summary.nulls)?;
    let Coding { dict, codes } = coding;
    let counted = least_of_numbers(alloc, numbers, summary.bytes, dict, codes.as_slice())?;
    Ok(assembled(counted, bounds, summary.sum))
}

/// The form of the least bytes, where a dictionary and codes are those of whole numbers.
fn least_of_numbers(
    alloc: Global,
    numbers: &[i64],
    plain: u64,
    dict: Dict,
    codes: &[u32],
) -> Result<Counted, NoMemory>
    requires few { length (whole numbers.now) < 2 ^ 31 }
    requires plain { plain ≡ plain_bytes (whole numbers.now) }
    requires dictionary { IsDictionaryOf (whole numbers.now) dict }
    requires codes { AreCodesOf (whole numbers.now) dict codes.now }
    ensures { IfOk result (λ counted. IsCountedFor (whole numbers.now) counted.kept counted.bytes) }
{
    let coded = coded_bytes(&dict, codes);
    let runs = runs_bytes(&dict, codes);
    if plain <= coded.min(runs) {
        return Ok(as_plain(whole_values(alloc, numbers)?, plain));
    }
    as_codes(alloc, dict, codes, coded, runs)
}

/// A column of whole numbers that lie far apart.
fn of_far_numbers(alloc: Global, numbers: &[i64]) -> Result<Column, NoMemory>
    requires { length numbers.now < 2 ^ 31 }
    ensures { IfOk result (λ column. column ≡ whole numbers.now) }
{
    let values = whole_values(alloc, numbers)?;
    let column = Column::build(alloc, values.as_slice())?;
    Ok(column)
}

/// The sum so far of so many numbers, with one more.
fn plus(total: i128, number: i64, count: u64) -> i128
    requires within { IsWithin count total }
    requires few { count < 2 ^ 31 }
    ensures sum { result ≡ total +ℤ number }
    ensures within { IsWithin (count + 1) result }
{
    total + i128::from(number)
}

/// The sum and the bytes of whole numbers.
fn summarize_numbers(numbers: &[i64]) -> Summary
    requires { length numbers.now < 2 ^ 31 }
    ensures { IsSummary (whole numbers.now) result.nulls result.sum result.bytes }
{
    let mut sum = 0;
    for i in 0..numbers.len() {
        sum = plus(sum, numbers[i], i as u64);
    }
    Summary {
        nulls: 0,
        sum,
        bytes: 9 * numbers.len() as u64,
    }
}

/// The whole number that a value is, if it is one.
#[inline(always)]
fn number_of(value: &Value) -> Option<i64>
    ensures { IfSome result (λ number. value.now ≡ Int number) }
{
    match value.seen() {
        Seen::Int(number) => Some(number),
        Seen::Text(_) | Seen::Null => None,
    }
}

/// Values, where all are whole numbers.
fn numbers_of(alloc: Global, values: &[Value]) -> Result<Option<Vec<i64>>, NoMemory>
    ensures { IfOk result (λ found. IfSome found (λ numbers. whole numbers.items ≡ values.now)) }
{
    let mut numbers = Vec::with_capacity(alloc, values.len())?;
    for value in values {
        let Some(number) = number_of(value) else {
            return Ok(None);
        };
        numbers.push_reserved(number);
    }
    Ok(Some(numbers))
}

/// The number of a code, unless that is the code of NULL.
#[inline(always)]
fn number_by(distinct: &[i64], code: u32) -> Option<i64>
    requires { code < length distinct.now + 1 }
    ensures { IfSome result (λ number. get_or (coded (whole distinct.now)) code Null ≡ Int number) }
{
    if code == 0 {
        return None;
    }
    Some(distinct[code as usize - 1])
}

/// The numbers of codes, unless one is the code of NULL.
fn numbers_by(alloc: Global, distinct: &[i64], codes: &[u32]) -> Result<Option<Vec<i64>>, NoMemory>
    requires { All (λ code. code < length distinct.now + 1) codes.now }
    ensures { IfOk result (λ found. IfSome found (λ numbers. whole numbers.items ≡ values_at (coded (whole distinct.now)) codes.now)) }
{
    let mut numbers = Vec::with_capacity(alloc, codes.len())?;
    for i in 0..codes.len() {
        let Some(number) = number_by(distinct, codes[i]) else {
            return Ok(None);
        };
        numbers.push_reserved(number);
    }
    Ok(Some(numbers))
}

/// The values of codes of a dictionary, where all are whole numbers, and the dictionary has no others.
fn numbers_coded(alloc: Global, dict: &[Value], codes: &[u32]) -> Result<Option<Vec<i64>>, NoMemory>
    requires { All (λ code. code < length (coded dict.now)) codes.now }
    ensures { IfOk result (λ found. IfSome found (λ numbers. whole numbers.items ≡ values_at (coded dict.now) codes.now)) }
{
    match numbers_of(alloc, dict)? {
        Some(distinct) => numbers_by(alloc, distinct.as_slice(), codes),
        None => Ok(None),
    }
}

/// The values of a column, where all are whole numbers.
fn numbers_in(alloc: Global, column: &Column) -> Result<Option<Vec<i64>>, NoMemory>
    ensures { IfOk result (λ found. IfSome found (λ numbers. whole numbers.items ≡ column.now)) }
{
    match &column.kept {
        Kept::Plain(values) => numbers_of(alloc, values.as_slice()),
        Kept::Coded(dict, bits) => {
            let codes = unpacked(alloc, bits)?;
            numbers_coded(alloc, dict.values(), codes.as_slice())
        }
        Kept::Runs(dict, runs) => {
            let codes = runs.codes(alloc)?;
            numbers_coded(alloc, dict.values(), codes.as_slice())
        }
    }
}

/// Numbers with those that values are behind them: false where one of these is no whole number.
fn put_numbers(numbers: &mut Vec<i64>, values: &[&Value]) -> Result<bool, NoMemory>
    ensures { IfOk result (λ all. OnTrue all (whole numbers.new.items ≡ whole numbers.old.items ++ lent values.now)) }
{
    for i in 0..values.len() {
        let Some(number) = number_of(values[i]) else {
            return Ok(false);
        };
        numbers.push(number)?;
    }
    Ok(true)
}

/// The numbers at places.
fn numbers_at(alloc: Global, stock: &[i64], places: &[u32]) -> Result<Vec<i64>, NoMemory>
    requires { All (λ place. place < length stock.now) places.now }
    ensures { IfOk result (λ numbers. whole numbers.items ≡ values_at (whole stock.now) places.now) }
{
    let mut numbers = Vec::with_capacity(alloc, places.len())?;
    for i in 0..places.len() {
        numbers.push_reserved(stock[places[i] as usize]);
    }
    Ok(numbers)
}

/// The values at places, where those of a column come first and fresh ones behind them: none unless all of both are whole numbers.
pub fn numbers_picked(
    alloc: Global,
    old: &Column,
    fresh: &[&Value],
    places: &[u32],
) -> Result<Option<Vec<i64>>, NoMemory>
    requires { All (λ place. place < length old.now + length fresh.now) places.now }
    ensures { IfOk result (λ found. IfSome found (λ numbers. whole numbers.items ≡ values_picked old.now (lent fresh.now) places.now)) }
{
    let Some(mut stock) = numbers_in(alloc, old)? else {
        return Ok(None);
    };
    if !put_numbers(&mut stock, fresh)? {
        return Ok(None);
    }
    Ok(Some(numbers_at(alloc, stock.as_slice(), places)?))
}
