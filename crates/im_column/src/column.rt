ghost use Rattle.std.specs.Prelude.{◌≡◌, ◌==◌, ◌+◌, ◌^◌, ◌<◌, ◌≤◌, ℕ, Some, All, IfOk, length, min, slice_get, slice_index, get_or};
ghost use Rattle.im_values.specs.declared.content.Content.TheVariants.{Null};
ghost use Rattle.im_values.specs.Sizes.{column_bytes, plain_bytes, shape_of};
ghost use Rattle.im_values.specs.Sizes as spec;
ghost use Rattle.im_codes.specs.Dictionary.{AreCodesOf, IsDictionaryOf, coded, lent, values_at};
ghost use Rattle.im_column.specs.Forms.{AreKeptFor, AreLent, IsFormOf, IsShort};
ghost use Rattle.im_bits.specs.Packed.{HasCodesFrom};
ghost use Rattle.im_column.specs.Summaries.{sum_of};
ghost use Rattle.im_index.specs.Bounds.{bounds_of, bounds_with};
ghost use Rattle.im_column.specs.inner.Sized.{AreRising, AreSizes, IsCountedFor, IsSummary, values_of};

use crate::form::{Form, Kept};
use crate::sizes::{coded_bytes, rise, runs_bytes, width_for};
use crate::summary::{Summary, summarize};
use im_bits::Bits;
use im_codes::{Coding, Dict, Runs, copy_values, lend_values};
use im_index::Bounds;
use im_values::{NoMemory, Value};
use std::alloc::Global;
use std::marker::Model;

/// A list of values, in the form that takes the least bytes, with its bounds and its sum.
///
/// There are fewer than 2^31 values.
#[derive(Drop)]
pub struct Column {
    pub(crate) kept: Kept,
    bytes: u64,
    bounds: Bounds,
    sum: i128,

    /// What a code of 0 stands for, to be lent.
    null: Value,
}

impl Model for Column {
    ghost use Rattle.std.specs.Prelude.{◌≡◌, List, ◌^◌, ◌<◌, length};
    ghost use Rattle.im_values.specs.declared.content.Content.{Content as AnyValue};
    ghost use Rattle.im_values.specs.declared.content.Content.TheVariants.{Null};

    ghost Value = { List AnyValue };

    ghost use Rattle.im_column.specs.inner.Sized.{values_of, IsKeptFor, IsSummedFor};

    ghost view = { λ c. values_of c.kept };

    ghost invariant = { λ c. IsKeptFor (values_of c.kept) c.kept × IsSummedFor (values_of c.kept) c.bytes c.bounds c.sum × (length (values_of c.kept) < 2 ^ 31) × (c.null ≡ Null) };
}

/// A form, and the bytes that it takes.
#[derive(Drop)]
pub struct Counted {
    pub kept: Kept,
    pub bytes: u64,
}

impl Column {
    /// A column of these values. It lends them first.
    pub fn build(alloc: Global, values: &[Value]) -> Result<Column, NoMemory>
        requires few { length values.now < 2 ^ 31 }
        requires short { All IsShort values.now }
        ensures { IfOk result (λ column. column ≡ values.now) }
    {
        let lent = lend_values(alloc, values)?;
        let column = Column::build_lent(alloc, lent.as_slice())?;
        Ok(column)
    }

    /// A column of values that are lent. It copies those alone that it keeps.
    ///
    /// Values that rise are kept as they are, with no dictionary; else it costs the dictionary and the codes.
    pub fn build_lent(alloc: Global, values: &[&Value]) -> Result<Column, NoMemory>
        requires few { length values.now < 2 ^ 31 }
        requires short { All IsShort (lent values.now) }
        ensures { IfOk result (λ column. column ≡ lent values.now) }
    {
        let summary = summarize(values);
        if rise(values) {
            return from_rising(alloc, values, summary);
        }
        let coding = Coding::of(alloc, values)?;
        from_coding(alloc, values, summary, coding)
    }

    /// The form that it is kept in: the one of the least bytes.
    pub fn form(&self) -> Form<'_>
        ensures { IsFormOf self.now result }
    {
        match &self.kept {
            Kept::Plain(values) => Form::Plain(values.as_slice()),
            Kept::Coded(dict, bits) => Form::Coded(dict, bits),
            Kept::Runs(dict, runs) => Form::Runs(dict, runs),
        }
    }

    /// How many values there are.
    pub fn len(&self) -> u64
        ensures len { result ≡ length self.now }
        ensures few { result < 2 ^ 31 }
    {
        match &self.kept {
            Kept::Plain(values) => values.len() as u64,
            Kept::Coded(_, bits) => bits.len(),
            Kept::Runs(_, runs) => runs.len(),
        }
    }

    /// Whether there is no value.
    pub fn is_empty(&self) -> bool
        ensures { result ≡ (length self.now == 0) }
    {
        self.len() == 0
    }

    /// The value at a place, from 0. Of runs it costs a binary search.
    pub fn get(&self, i: u64) -> &Value
        requires { i < length self.now }
        ensures { slice_get self.now i ≡ Some result.now }
    {
        match &self.kept {
            Kept::Plain(values) => &values[i as usize],
            Kept::Coded(dict, bits) => value_of(dict.values(), &self.null, bits.get(i)),
            Kept::Runs(dict, runs) => value_of(dict.values(), &self.null, runs.get(i)),
        }
    }

    /// Lends the values at 64 places from one on, and NULL past the last one. Codes are unpacked 64 at a time.
    pub fn lend_from<'a>(&'a self, first: u64, out: &mut [&'a Value; 64])
        requires { first ≤ length self.now }
        ensures { AreLent (λ k. get_or self.now (first + k) Null) 64 (lent out.new) }
    {
        let mut codes = [0; 64];
        match &self.kept {
            Kept::Plain(values) => lend_plain(values.as_slice(), &self.null, first as usize, out),
            Kept::Coded(dict, bits) => {
                bits.codes_from(first, &mut codes);
                lend_coded(dict.values(), &self.null, &codes, out);
            }
            Kept::Runs(dict, runs) => {
                codes_behind(runs, first, &mut codes);
                lend_coded(dict.values(), &self.null, &codes, out);
            }
        }
    }

    /// The bytes that it counts for.
    pub fn bytes(&self) -> u64
        ensures { result ≡ column_bytes self.now }
    {
        self.bytes
    }

    /// The least and the greatest value, and how many are NULL.
    pub fn bounds(&self) -> &Bounds
        ensures { result.now ≡ bounds_of self.now }
    {
        &self.bounds
    }

    /// The sum of the numbers.
    pub fn sum(&self) -> i128
        ensures { result ≡ sum_of self.now }
    {
        self.sum
    }
}

/// The value of a code.
pub fn value_of<'a>(dict: &'a [Value], null: &'a Value, code: u32) -> &'a Value
    requires code { code < length (coded dict.now) }
    requires null { null.now ≡ Null }
    ensures { slice_get (coded dict.now) code ≡ Some result.now }
{
    if code == 0 {
        null
    } else {
        &dict[code as usize - 1]
    }
}

/// The values of 64 codes, lent.
fn lend_coded<'a>(dict: &'a [Value], null: &'a Value, codes: &[u32; 64], out: &mut [&'a Value; 64])
    requires codes { (k : ℕ) → slice_index codes.now k < length (coded dict.now) }
    requires null { null.now ≡ Null }
    ensures { AreLent (λ k. get_or (coded dict.now) (slice_index codes.now k) Null) 64 (lent out.new) }
{
    for k in 0..64 {
        out[k] = value_of(dict, null, codes[k]);
    }
}

/// The values at 64 places from one on, lent, and NULL past the last one.
fn lend_plain<'a>(values: &'a [Value], null: &'a Value, first: usize, out: &mut [&'a Value; 64])
    requires first { first ≤ length values.now }
    requires null { null.now ≡ Null }
    ensures { AreLent (λ k. get_or values.now (first + k) Null) 64 (lent out.new) }
{
    if values.len() - first >= 64 {
        lend_whole(values, first, out);
    } else {
        lend_rest(values, null, first, out);
    }
}

/// The values at 64 places from one on, lent, where there are as many.
fn lend_whole<'a>(values: &'a [Value], first: usize, out: &mut [&'a Value; 64])
    requires { first + 64 ≤ length values.now }
    ensures { AreLent (λ k. get_or values.now (first + k) Null) 64 (lent out.new) }
{
    for k in 0..64 {
        out[k] = value_from(values, first, k);
    }
}

/// The values from a place on, lent, and NULL past the last one.
fn lend_rest<'a>(values: &'a [Value], null: &'a Value, first: usize, out: &mut [&'a Value; 64])
    requires first { first ≤ length values.now }
    requires null { null.now ≡ Null }
    ensures { AreLent (λ k. get_or values.now (first + k) Null) 64 (lent out.new) }
{
    for k in 0..64 {
        out[k] = value_behind(values, null, first, k);
    }
}

/// The value so many behind a place.
fn value_from(values: &[Value], first: usize, k: usize) -> &Value
    requires { first + k < length values.now }
    ensures { result.now ≡ get_or values.now (first + k) Null }
{
    &values[first + k]
}

/// The value so many behind a place, and NULL past the last one.
fn value_behind<'a>(values: &'a [Value], null: &'a Value, first: usize, k: usize) -> &'a Value
    requires first { first ≤ length values.now }
    requires null { null.now ≡ Null }
    ensures { result.now ≡ get_or values.now (first + k) Null }
{
    if k < values.len() - first {
        value_from(values, first, k)
    } else {
        null
    }
}

/// The codes at 64 places of runs from one on, and 0 past the last one.
fn codes_behind(runs: &Runs, first: u64, out: &mut [u32; 64])
    requires { first ≤ length runs.now }
    ensures { HasCodesFrom runs.now first out.new }
{
    for k in 0..64 {
        out[k] = code_behind(runs, first, k as u64);
    }
}

/// The code so many behind a place, and 0 past the last one.
fn code_behind(runs: &Runs, first: u64, k: u64) -> u32
    requires first { first ≤ length runs.now }
    requires k { k < 64 }
    ensures { result ≡ slice_index runs.now (first + k) }
{
    if k >= runs.len() - first {
        return 0;
    }
    runs.get(first + k)
}

/// The value at a place once more, or none.
fn copy_at(alloc: Global, values: &[Value], i: usize) -> Result<Option<Value>, NoMemory>
    ensures { IfOk result (λ copy. copy ≡ slice_get values.now i) }
{
    if i >= values.len() {
        return Ok(None);
    }
    Ok(Some(values[i].copy(alloc)?))
}

/// The bounds of values that rise.
pub fn bounds_from(alloc: Global, rising: &[Value], nulls: u64) -> Result<Bounds, NoMemory>
    ensures { IfOk result (λ bounds. bounds ≡ bounds_with rising.now nulls) }
{
    Ok(Bounds {
        least: copy_at(alloc, rising, 0)?,
        greatest: copy_at(alloc, rising, rising.len().saturating_sub(1))?,
        nulls,
    })
}

/// The values one beside another, where that takes the least bytes.
pub fn as_plain(values: Vec<Value>, plain: u64) -> Counted
    requires shape { shape_of values.items ≡ spec.Plain }
    requires plain { plain ≡ column_bytes values.items }
    ensures { IsCountedFor values.items result.kept result.bytes }
{
    Counted {
        kept: Kept::Plain(values),
        bytes: plain,
    }
}

/// Codes of a dictionary, where that form takes the least bytes for their values.
fn as_coded(alloc: Global, dict: Dict, codes: &[u32], bytes: u64) -> Result<Counted, NoMemory>
    requires few { length codes.now < 2 ^ 31 }
    requires shape { shape_of (values_at (coded dict) codes.now) ≡ spec.Coded }
    requires bytes { bytes ≡ column_bytes (values_at (coded dict) codes.now) }
    requires kept { AreKeptFor (values_at (coded dict) codes.now) dict codes.now }
    ensures { IfOk result (λ counted. IsCountedFor (values_at (coded dict) codes.now) counted.kept counted.bytes) }
{
    let bits = Bits::pack(alloc, codes, width_for(dict.len()))?;
    Ok(Counted {
        kept: Kept::Coded(dict, bits),
        bytes,
    })
}

/// Runs of codes of a dictionary, where that form takes the least bytes for their values.
fn as_runs(alloc: Global, dict: Dict, codes: &[u32], bytes: u64) -> Result<Counted, NoMemory>
    requires few { length codes.now < 2 ^ 31 }
    requires shape { shape_of (values_at (coded dict) codes.now) ≡ spec.Runs }
    requires bytes { bytes ≡ column_bytes (values_at (coded dict) codes.now) }
    requires kept { AreKeptFor (values_at (coded dict) codes.now) dict codes.now }
    ensures { IfOk result (λ counted. IsCountedFor (values_at (coded dict) codes.now) counted.kept counted.bytes) }
{
    let runs = Runs::build(alloc, codes)?;
    Ok(Counted {
        kept: Kept::Runs(dict, runs),
        bytes,
    })
}

/// The form of the least bytes, where a dictionary and codes are those of the values.
fn as_least(
    alloc: Global,
    values: &[&Value],
    plain: u64,
    dict: Dict,
    codes: &[u32],
) -> Result<Counted, NoMemory>
    requires few { length values.now < 2 ^ 31 }
    requires short { All IsShort (lent values.now) }
    requires plain { plain ≡ plain_bytes (lent values.now) }
    requires dictionary { IsDictionaryOf (lent values.now) dict }
    requires codes { AreCodesOf (lent values.now) dict codes.now }
    ensures { IfOk result (λ counted. IsCountedFor (lent values.now) counted.kept counted.bytes) }
{
    let coded = coded_bytes(&dict, codes);
    let runs = runs_bytes(&dict, codes);
    if plain <= coded.min(runs) {
        return Ok(as_plain(copy_values(alloc, values)?, plain));
    }
    as_codes(alloc, dict, codes, coded, runs)
}

/// Codes of a dictionary in the form of the least bytes, where their values one beside another take more.
pub fn as_codes(
    alloc: Global,
    dict: Dict,
    codes: &[u32],
    by_code: u64,
    by_run: u64,
) -> Result<Counted, NoMemory>
    requires few { length codes.now < 2 ^ 31 }
    requires kept { AreKeptFor (values_at (coded dict) codes.now) dict codes.now }
    requires sizes { AreSizes (values_at (coded dict) codes.now) (plain_bytes (values_at (coded dict) codes.now)) by_code by_run }
    requires less { min by_code by_run < plain_bytes (values_at (coded dict) codes.now) }
    ensures { IfOk result (λ counted. IsCountedFor (values_at (coded dict) codes.now) counted.kept counted.bytes) }
{
    if by_code <= by_run {
        return as_coded(alloc, dict, codes, by_code);
    }
    as_runs(alloc, dict, codes, by_run)
}

/// A column of values that rise.
fn from_rising(alloc: Global, values: &[&Value], summary: Summary) -> Result<Column, NoMemory>
    requires few { length values.now < 2 ^ 31 }
    requires rising { AreRising (lent values.now) }
    requires summary { IsSummary (lent values.now) summary.nulls summary.sum summary.bytes }
    ensures { IfOk result (λ column. column ≡ lent values.now) }
{
    let kept = copy_values(alloc, values)?;
    let bounds = bounds_from(alloc, kept.as_slice(), summary.nulls)?;
    let counted = as_plain(kept, summary.bytes);
    Ok(assembled(counted, bounds, summary.sum))
}

/// A column of values, by their dictionary and codes.
fn from_coding(
    alloc: Global,
    values: &[&Value],
    summary: Summary,
    coding: Coding,
) -> Result<Column, NoMemory>
    requires few { length values.now < 2 ^ 31 }
    requires short { All IsShort (lent values.now) }
    requires summary { IsSummary (lent values.now) summary.nulls summary.sum summary.bytes }
    requires dictionary { IsDictionaryOf (lent values.now) coding.dict }
    requires codes { AreCodesOf (lent values.now) coding.dict coding.codes.items }
    ensures { IfOk result (λ column. column ≡ lent values.now) }
{
    let bounds = bounds_from(alloc, coding.dict.values(), summary.nulls)?;
    let Coding { dict, codes } = coding;
    let counted = as_least(alloc, values, summary.bytes, dict, codes.as_slice())?;
    Ok(assembled(counted, bounds, summary.sum))
}

/// A column of the values that a form stands for.
pub fn assembled(counted: Counted, bounds: Bounds, sum: i128) -> Column
    requires few { length (values_of counted.kept) < 2 ^ 31 }
    requires counted { IsCountedFor (values_of counted.kept) counted.kept counted.bytes }
    requires bounds { bounds ≡ bounds_of (values_of counted.kept) }
    requires sum { sum ≡ sum_of (values_of counted.kept) }
    ensures { result ≡ values_of counted.kept }
{
    let Counted { kept, bytes } = counted;
    Column {
        kept,
        bytes,
        bounds,
        sum,
        null: Value::null(),
    }
}
