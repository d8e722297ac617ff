ghost use Rattle.std.specs.Prelude.{◌≡◌, ◌+◌, ◌++◌, ◌^◌, ◌<◌, All, IfOk, IfSome, length, get_or};
ghost use Rattle.std.specs.Bool.{OnTrue};
ghost use Rattle.im_values.specs.declared.content.Content.TheVariants.{Null};
ghost use Rattle.im_codes.specs.Dictionary.{IsDictionaryOf, coded, lent, values_at};
ghost use Rattle.im_column.specs.Forms.{IsShort};
ghost use Rattle.im_column.specs.Picks.{values_picked};
ghost use Rattle.im_column.specs.inner.Sized.{IsSummary};

use crate::column::{Column, as_codes, assembled, bounds_from, value_of};
use crate::form::Kept;
use crate::numbers::numbers_picked;
use crate::sizes::{coded_bytes, runs_bytes};
use crate::summary::{Summary, with_value};
use im_bits::{Bits, ROOM};
use im_codes::Dict;
use im_values::{NoMemory, Value, order};
use std::alloc::Global;

impl Column {
    /// Whether the values at places are those of this column, where its values come first and fresh ones behind them. Then it
    /// serves in place of a new column.
    ///
    /// It looks at values only where a place is not the value's own, and takes no memory.
    pub fn is_picked(&self, fresh: &[&Value], places: &[u32]) -> bool
        requires { All (λ place. place < length self.now + length fresh.now) places.now }
        ensures { OnTrue result (values_picked self.now (lent fresh.now) places.now ≡ self.now) }
    {
        if places.len() as u64 != self.len() {
            return false;
        }
        all_stay(self, fresh, places)
    }

    /// A column of the values at places, where those of an old column come first and fresh ones behind them.
    ///
    /// Where the dictionary of the old column is that of the new one too, it is kept, and codes are picked from codes: that costs
    /// a look-up for each fresh value and a step for each place. Else the column is built of the values, lent.
    pub fn picked(
        alloc: Global,
        old: &Column,
        fresh: &[&Value],
        places: &[u32],
    ) -> Result<Column, NoMemory>
        requires few { length places.now < 2 ^ 31 }
        requires places { All (λ place. place < length old.now + length fresh.now) places.now }
        requires short_old { All IsShort old.now }
        requires short_fresh { All IsShort (lent fresh.now) }
        ensures { IfOk result (λ column. column ≡ values_picked old.now (lent fresh.now) places.now) }
    {
        if let Some(column) = picked_by_codes(alloc, old, fresh, places)? {
            return Ok(column);
        }
        if let Some(numbers) = numbers_picked(alloc, old, fresh, places)? {
            return Column::of_numbers(alloc, numbers.as_slice());
        }
        let values = lent_picked(alloc, old, fresh, places)?;
        let column = Column::build_lent(alloc, values.as_slice())?;
        Ok(column)
    }
}

/// The value at a place, where those of a column come first and fresh ones behind them.
fn value_picked<'a>(old: &'a Column, fresh: &[&'a Value], place: u32) -> &'a Value
    requires { place < length old.now + length fresh.now }
    ensures { result.now ≡ get_or (old.now ++ lent fresh.now) place Null }
{
    let place = u64::from(place);
    if place < old.len() {
        return old.get(place);
    }
    fresh[(place - old.len()) as usize]
}

/// Whether the value at a place is the one at another place of a column.
fn stays(old: &Column, fresh: &[&Value], place: u32, at: u64) -> bool
    requires place { place < length old.now + length fresh.now }
    requires at { at < length old.now }
    ensures { OnTrue result (get_or (old.now ++ lent fresh.now) place Null ≡ get_or old.now at Null) }
{
    if u64::from(place) == at {
        return true;
    }
    order(value_picked(old, fresh, place), old.get(at)).is_eq()
}

/// Whether each value is the one that a column has at its place.
fn all_stay(old: &Column, fresh: &[&Value], places: &[u32]) -> bool
    requires places { All (λ place. place < length old.now + length fresh.now) places.now }
    requires long { length places.now ≡ length old.now }
    ensures { OnTrue result (values_picked old.now (lent fresh.now) places.now ≡ old.now) }
{
    for i in 0..places.len() {
        if !stays(old, fresh, places[i], i as u64) {
            return false;
        }
    }
    true
}

/// The values at places, lent.
fn lent_picked<'a>(
    alloc: Global,
    old: &'a Column,
    fresh: &[&'a Value],
    places: &[u32],
) -> Result<Vec<&'a Value>, NoMemory>
    requires { All (λ place. place < length old.now + length fresh.now) places.now }
    ensures { IfOk result (λ values. lent values.items ≡ values_picked old.now (lent fresh.now) places.now) }
{
    let mut values = Vec::with_capacity(alloc, places.len())?;
    for i in 0..places.len() {
        values.push_reserved(value_picked(old, fresh, places[i]));
    }
    Ok(values)
}

/// Packed codes, one beside another.
pub fn unpacked(alloc: Global, bits: &Bits) -> Result<Vec<u32>, NoMemory>
    ensures { IfOk result (λ codes. codes.items ≡ bits.now.codes) }
{
    let mut codes = Vec::with_capacity(alloc, bits.len() as usize)?;
    let mut block = [0; ROOM];
    let mut held = 0;
    for place in 0..bits.len().div_ceil(64) {
        held = bits.turn_to(place, held, &mut block);
        codes.extend_from_slice(bits.share_of(place, &block))?;
    }
    Ok(codes)
}

/// A column of the values at places with the dictionary of an old column: none where it has none, where its dictionary is not
/// that of the values, and where they take the least bytes one beside another.
fn picked_by_codes(
    alloc: Global,
    old: &Column,
    fresh: &[&Value],
    places: &[u32],
) -> Result<Option<Column>, NoMemory>
    requires few { length places.now < 2 ^ 31 }
    requires places { All (λ place. place < length old.now + length fresh.now) places.now }
    requires short { All IsShort (values_picked old.now (lent fresh.now) places.now) }
    ensures { IfOk result (λ found. IfSome found (λ column. column ≡ values_picked old.now (lent fresh.now) places.now)) }
{
    match &old.kept {
        Kept::Plain(_) => Ok(None),
        Kept::Coded(dict, bits) => {
            picked_codes(alloc, dict, unpacked(alloc, bits)?, fresh, places)
        }
        Kept::Runs(dict, runs) => picked_codes(alloc, dict, runs.codes(alloc)?, fresh, places),
    }
}

/// The same, where an old column has these codes of a dictionary.
fn picked_codes(
    alloc: Global,
    dict: &Dict,
    codes: Vec<u32>,
    fresh: &[&Value],
    places: &[u32],
) -> Result<Option<Column>, NoMemory>
    requires few { length places.now < 2 ^ 31 }
    requires codes { All (λ code. code < length (coded dict.now)) codes.items }
    requires places { All (λ place. place < length codes.items + length fresh.now) places.now }
    requires short { All IsShort (values_picked (values_at (coded dict.now) codes.items) (lent fresh.now) places.now) }
    ensures { IfOk result (λ found. IfSome found (λ column.
        column ≡ values_picked (values_at (coded dict.now) codes.items) (lent fresh.now) places.now)) }
{
    match dict.codes_picked(alloc, codes, fresh, places)? {
        Some(picked) => from_codes(alloc, dict.copy(alloc)?, picked.as_slice()),
        None => Ok(None),
    }
}

/// A column of codes of a dictionary: none where their values take no more bytes one beside another.
fn from_codes(alloc: Global, dict: Dict, codes: &[u32]) -> Result<Option<Column>, NoMemory>
    requires few { length codes.now < 2 ^ 31 }
    requires codes { All (λ code. code < length (coded dict)) codes.now }
    requires dictionary { IsDictionaryOf (values_at (coded dict) codes.now) dict }
    requires short { All IsShort (values_at (coded dict) codes.now) }
    ensures { IfOk result (λ found. IfSome found (λ column. column ≡ values_at (coded dict) codes.now)) }
{
    let summary = summarize_codes(dict.values(), codes);
    let by_code = coded_bytes(&dict, codes);
    let by_run = runs_bytes(&dict, codes);
    if summary.bytes <= by_code.min(by_run) {
        return Ok(None);
    }
    let bounds = bounds_from(alloc, dict.values(), summary.nulls)?;
    let counted = as_codes(alloc, dict, codes, by_code, by_run)?;
    Ok(Some(assembled(counted, bounds, summary.sum)))
}

/// The number of NULLs, the sum and the bytes of the values of codes.
fn summarize_codes(dict: &[Value], codes: &[u32]) -> Summary
    requires few { length codes.now < 2 ^ 31 }
    requires codes { All (λ code. code < length (coded dict.now)) codes.now }
    requires short { All IsShort (values_at (coded dict.now) codes.now) }
    ensures { IsSummary (values_at (coded dict.now) codes.now) result.nulls result.sum result.bytes }
{
    let null = Value::null();
    let mut summary = Summary {
        nulls: 0,
        sum: 0,
        bytes: 0,
    };
    for i in 0..codes.len() {
        summary = with_value(summary, value_of(dict, &null, codes[i]), i as u64);
    }
    summary
}
