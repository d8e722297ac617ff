ghost use Rattle.std.specs.Prelude.{◌≡◌, ◌^◌, ◌<◌, ◌≤◌, [], ◌∷◌, IfOk, false, replicate};
ghost use Rattle.im_values.specs.declared.content.Content.TheVariants.{Null};
ghost use Rattle.im_values.specs.Order.{is_null};
ghost use Rattle.im_codes.specs.Dictionary.{IsDictionaryOf};
ghost use Rattle.im_column.specs.Forms.{IsShort};
ghost use Rattle.im_column.specs.inner.Sized.{IsCountedFor, times_of};

use crate::column::{Column, Counted, assembled, bounds_from};
use crate::form::Kept;
use crate::summary::{is_null, value_bytes};
use im_bits::Bits;
use im_codes::{Dict, Runs};
use im_values::{NoMemory, Seen, Value};
use std::alloc::Global;

/// Up to so many times a value is laid out. Where it stands more often, the least form is known beforehand.
const FEW: u64 = 64;

impl Column {
    /// A column of one value, or of NULL, that stands so many times. Its cost does not grow with these.
    pub fn of_one(alloc: Global, value: &Value, len: u64) -> Result<Column, NoMemory>
        requires few { len < 2 ^ 31 }
        requires short { IsShort value.now }
        ensures { IfOk result (λ column. column ≡ replicate len value.now) }
    {
        if len <= FEW {
            return of_few(alloc, value, len as usize);
        }
        if is_null(value) {
            return of_nulls(alloc, len);
        }
        of_run(alloc, value, len)
    }
}

/// The same of few times.
fn of_few(alloc: Global, value: &Value, len: usize) -> Result<Column, NoMemory>
    requires few { len ≤ 64 }
    requires short { IsShort value.now }
    ensures { IfOk result (λ column. column ≡ replicate len value.now) }
{
    let mut lent = Vec::with_capacity(alloc, len)?;
    for _ in 0..len {
        lent.push(value)?;
    }
    let column = Column::build_lent(alloc, lent.as_slice())?;
    Ok(column)
}

/// A column of many NULLs.
fn of_nulls(alloc: Global, len: u64) -> Result<Column, NoMemory>
    requires many { 64 < len }
    requires few { len < 2 ^ 31 }
    ensures { IfOk result (λ column. column ≡ replicate len Null) }
{
    let dict = Dict::build(alloc, &[])?;
    let bounds = bounds_from(alloc, dict.values(), len)?;
    let counted = as_zeros(alloc, dict, len);
    Ok(assembled(counted, bounds, 0))
}

/// Many NULLs, as codes of no bits.
fn as_zeros(alloc: Global, dict: Dict, len: u64) -> Counted
    requires many { 64 < len }
    requires few { len < 2 ^ 31 }
    requires dictionary { IsDictionaryOf [] dict }
    ensures { IsCountedFor (replicate len Null) result.kept result.bytes }
{
    Counted {
        kept: Kept::Coded(dict, Bits::zeros(alloc, len)),
        bytes: 0,
    }
}

/// A column of many times a value that is not NULL.
fn of_run(alloc: Global, value: &Value, len: u64) -> Result<Column, NoMemory>
    requires many { 64 < len }
    requires few { len < 2 ^ 31 }
    requires short { IsShort value.now }
    requires some { is_null value.now ≡ false }
    ensures { IfOk result (λ column. column ≡ replicate len value.now) }
{
    let dict = dict_of_one(alloc, value)?;
    let bounds = bounds_from(alloc, dict.values(), 0)?;
    let counted = as_run(alloc, value, dict, len)?;
    let sum = sum_of_one(value, len);
    Ok(assembled(counted, bounds, sum))
}

/// The dictionary of one value.
fn dict_of_one(alloc: Global, value: &Value) -> Result<Dict, NoMemory>
    ensures { IfOk result (IsDictionaryOf (value.now ∷ [])) }
{
    let mut values = Vec::with_capacity(alloc, 1)?;
    values.push(value.copy(alloc)?)?;
    let dict = Dict::build(alloc, values.as_slice())?;
    Ok(dict)
}

/// Many times a value that is not NULL, as one run.
fn as_run(alloc: Global, value: &Value, dict: Dict, len: u64) -> Result<Counted, NoMemory>
    requires many { 64 < len }
    requires few { len < 2 ^ 31 }
    requires short { IsShort value.now }
    requires some { is_null value.now ≡ false }
    requires dictionary { IsDictionaryOf (value.now ∷ []) dict }
    ensures { IfOk result (λ counted. IsCountedFor (replicate len value.now) counted.kept counted.bytes) }
{
    let runs = Runs::of_one(alloc, 1, len)?;
    Ok(Counted {
        kept: Kept::Runs(dict, runs),
        bytes: value_bytes(value) + 8,
    })
}

/// The sum of a value that stands so many times.
fn sum_of_one(value: &Value, len: u64) -> i128
    requires { len < 2 ^ 31 }
    ensures { result ≡ times_of len value.now }
{
    match value.seen() {
        Seen::Int(number) => i128::from(len) * i128::from(number),
        Seen::Text(_) | Seen::Null => 0,
    }
}
