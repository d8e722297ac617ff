ghost use Rattle.std.specs.Prelude.{◌≡◌, ◌^◌, ◌+◌, ◌*◌, ◌<◌, ◌≤◌, All, length, if◌then◌else◌};
ghost use Rattle.im_values.specs.Order.{is_null};
ghost use Rattle.im_values.specs.Sizes.{value_bytes};
ghost use Rattle.im_codes.specs.Dictionary.{lent};
ghost use Rattle.im_column.specs.Forms.{IsShort};
ghost use Rattle.im_column.specs.Summaries as spec;
ghost use Rattle.im_column.specs.inner.Sized.{IsSummary, IsWithin};

use im_values::{Seen, Value};

/// What one pass over values finds.
#[derive(Clone, Copy)]
pub struct Summary {
    pub nulls: u64,
    pub sum: i128,
    pub bytes: u64,
}

/// Whether a value is NULL.
pub fn is_null(value: &Value) -> bool
    ensures { result ≡ is_null value.now }
{
    match value.seen() {
        Seen::Int(_) | Seen::Text(_) => false,
        Seen::Null => true,
    }
}

/// The bytes that a value counts for.
pub fn value_bytes(value: &Value) -> u64
    requires { IsShort value.now }
    ensures bytes { result ≡ value_bytes value.now }
    ensures few { result < 65539 }
{
    match value.seen() {
        Seen::Int(_) => 9,
        Seen::Text(text) => 3 + text.len() as u64,
        Seen::Null => 1,
    }
}

/// The sum so far, with one value more.
fn added(total: i128, value: &Value, count: u64) -> i128
    requires within { IsWithin count total }
    requires few { count < 2 ^ 31 }
    ensures sum { result ≡ spec.added total value.now }
    ensures within { IsWithin (count + 1) result }
{
    match value.seen() {
        Seen::Int(number) => total + i128::from(number),
        Seen::Text(_) | Seen::Null => total,
    }
}

/// The number of NULLs, the sum and the bytes of lent values.
pub fn summarize(values: &[&Value]) -> Summary
    requires few { length values.now < 2 ^ 31 }
    requires short { All IsShort (lent values.now) }
    ensures summary { IsSummary (lent values.now) result.nulls result.sum result.bytes }
    ensures few { result.bytes < 2 ^ 48 }
{
    let mut summary = Summary {
        nulls: 0,
        sum: 0,
        bytes: 0,
    };
    for i in 0..values.len() {
        summary = with_value(summary, values[i], i as u64);
    }
    summary
}

/// A summary with one value more.
pub fn with_value(summary: Summary, value: &Value, count: u64) -> Summary
    requires few { count < 2 ^ 31 }
    requires nulls { summary.nulls ≤ count }
    requires sum { IsWithin count summary.sum }
    requires bytes { summary.bytes ≤ count * 65538 }
    requires short { IsShort value.now }
    ensures nulls { result.nulls ≡ summary.nulls + (if is_null value.now then 1 else 0) }
    ensures sum { result.sum ≡ spec.added summary.sum value.now }
    ensures bytes { result.bytes ≡ summary.bytes + value_bytes value.now }
    ensures within { IsWithin (count + 1) result.sum }
    ensures few { result.bytes ≤ (count + 1) * 65538 }
{
    Summary {
        nulls: summary.nulls + u64::from(is_null(value)),
        sum: added(summary.sum, value, count),
        bytes: summary.bytes + value_bytes(value),
    }
}
