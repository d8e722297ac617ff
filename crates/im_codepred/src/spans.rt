ghost use Rattle.std.specs.Prelude.{◌≡◌, ◌≢◌, ◌≤◌, ◌&&◌, ◌^◌, ◌<◌, ℕ, nat_le, IfSome, length, slice_index_or};
ghost use Rattle.std.specs.Ordering.{is_eq};
ghost use Rattle.im_values.specs.declared.content.Content.TheVariants.{Null};
ghost use Rattle.im_values.specs.Order as values;
ghost use Rattle.im_codes.specs.Dictionary.{coded};
ghost use Rattle.im_lanes.specs.Masks.{is_within};
ghost use Rattle.im_codepred.specs.Asked.{is_met};
ghost use Rattle.im_codepred.specs.inner.Spans.{is_in, holds_at, between_at, null_at, Chooses, IsInOrder, IsPlaceOf};

use crate::asked::{Asked, Wanted};
use im_codes::Dict;
use im_values::{Cmp, Seen, Value, order};

/// The codes from one on and below another.
#[derive(Clone, Copy)]
pub struct Span {
    pub low: u32,
    pub end: u32,
}

/// The codes of two ranges.
#[derive(Clone, Copy)]
pub struct Spans {
    pub first: Span,
    pub second: Span,
}

/// Where a value stands among the codes of a dictionary.
///
/// All are 1 for NULL, to which no value stands in any way.
#[derive(Clone, Copy)]
pub struct Place {
    /// The first code whose value is not below it.
    pub low: u32,

    /// The first code whose value is above it: `low` itself, or the next where the value is there.
    pub end: u32,

    /// One past the last code.
    pub most: u32,
}

impl Span {
    /// Whether a code is one of them.
    fn has(&self, code: u32) -> bool
        ensures { result ≡ is_within self.now.low self.now.end code }
    {
        self.low <= code && code < self.end
    }
}

impl Spans {
    /// The codes of one range.
    fn one(low: u32, end: u32) -> Spans
        ensures { (code : ℕ) → is_in result code ≡ is_within low end code }
    {
        Spans {
            first: Span { low, end },
            second: Span { low: 0, end: 0 },
        }
    }

    /// Whether a code is one of them.
    pub fn has(&self, code: u32) -> bool
        ensures { result ≡ is_in self.now code }
    {
        self.first.has(code) || self.second.has(code)
    }
}

/// The codes of a dictionary whose value has the truth that is wanted, where they are found without asking each: of all
/// that is asked but IN. It costs a binary search for each value that is compared with.
pub fn spans_of(wanted: Wanted, asked: &Asked, dict: &Dict) -> Option<Spans>
    ensures { IfSome result (λ spans. Chooses (is_in spans) (is_met wanted asked.now) dict.now) }
{
    match asked {
        Asked::Compare(cmp, value) => Some(compare_spans(
            wanted.comparison(*cmp),
            place_of(dict, value),
        )),
        Asked::IsNull => Some(null_spans(wanted, dict.len())),
        Asked::Between(low, high) => Some(between_spans(
            wanted,
            place_of(dict, low),
            place_of(dict, high),
        )),
        Asked::Within(_) => None,
    }
}

/// Where a value stands among the codes of a dictionary.
fn place_of(dict: &Dict, value: &Value) -> Place
    ensures { IsPlaceOf dict.now value.now result }
{
    match value.seen() {
        Seen::Null => Place {
            low: 1,
            end: 1,
            most: 1,
        },
        _ => place_among(dict, value),
    }
}

/// Where a value that is not NULL stands.
fn place_among(dict: &Dict, value: &Value) -> Place
    requires { value.now ≢ Null }
    ensures { IsPlaceOf dict.now value.now result }
{
    let most = dict.len() + 1;
    let low = dict.lower(value);
    let end = low + u32::from(is_at(dict, low, value));
    Place { low, end, most }
}

/// Whether a code from 1 on is that of a value.
fn is_at(dict: &Dict, code: u32, value: &Value) -> bool
    requires { 1 ≤ code }
    ensures { result ≡ (nat_le code (length dict.now) && is_eq (values.order (slice_index_or (coded dict.now) code Null) value.now)) }
{
    code <= dict.len() && order(dict.value(code), value).is_eq()
}

/// The codes whose value stands so to the value of a place.
fn compare_spans(cmp: Cmp, place: Place) -> Spans
    requires { IsInOrder place }
    ensures { (code : ℕ) → is_in result code ≡ holds_at place cmp code }
{
    let Place { low, end, most } = place;
    match cmp {
        Cmp::Eq => Spans::one(low, end),
        Cmp::Ne => Spans {
            first: Span { low: 1, end: low },
            second: Span {
                low: end,
                end: most,
            },
        },
        Cmp::Lt => Spans::one(1, low),
        Cmp::Le => Spans::one(1, end),
        Cmp::Gt => Spans::one(end, most),
        Cmp::Ge => Spans::one(low, most),
    }
}

/// The codes whose value lies between those of two places, or is known not to.
fn between_spans(wanted: Wanted, low: Place, high: Place) -> Spans
    requires low { IsInOrder low }
    requires high { IsInOrder high }
    ensures { (code : ℕ) → is_in result code ≡ between_at wanted low high code }
{
    match wanted {
        Wanted::Held => Spans::one(low.low, low.most.min(high.end)),
        Wanted::Failed => Spans {
            first: Span {
                low: 1,
                end: low.low,
            },
            second: Span {
                low: high.end,
                end: high.most,
            },
        },
    }
}

/// The code of NULL, or those of all values.
fn null_spans(wanted: Wanted, greatest: u32) -> Spans
    requires { greatest < 2 ^ 31 }
    ensures { (code : ℕ) → code ≤ greatest → is_in result code ≡ null_at wanted code }
{
    match wanted {
        Wanted::Held => Spans::one(0, 1),
        Wanted::Failed => Spans::one(1, greatest + 1),
    }
}
