ghost use Rattle.std.specs.Prelude.{◌≡◌, ◌^◌, ◌<◌, ◌≤◌, ◌+◌, Some, IfSome, IfOk, IsTrue, length, slice_get};
ghost use Rattle.std.specs.Bool.{OnTrue};
ghost use Rattle.im_codes.specs.Dictionary.{lent};
ghost use Rattle.im_codes.specs.inner.Numbering.{IsNumbering, Adds};

use crate::range::number_in_range;
use im_values::{NoMemory, Seen, Value};
use indexmap::IndexSet;
use std::alloc::Global;

/// Each value of a list under a number: the place of the same value among those seen.
#[derive(Drop)]
pub struct Numbering<'a> {
    /// The values, each at its number.
    pub seen: Vec<&'a Value>,

    /// The number of each value of the list, in order.
    pub numbers: Vec<u32>,
}

/// The most distinct values that are looked for one after another.
const FEW: usize = 16;

/// Whether two texts are the same. Most that differ do so in their lengths or in their first bytes.
fn same_text(a: &[u8], b: &[u8]) -> bool
    ensures { OnTrue result (a.now ≡ b.now) }
{
    if !begin_alike(a, b) {
        return false;
    }
    a == b
}

/// Whether two texts are of one length, and begin with the same byte.
fn begin_alike(a: &[u8], b: &[u8]) -> bool {
    a.len() == b.len() && (a.is_empty() || a[0] == b[0])
}

/// Whether two values are the same.
fn is_same(a: &Value, b: &Value) -> bool
    ensures { OnTrue result (a.now ≡ b.now) }
{
    match (a.seen(), b.seen()) {
        (Seen::Text(a), Seen::Text(b)) => same_text(a, b),
        (Seen::Int(a), Seen::Int(b)) => a == b,
        (Seen::Null, Seen::Null) => true,
        _ => false,
    }
}

/// Where a value stands among those seen, if it does.
fn place_among(seen: &[&Value], value: &Value) -> Option<usize>
    ensures { IfSome result (λ place. slice_get (lent seen.now) place ≡ Some value.now) }
{
    for (place, other) in seen.iter().enumerate() {
        if is_same(*other, value) {
            return Some(place);
        }
    }
    None
}

/// Whether a value stands at a place of those seen.
fn stands_at(seen: &[&Value], place: usize, value: &Value) -> bool
    ensures { OnTrue result (slice_get (lent seen.now) place ≡ Some value.now) }
{
    if place >= seen.len() {
        return false;
    }
    is_same(seen[place], value)
}

/// The number of a value, which is put behind those seen where it is new. The one that is likely is tried first.
fn number_by_list<'a>(
    seen: &mut Vec<&'a Value>,
    value: &'a Value,
    likely: u32,
) -> Result<u32, NoMemory>
    requires { length seen.old.items < 2 ^ 31 }
    ensures { IfOk result (Adds (lent seen.old.items) (lent seen.new.items) value.now) }
{
    if stands_at(seen.as_slice(), likely as usize, value) {
        return Ok(likely);
    }
    if let Some(place) = place_among(seen.as_slice(), value) {
        return Ok(place as u32);
    }
    let place = seen.len() as u32;
    seen.push(value)?;
    Ok(place)
}

/// The number of a value, which is put behind those seen where it is new.
fn number_by_hash<'a>(seen: &mut IndexSet<&'a Value>, value: &'a Value) -> Result<u32, NoMemory>
    requires { length seen.old.keys < 2 ^ 31 }
    ensures { IfOk result (Adds (lent seen.old.keys) (lent seen.new.keys) value.now) }
{
    let (place, _) = seen.insert_full(value)?;
    Ok(place as u32)
}

/// The number that stood as far back as values were seen so far, which comes again where values come in turn or many times each.
fn likely_after(numbers: &[u32], seen: usize) -> u32 {
    if seen == 0 || seen > numbers.len() {
        return 0;
    }
    numbers[numbers.len() - seen]
}

/// The values in the order in which they first stand, or none where there are too many to look through.
fn number_few<'a>(alloc: Global, values: &[&'a Value]) -> Result<Option<Numbering<'a>>, NoMemory>
    requires { length values.now < 2 ^ 31 }
    ensures { IfOk result (λ few. IfSome few (λ n. IsNumbering (lent values.now) (lent n.seen.items) n.numbers.items)) }
{
    let mut seen = Vec::with_capacity(alloc, FEW + 1)?;
    let mut numbers = Vec::with_capacity(alloc, values.len())?;
    for value in values {
        let likely = likely_after(numbers.as_slice(), seen.len());
        numbers.push_reserved(number_by_list(&mut seen, *value, likely)?);
        if seen.len() > FEW {
            return Ok(None);
        }
    }
    Ok(Some(Numbering { seen, numbers }))
}

/// The values in the order in which they first stand.
fn number_many<'a>(alloc: Global, values: &[&'a Value]) -> Result<Numbering<'a>, NoMemory>
    requires { length values.now < 2 ^ 31 }
    ensures { IfOk result (λ n. IsNumbering (lent values.now) (lent n.seen.items) n.numbers.items) }
{
    let mut seen = IndexSet::new(alloc);
    let mut numbers = Vec::with_capacity(alloc, values.len())?;
    for value in values {
        numbers.push_reserved(number_by_hash(&mut seen, *value)?);
    }
    Ok(Numbering {
        seen: Vec::from_slice(alloc, seen.as_slice())?,
        numbers,
    })
}

/// Numbers the values of a list.
pub fn number_values<'a>(alloc: Global, values: &[&'a Value]) -> Result<Numbering<'a>, NoMemory>
    requires { length values.now < 2 ^ 31 }
    ensures { IfOk result (λ n. IsNumbering (lent values.now) (lent n.seen.items) n.numbers.items) }
{
    if let Some(in_range) = number_in_range(alloc, values)? {
        return Ok(in_range);
    }
    match number_few(alloc, values)? {
        Some(few) => Ok(few),
        None => number_many(alloc, values),
    }
}
