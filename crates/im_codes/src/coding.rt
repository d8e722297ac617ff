ghost use Rattle.std.specs.Prelude.{◌≡◌, ◌^◌, ◌<◌, ◌≤◌, Some, IfOk, Contains, length, map, slice_get, slice_index, All};
ghost use Rattle.std.specs.Bool.{OnTrue};
ghost use Rattle.im_codes.specs.Dictionary.{AreCodesOf, IsDictionaryOf, coded, lent};

use crate::dict::Dict;
use crate::numbering::number_values;
use im_values::{NoMemory, Value, order};
use std::alloc::Global;

/// A dictionary, and the code of each value of the list that it was made of.
#[derive(Drop)]
pub struct Coding {
    pub dict: Dict,

    pub codes: Vec<u32>,
}

impl Coding {
    /// The dictionary and the codes of a list of lent values.
    ///
    /// The distinct values come first, by a table where they are numbers of a small range, one after another where they
    /// are few, and else by their hashes; only they are sorted and copied.
    pub fn of(alloc: Global, values: &[&Value]) -> Result<Coding, NoMemory>
        requires { length values.now < 2 ^ 31 }
        ensures dictionary { IfOk result (λ coding. IsDictionaryOf (lent values.now) coding.dict) }
        ensures codes { IfOk result (λ coding. AreCodesOf (lent values.now) coding.dict coding.codes.items) }
    {
        let found = number_values(alloc, values)?;
        let dict = Dict::of_seen(alloc, found.seen.as_slice())?;
        let codes = codes_of(alloc, &dict, found.seen.as_slice())?;
        Ok(Coding {
            dict,
            codes: through(alloc, found.numbers.as_slice(), codes.as_slice())?,
        })
    }
}

/// Whether a code stands for a value.
fn is_code(dict: &Dict, value: &Value, code: u32) -> bool
    ensures { OnTrue result (slice_get (coded dict.now) code ≡ Some value.now) }
{
    if code == 0 || code > dict.len() {
        return false;
    }
    order(dict.value(code), value).is_eq()
}

/// The code of a value that has one. The code that is likely is tried first.
fn code_near(dict: &Dict, value: &Value, likely: u32) -> u32
    requires { Contains (coded dict.now) value.now }
    ensures { slice_get (coded dict.now) result ≡ Some value.now }
{
    if is_code(dict, value, likely) {
        return likely;
    }
    dict.code_of(value).unwrap()
}

/// The codes of lent values, in order.
fn codes_of(alloc: Global, dict: &Dict, seen: &[&Value]) -> Result<Vec<u32>, NoMemory>
    requires few { length seen.now < 2 ^ 31 }
    requires dictionary { IsDictionaryOf (lent seen.now) dict.now }
    ensures { IfOk result (λ codes. AreCodesOf (lent seen.now) dict.now codes.items) }
{
    let mut codes = Vec::with_capacity(alloc, seen.len())?;
    for i in 0..seen.len() {
        codes.push_reserved(code_near(dict, seen[i], i as u32 + 1));
    }
    Ok(codes)
}

/// For each number the code that stands at its place.
pub(crate) fn through(alloc: Global, numbers: &[u32], codes: &[u32]) -> Result<Vec<u32>, NoMemory>
    requires { All (λ n. n < length codes.now) numbers.now }
    ensures { IfOk result (λ through. through.items ≡ map (λ n. slice_index codes.now n) numbers.now) }
{
    let mut sent = Vec::with_capacity(alloc, numbers.len())?;
    for number in numbers {
        sent.push_reserved(codes[*number as usize]);
    }
    Ok(sent)
}
