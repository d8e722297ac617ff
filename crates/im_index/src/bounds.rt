ghost use Rattle.std.specs.Prelude.{◌≡◌, IfOk, not};
ghost use Rattle.im_index.specs.Excludes as spec;
ghost use Rattle.im_values.specs.Order as values;

use im_values::{Cmp, NoMemory, Seen, Value, order};
use std::alloc::Global;

/// The least and the greatest value that is not NULL, or none, and how many NULLs there are.
#[derive(Drop)]
pub struct Bounds {
    pub least: Option<Value>,
    pub greatest: Option<Value>,
    pub nulls: u64,
}

/// A value once more, where there is one.
fn copy_of(value: &Option<Value>, alloc: Global) -> Result<Option<Value>, NoMemory>
    ensures { IfOk result (λ copy. copy ≡ value.now) }
{
    match value {
        Some(value) => Ok(Some(value.copy(alloc)?)),
        None => Ok(None),
    }
}

impl Bounds {
    /// The same bounds once more.
    pub fn copy(&self, alloc: Global) -> Result<Bounds, NoMemory>
        ensures { IfOk result (λ bounds. bounds ≡ self.now) }
    {
        Ok(Bounds {
            least: copy_of(&self.least, alloc)?,
            greatest: copy_of(&self.greatest, alloc)?,
            nulls: self.nulls,
        })
    }
}

/// Whether a value is NULL.
fn is_null(value: &Value) -> bool
    ensures { result ≡ values.is_null value.now }
{
    match value.seen() {
        Seen::Int(_) | Seen::Text(_) => false,
        Seen::Null => true,
    }
}

/// Whether a value comes before another.
fn is_below(a: &Value, b: &Value) -> bool
    ensures { result ≡ spec.is_below a.now b.now }
{
    order(a, b).is_lt()
}

/// Whether a value is another.
fn is_same(a: &Value, b: &Value) -> bool
    ensures { result ≡ spec.is_same a.now b.now }
{
    order(a, b).is_eq()
}

/// Whether some value from a least to a greatest one may stand so to this value.
fn ends_allow(least: &Value, greatest: &Value, cmp: Cmp, v: &Value) -> bool
    ensures { result ≡ not (spec.ends_exclude cmp least.now greatest.now v.now) }
{
    match cmp {
        Cmp::Eq => !is_below(v, least) && !is_below(greatest, v),
        Cmp::Ne => !is_same(least, v) || !is_same(greatest, v),
        Cmp::Lt => is_below(least, v),
        Cmp::Le => !is_below(v, least),
        Cmp::Gt => is_below(v, greatest),
        Cmp::Ge => !is_below(greatest, v),
    }
}

/// Whether a value of a column with these bounds may stand so to this value. Where it is false, none does: it is never
/// true of NULL, nor of a column that has nothing but NULLs.
pub fn may_match(bounds: &Bounds, cmp: Cmp, v: &Value) -> bool
    ensures { result ≡ not (spec.excludes_comparison bounds.now cmp v.now) }
{
    if is_null(v) {
        return false;
    }
    match (&bounds.least, &bounds.greatest) {
        (Some(least), Some(greatest)) => ends_allow(least, greatest, cmp, v),
        _ => false,
    }
}
