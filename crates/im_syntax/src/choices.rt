ghost use Rattle.std.specs.Prelude.{◌≡◌, ◌==◌, IfOk, length};
ghost use Rattle.im_syntax.specs.Choices as spec;
ghost use Rattle.std.specs.List.Sorted.{IsSorted};
ghost use Rattle.im_values.specs.Order as values;
ghost use Rattle.im_values.specs.declared.content.Content.TheVariants.{Null};
ghost use Rattle.im_syntax.specs.inner.Ordered.{IsInOrder};

use im_values::{NoMemory, Value, copied, order};
use std::alloc::Global;
use std::marker::Model;

/// The values of an IN, as they are written. They are also kept in order, so that a look-up is a binary search.
#[derive(Drop)]
pub struct Choices {
    values: Vec<Value>,
    ordered: Vec<Value>,
    has_null: bool,
}

impl Model for Choices {
    ghost use Rattle.std.specs.Prelude.{List};
    ghost use Rattle.im_values.specs.declared.content.Content.{Content as AnyValue};
    ghost use Rattle.im_syntax.specs.inner.Ordered.{IsSearchable};

    ghost Value = { List AnyValue };

    ghost view = { λ c. c.values.items };

    ghost invariant = { λ c. IsSearchable c.values.items c.ordered.items c.has_null };
}

impl Choices {
    /// These values. It copies each once, and sorts the copies.
    pub fn of(alloc: Global, values: Vec<Value>) -> Result<Choices, NoMemory>
        ensures { IfOk result (λ choices. choices ≡ values.items) }
    {
        let ordered = in_order(alloc, values.as_slice())?;
        let has_null = stands_in(ordered.as_slice(), &Value::null());
        Ok(Choices {
            values,
            ordered,
            has_null,
        })
    }

    /// The values, as they are written.
    pub fn values(&self) -> &[Value]
        ensures { result.now ≡ self.now }
    {
        self.values.as_slice()
    }

    /// Whether there is no value.
    pub fn is_empty(&self) -> bool
        ensures { result ≡ (length self.now == 0) }
    {
        self.values.is_empty()
    }

    /// Whether one of the values is NULL.
    pub fn has_null(&self) -> bool
        ensures { result ≡ spec.has self.now Null }
    {
        self.has_null
    }

    /// Whether a value is one of these, NULL as any other. It costs a binary search.
    pub fn has(&self, value: &Value) -> bool
        ensures { result ≡ spec.has self.now value.now }
    {
        stands_in(self.ordered.as_slice(), value)
    }
}

/// Copies of the values, in order.
fn in_order(alloc: Global, values: &[Value]) -> Result<Vec<Value>, NoMemory>
    ensures { IfOk result (λ ordered. IsInOrder values.now ordered.items) }
{
    let mut ordered = copied(alloc, values)?;
    ordered.sort_unstable_by(|a, b| order(a, b));
    Ok(ordered)
}

/// Whether a value stands in a sorted list.
fn stands_in(ordered: &[Value], value: &Value) -> bool
    requires { IsSorted values.order ordered.now }
    ensures { result ≡ spec.has ordered.now value.now }
{
    ordered
        .binary_search_by(|other| order(other, value))
        .is_ok()
}
