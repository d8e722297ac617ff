ghost use Rattle.std.specs.Prelude.{◌≡◌, ◌+◌, ◌<◌, ◌++◌, ◌∷◌, [], IfOk, OnOk, vec_len, vec_capacity};
ghost use Rattle.im_codes.specs.Dictionary.{lent, whole};

use im_values::{NoMemory, Value};
use std::alloc::Global;

/// The values of a list, lent. They stay where they are.
pub fn lend_values<'a>(alloc: Global, values: &'a [Value]) -> Result<Vec<&'a Value>, NoMemory>
    ensures { IfOk result (λ all. lent all.items ≡ values.now) }
{
    let mut all = Vec::with_capacity(alloc, values.len())?;
    for value in values {
        all.push_reserved(value);
    }
    Ok(all)
}

/// Puts a copy of a value behind others. There is room for one.
fn put_copy(alloc: Global, value: &Value, copies: &mut Vec<Value>) -> Result<(), NoMemory>
    requires { vec_len copies.old < vec_capacity copies.old }
    ensures items { OnOk result (copies.new.items ≡ copies.old.items ++ value.now ∷ []) }
    ensures len { OnOk result (vec_len copies.new ≡ vec_len copies.old + 1) }
    ensures capacity { vec_capacity copies.new ≡ vec_capacity copies.old }
{
    copies.push_reserved(value.copy(alloc)?);
    Ok(())
}

/// Copies of lent values.
pub fn copy_values(alloc: Global, values: &[&Value]) -> Result<Vec<Value>, NoMemory>
    ensures { IfOk result (λ copies. copies.items ≡ lent values.now) }
{
    let mut copies = Vec::with_capacity(alloc, values.len())?;
    for value in values {
        put_copy(alloc, *value, &mut copies)?;
    }
    Ok(copies)
}

/// Whole numbers, as values.
pub fn whole_values(alloc: Global, numbers: &[i64]) -> Result<Vec<Value>, NoMemory>
    ensures { IfOk result (λ values. values.items ≡ whole numbers.now) }
{
    let mut values = Vec::with_capacity(alloc, numbers.len())?;
    for number in numbers {
        values.push_reserved(Value::int(*number));
    }
    Ok(values)
}
