ghost use Rattle.std.specs.Prelude.{◌≡◌, ◌+◌, IfOk};
ghost use Rattle.im_history.specs.Puts.{lent_change};
ghost use Rattle.im_history.specs.Weights as weight;

use im_history::{Changes, LentChange};
use im_values::limits::{CHANGE_WEIGHT, VALUE_WEIGHT};
use im_values::{NoMemory, Seen, Value};

/// The sum of two weights. What weighs more than 64 bits can say has no room in memory.
fn add(a: u64, b: u64) -> Result<u64, NoMemory>
    ensures { IfOk result (λ sum. sum ≡ a + b) }
{
    match a.checked_add(b) {
        Some(sum) => Ok(sum),
        None => Err(NoMemory),
    }
}

fn value_weight(value: &Value) -> Result<u64, NoMemory>
    ensures { IfOk result (λ weighed. weighed ≡ weight.value_weight value.now) }
{
    match value.seen() {
        Seen::Text(text) => add(VALUE_WEIGHT, text.len() as u64),
        Seen::Int(_) | Seen::Null => Ok(VALUE_WEIGHT),
    }
}

fn row_weight(values: &[Value]) -> Result<u64, NoMemory>
    ensures { IfOk result (λ weighed. weighed ≡ weight.row_weight values.now) }
{
    let mut sum = 0;
    for value in values {
        sum = add(sum, value_weight(value)?)?;
    }
    Ok(sum)
}

fn change_weight(change: LentChange<'_>) -> Result<u64, NoMemory>
    ensures { IfOk result (λ weighed. weighed ≡ CHANGE_WEIGHT + weight.put_weight (lent_change change.entry).row) }
{
    match change.row {
        Some(values) => add(CHANGE_WEIGHT, row_weight(values)?),
        None => Ok(CHANGE_WEIGHT),
    }
}

/// What changes weigh.
pub fn weight_of(changes: &Changes) -> Result<u64, NoMemory>
    ensures { IfOk result (λ weighed. weighed ≡ weight.changes_weight changes.now) }
{
    let mut sum = 0;
    for place in 0..changes.len() {
        sum = add(sum, change_weight(changes.at(place))?)?;
    }
    Ok(sum)
}
