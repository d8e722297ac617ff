ghost use Rattle.std.specs.Prelude.{◌≡◌, ◌++◌, ◌<◌, ◌≤◌, ◌^◌, All, IfOk, OnOk, drop, length, map, replicate};
ghost use Rattle.std.specs.Arc.{arc_value};
ghost use Rattle.im_column.specs.Forms.{IsShort};

use im_column::Column;
use im_values::{NoMemory, Value};
use std::alloc::Global;
use std::sync::Arc;

/// Puts columns behind others, shared.
fn put_shared(columns: &mut Vec<Arc<Column>>, others: &[Arc<Column>]) -> Result<(), NoMemory>
    ensures { OnOk result (map arc_value columns.new.items ≡ map arc_value columns.old.items ++ map arc_value others.now) }
{
    for other in others {
        columns.push(other.clone()?)?;
    }
    Ok(())
}

/// Puts columns behind others, each of one of these values, which stands so many times.
fn put_repeated(
    alloc: Global,
    columns: &mut Vec<Arc<Column>>,
    values: &[Value],
    count: u64,
) -> Result<(), NoMemory>
    requires few { count < 2 ^ 31 }
    requires short { All IsShort values.now }
    ensures { OnOk result (map arc_value columns.new.items ≡ map arc_value columns.old.items ++ map (replicate count) values.now) }
{
    for value in values {
        columns.push(Arc::new(alloc, Column::of_one(alloc, value, count)?)?)?;
    }
    Ok(())
}

/// Columns, shared, and behind them one of each default that comes after as many as they are.
pub fn columns_widened(
    alloc: Global,
    columns: &[Arc<Column>],
    count: u64,
    defaults: &[Value],
) -> Result<Vec<Arc<Column>>, NoMemory>
    requires more { length columns.now ≤ length defaults.now }
    requires few { count < 2 ^ 31 }
    requires short { All IsShort defaults.now }
    ensures { IfOk result (λ wide. map arc_value wide.items ≡
        map arc_value columns.now ++ map (replicate count) (drop (length columns.now) defaults.now)) }
{
    let mut wide = Vec::with_capacity(alloc, defaults.len())?;
    put_shared(&mut wide, columns)?;
    put_repeated(alloc, &mut wide, &defaults[columns.len()..], count)?;
    Ok(wide)
}
