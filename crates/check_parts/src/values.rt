ghost use Rattle.std.specs.Prelude.{◌≡◌, ◌^◌, ◌<◌, All, IfOk, OnOk};
ghost use Rattle.im_column.specs.Forms.{IsShort};

use im_values::{Name, NoMemory, Value};
use std::alloc::Global;

#[derive(Clone, Copy)]
pub enum Cell {
    Null,
    Int(i64),
    Text(&'static [u8]),
}

/// The value of a cell. A text is cut behind 65,535 bytes.
fn value(alloc: Global, cell: Cell) -> Result<Value, NoMemory>
    ensures { IfOk result IsShort }
{
    match cell {
        Cell::Null => Ok(Value::null()),
        Cell::Int(number) => Ok(Value::int(number)),
        Cell::Text(bytes) => text(alloc, bytes),
    }
}

/// The value of a text, cut likewise.
pub fn text(alloc: Global, bytes: &[u8]) -> Result<Value, NoMemory>
    ensures { IfOk result IsShort }
{
    let kept = &bytes[..bytes.len().min(65_535)];
    Ok(Value::text(Name::of(alloc, kept)?))
}

/// Puts the value of a cell behind others, so many times.
fn put(alloc: Global, values: &mut Vec<Value>, cell: Cell, times: u32) -> Result<(), NoMemory>
    requires { All IsShort values.old.items }
    ensures { OnOk result (All IsShort values.new.items) }
{
    for _ in 0..times {
        values.push(value(alloc, cell)?)?;
    }
    Ok(())
}

/// The values of cells, each so many times.
pub fn values_of(alloc: Global, cells: &[(Cell, u32)]) -> Result<Vec<Value>, NoMemory>
    ensures { IfOk result (λ values. All IsShort values.items) }
{
    let mut values = Vec::new(alloc);
    for (cell, times) in cells {
        put(alloc, &mut values, *cell, *times)?;
    }
    Ok(values)
}
