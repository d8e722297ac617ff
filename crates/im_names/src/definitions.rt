ghost use Rattle.std.specs.Prelude.{◌≡◌, ◌≤◌, length, map, IfOk, IfSome};
ghost use Rattle.std.specs.Option.{option_map};
ghost use Rattle.im_values.specs.declared.limits.TheConstants.{MOST_COLUMNS};
ghost use Rattle.im_history.specs.Grid.{IsInRange};
ghost use Rattle.im_names.specs.Definitions as spec;

use im_history::{Priority, Shape};
use im_syntax::{ColumnPart, KindWord, MemoryPart};
use im_values::{Column, Kind, NoMemory, Schema};
use std::alloc::Global;

fn kind_of(word: KindWord) -> Kind
    ensures { result ≡ spec.kind_of word }
{
    match word {
        KindWord::Number | KindWord::Integer => Kind::Int,
        KindWord::Varchar2(most) => Kind::Text(most),
    }
}

/// A column as it is written.
pub fn column_of(alloc: Global, part: &ColumnPart) -> Result<Column, NoMemory>
    ensures { IfOk result (λ column. column ≡ spec.column_of part.now) }
{
    Ok(Column {
        name: part.name.copy(alloc)?,
        kind: kind_of(part.kind),
    })
}

/// The columns of a table that is created.
pub fn schema_of(alloc: Global, parts: &[ColumnPart]) -> Result<Schema, NoMemory>
    requires some { 1 ≤ length parts.now }
    requires few { length parts.now ≤ MOST_COLUMNS }
    ensures { IfOk result (λ schema. schema ≡ map spec.column_of parts.now) }
{
    let mut columns = Vec::with_capacity(alloc, parts.len())?;
    for part in parts {
        columns.push(column_of(alloc, part)?)?;
    }
    Schema::of(alloc, columns)
}

/// The shape of a table that is created.
pub fn shape_of(block: Option<u32>, extent: Option<u32>) -> Shape
    requires block { IfSome block IsInRange }
    requires extent { IfSome extent IsInRange }
    ensures { result ≡ spec.shape_of block extent }
{
    let standard = Shape::standard();
    Shape::of(
        block.unwrap_or(standard.block()),
        extent.unwrap_or(standard.extent()),
    )
}

/// The priority of an INMEMORY clause.
pub fn priority_of(memory: MemoryPart) -> Priority
    ensures { result ≡ spec.priority_of memory }
{
    memory.level.unwrap_or(Priority::None)
}

/// The priority of an INMEMORY clause that may be absent.
pub fn memory_of(memory: Option<MemoryPart>) -> Option<Priority>
    ensures { result ≡ option_map spec.priority_of memory }
{
    match memory {
        Some(memory) => Some(priority_of(memory)),
        None => None,
    }
}
