ghost use Rattle.std.specs.Prelude.{◌≡◌, ◌+◌, ◌*◌, ◌≤◌, ◌++◌, [], ◌∷◌, IfOk, OnOk, length};
ghost use Rattle.std.specs.List.{slice_range};
ghost use Rattle.std.specs.Arc.{arc_value};
ghost use Rattle.im_values.specs.Stretches.{cut};

use crate::no_memory::NoMemory;
use crate::value::Value;
use std::alloc::Global;
use std::marker::Model;
use std::sync::Arc;

/// How the values of a row are kept.
#[derive(Drop)]
enum Form {
    /// In memory of the row's own.
    Owned(Vec<Value>),
    /// In a block that rows share: from this place on, so many.
    Stretch(Arc<Vec<Value>>, usize, usize),
}

/// The values of one row, in the order of the table's columns.
///
/// A row has memory of its own, or is a stretch of a block that rows share (see [`rows_of_block`]). It takes 32 bytes beside
/// its values. A block lives as long as any of its rows.
#[derive(Drop)]
pub struct Row {
    form: Form,
}

impl Model for Row {
    ghost use Rattle.std.specs.Prelude.{List};
    ghost use Rattle.im_values.specs.declared.content.Content.{Content as AnyValue};

    ghost Value = { List AnyValue };

    ghost use Rattle.im_values.specs.Stretches.{values_of, IsInside};

    ghost view = { λ r. values_of r.form };

    ghost invariant = { λ r. IsInside r.form };
}

impl Row {
    /// A row of these values. It takes no memory.
    pub fn of(values: Vec<Value>) -> Row
        ensures { result ≡ values.items }
    {
        Row {
            form: Form::Owned(values),
        }
    }

    /// A row of these values, which its copies share.
    pub fn shared(alloc: Global, values: Vec<Value>) -> Result<Row, NoMemory>
        ensures { IfOk result (λ row. row ≡ values.items) }
    {
        let width = values.len();
        Ok(Row::stretch(Arc::new(alloc, values)?, 0, width))
    }

    /// A row of these values and one more, which its copies share.
    pub fn with(&self, alloc: Global, value: &Value) -> Result<Row, NoMemory>
        ensures { IfOk result (λ row. row ≡ self.now ++ value.now ∷ []) }
    {
        let mut values = copied(alloc, self.values())?;
        values.push(value.copy(alloc)?)?;
        Row::shared(alloc, values)
    }

    /// A stretch of a block, of so many values from a place on.
    pub(crate) fn stretch(block: Arc<Vec<Value>>, first: usize, width: usize) -> Row
        requires { first + width ≤ length (arc_value block).items }
        ensures { result ≡ slice_range (arc_value block).items first (first + width) }
    {
        Row {
            form: Form::Stretch(block, first, width),
        }
    }

    /// The values, in order.
    pub fn values(&self) -> &[Value]
        ensures { result.now ≡ self.now }
    {
        match &self.form {
            Form::Owned(values) => values.as_slice(),
            Form::Stretch(block, first, count) => &block.as_slice()[*first..*first + *count],
        }
    }
}

/// The same row once more. Where it is a stretch of a block, the copy shares the block and takes no memory.
pub fn clone_row(alloc: Global, row: &Row) -> Result<Row, NoMemory>
    ensures { IfOk result (λ copy. copy ≡ row.now) }
{
    match &row.form {
        Form::Owned(values) => Ok(Row::of(copied(alloc, values.as_slice())?)),
        Form::Stretch(block, first, count) => Ok(Row {
            form: Form::Stretch(block.clone()?, *first, *count),
        }),
    }
}

/// The same values once more.
pub fn copied(alloc: Global, values: &[Value]) -> Result<Vec<Value>, NoMemory>
    ensures { IfOk result (λ copies. copies.items ≡ values.now) }
{
    let mut copies = Vec::with_capacity(alloc, values.len())?;
    for value in values {
        copies.push(value.copy(alloc)?)?;
    }
    Ok(copies)
}

/// Puts a copy of each of these values behind others.
pub(crate) fn append(
    alloc: Global,
    values: &mut Vec<Value>,
    others: &[Value],
) -> Result<(), NoMemory>
    ensures { OnOk result (values.new.items ≡ values.old.items ++ others.now) }
{
    for other in others {
        values.push(other.copy(alloc)?)?;
    }
    Ok(())
}

/// Rows that share one block: the first so many values are the first row, and so on.
#[tactic(auto, using(crate::proofs::Cutting::cut_next))]
pub fn rows_of_block(
    alloc: Global,
    values: Vec<Value>,
    width: usize,
    count: usize,
) -> Result<Vec<Row>, NoMemory>
    requires { length values.items ≡ count * width }
    ensures { IfOk result (λ rows. rows.items ≡ cut count width values.items) }
{
    let block = Arc::new(alloc, values)?;
    let mut rows = Vec::with_capacity(alloc, count)?;
    for at in 0..count {
        rows.push(Row {
            form: Form::Stretch(block.clone()?, at * width, width),
        })?;
    }
    Ok(rows)
}
