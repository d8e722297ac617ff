ghost use Rattle.std.specs.Prelude.{◌≡◌, ◌++◌, ◌∷◌, [], IfOk, OnOk, fold, if◌then◌else◌};
ghost use Rattle.std.specs.List.{list_any};
ghost use Rattle.im_syntax.specs.BoundQuery.{is_listed};
ghost use Rattle.im_group.specs.Sums as sums;
ghost use Rattle.im_group.specs.Tallies as spec;

use im_syntax::{Function, Item};
use im_values::NoMemory;
use std::alloc::Global;

/// An end of the values of a column.
#[derive(Clone, Copy)]
pub enum End {
    Least,
    Greatest,
}

/// What a query asks of a column of each group, beside how many values there are and what they add up to.
#[derive(Clone, Copy)]
pub struct Asked {
    pub column: u32,
    /// Whether an item reads the least value.
    pub least: bool,
    /// Whether an item reads the greatest value.
    pub greatest: bool,
}

/// Whether a function reads an end of the values.
fn reads(end: End, function: Function) -> bool
    ensures { result ≡ sums.reads end function }
{
    matches!(
        (end, function),
        (End::Least, Function::Min) | (End::Greatest, Function::Max)
    )
}

/// Whether an item reads an end of the values of this column.
fn asks(end: End, column: u32, item: Item) -> bool
    ensures { result ≡ spec.asks end column item }
{
    match item {
        Item::Column(_) | Item::CountAll => false,
        Item::Aggregate(function, other) => reads(end, function) && other == column,
    }
}

fn some_ask(end: End, column: u32, items: &[Item]) -> bool
    ensures { result ≡ list_any (spec.asks end column) items.now }
{
    for item in items {
        if asks(end, column, *item) {
            return true;
        }
    }
    false
}

/// Puts a column behind the others, unless it is among them.
fn put_column(columns: &mut Vec<u32>, column: u32) -> Result<(), NoMemory>
    ensures { OnOk result
        (columns.new.items ≡ (if is_listed columns.old.items column then columns.old.items else columns.old.items ++ column ∷ [])) }
{
    if !columns.as_slice().contains(&column) {
        columns.push(column)?;
    }
    Ok(())
}

fn put_item(columns: &mut Vec<u32>, item: Item) -> Result<(), NoMemory>
    ensures { OnOk result (columns.new.items ≡ spec.with_column columns.old.items item) }
{
    match item {
        Item::Column(_) | Item::CountAll => Ok(()),
        Item::Aggregate(_, column) => put_column(columns, column),
    }
}

/// The columns that aggregates go over, each once.
fn columns_of(alloc: Global, items: &[Item]) -> Result<Vec<u32>, NoMemory>
    ensures { IfOk result (λ columns. columns.items ≡ fold spec.with_column [] items.now) }
{
    let mut columns = Vec::new(alloc);
    for item in items {
        put_item(&mut columns, *item)?;
    }
    Ok(columns)
}

fn asked_of(items: &[Item], column: u32) -> Asked
    ensures { result ≡ spec.asked_of items.now column }
{
    Asked {
        column,
        least: some_ask(End::Least, column, items),
        greatest: some_ask(End::Greatest, column, items),
    }
}

/// What these items ask of the columns of each group: one entry for each column that an aggregate goes over.
#[tactic(auto, unfolding(crate::specs::Tallies::asked_in))]
pub fn asked_in(alloc: Global, items: &[Item]) -> Result<Vec<Asked>, NoMemory>
    ensures { IfOk result (λ asked. asked.items ≡ spec.asked_in items.now) }
{
    let columns = columns_of(alloc, items)?;
    let mut asked = Vec::with_capacity(alloc, columns.len())?;
    for column in columns.as_slice() {
        asked.push(asked_of(items, *column))?;
    }
    Ok(asked)
}

/// Where the summary of a column stands, or how many there are where it has none.
pub fn place_of(asked: &[Asked], column: u32) -> usize
    ensures { result ≡ spec.place_of asked.now column }
{
    for (i, one) in asked.iter().enumerate() {
        if one.column == column {
            return i;
        }
    }
    asked.len()
}
