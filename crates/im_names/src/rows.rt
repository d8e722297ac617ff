ghost use Rattle.std.specs.Prelude.{◌≡◌, ◌++◌, get_or, length, map, None, IfOk, OnOk, IfErr};
ghost use Rattle.im_values.specs.declared.content.Content.TheVariants as values;
ghost use Rattle.im_syntax.specs.declared.literal.Lit.TheVariants as lit;
ghost use Rattle.im_names.specs.Faults.{IsCause, Passes, first_fault};
ghost use Rattle.im_names.specs.Literals.{value_of as of_literal};
ghost use Rattle.im_names.specs.Rows as spec;
ghost use Rattle.im_names.specs.inner.TargetNumbers.{numbers_of};

use crate::columns::{number_of, width_of};
use crate::fault::NameFault;
use crate::literals::{check_stored, value_of};
use crate::targets::Targets;
use im_history::TableInfo;
use im_syntax::Lit;
use im_values::{List, Name, NoMemory, Rows, Schema, Value};
use std::alloc::Global;

// ---- INSERT

/// A tuple of so many values.
fn check_count(tuple: &[Lit], wanted: usize) -> Result<(), NameFault>
    ensures ok { OnOk result (spec.count_fault wanted tuple.now ≡ None) }
    ensures err { IfErr result (IsCause (spec.count_fault wanted tuple.now)) }
{
    if tuple.len() == wanted {
        Ok(())
    } else {
        Err(NameFault::WrongCount {
            got: tuple.len() as u64,
            wanted: wanted as u64,
        })
    }
}

/// Tuples of so many values each.
pub fn check_counts(tuples: &[List<Lit>], wanted: usize) -> Result<(), NameFault>
    ensures ok { OnOk result (first_fault (map (spec.count_fault wanted) tuples.now) ≡ None) }
    ensures err { IfErr result (IsCause (first_fault (map (spec.count_fault wanted) tuples.now))) }
{
    for tuple in tuples {
        check_count(tuple.items(), wanted)?;
    }
    Ok(())
}

/// A literal that the column of a number may hold.
fn check_placed(alloc: Global, schema: &Schema, number: u32, lit: &Lit) -> Result<(), NameFault>
    ensures ok { OnOk result (spec.stored_fault schema.now (number, lit.now) ≡ None) }
    ensures err { IfErr result (IsCause (spec.stored_fault schema.now (number, lit.now))) }
{
    match schema.columns().get(number as usize) {
        Some(column) => check_stored(alloc, column, lit),
        None => Ok(()),
    }
}

/// A tuple whose values their columns may hold.
#[tactic(auto, using(crate::proofs::TargetLemmas::rest_begins, crate::proofs::TargetLemmas::no_more_values))]
fn check_tuple(
    alloc: Global,
    schema: &Schema,
    targets: &Targets,
    tuple: &[Lit],
) -> Result<(), NameFault>
    ensures ok { OnOk result (spec.tuple_fault schema.now (numbers_of targets.now) tuple.now ≡ None) }
    ensures err { IfErr result (IsCause (spec.tuple_fault schema.now (numbers_of targets.now) tuple.now)) }
{
    for (i, lit) in tuple.iter().enumerate() {
        let Some(number) = targets.number_at(i) else {
            return Ok(());
        };
        check_placed(alloc, schema, number, lit)?;
    }
    Ok(())
}

/// The value at a place of a tuple, or NULL.
fn value_at(alloc: Global, tuple: &[Lit], i: usize) -> Result<Value, NoMemory>
    ensures { IfOk result (λ value. value ≡ of_literal (get_or tuple.now i lit.Null)) }
{
    match tuple.get(i) {
        Some(lit) => value_of(alloc, lit),
        None => Ok(Value::null()),
    }
}

/// The default of a column, or NULL.
fn default_at(alloc: Global, defaults: &[Value], column: u32) -> Result<Value, NoMemory>
    ensures { IfOk result (λ value. value ≡ get_or defaults.now column values.Null) }
{
    match defaults.get(column as usize) {
        Some(default) => default.copy(alloc),
        None => Ok(Value::null()),
    }
}

/// The value of a column in the row of a tuple.
fn value_in(
    alloc: Global,
    defaults: &[Value],
    targets: &Targets,
    tuple: &[Lit],
    column: u32,
) -> Result<Value, NoMemory>
    ensures { IfOk result (λ value. value ≡ spec.value_in defaults.now (numbers_of targets.now) tuple.now column) }
{
    match targets.source_of(column) {
        Some(i) => value_at(alloc, tuple, i),
        None => default_at(alloc, defaults, column),
    }
}

/// Puts the values of a tuple's row, of so many columns, behind those of the rows before it.
fn push_row(
    alloc: Global,
    values: &mut Vec<Value>,
    width: u32,
    defaults: &[Value],
    targets: &Targets,
    tuple: &[Lit],
) -> Result<(), NoMemory>
    ensures { OnOk result (values.new.items
        ≡ values.old.items ++ spec.row_of width defaults.now (numbers_of targets.now) tuple.now) }
{
    for column in 0..width {
        values.push(value_in(alloc, defaults, targets, tuple, column)?)?;
    }
    Ok(())
}

/// The rows of tuples whose values are for these columns. They share one block.
pub fn rows_of(
    alloc: Global,
    table: &TableInfo,
    targets: &Targets,
    tuples: &[List<Lit>],
) -> Result<Rows, NameFault>
    ensures ok { IfOk result (λ rows. Passes
        (first_fault (map (spec.tuple_fault table.now.schema (numbers_of targets.now)) tuples.now))
        (rows ≡ map (spec.row_of (length table.now.schema) table.now.defaults (numbers_of targets.now)) tuples.now)) }
    ensures err { IfErr result
        (IsCause (first_fault (map (spec.tuple_fault table.now.schema (numbers_of targets.now)) tuples.now))) }
{
    let width = width_of(&table.schema);
    let defaults = table.defaults.values();
    let room = tuples.len().saturating_mul(width as usize);
    let mut values = Vec::with_capacity(alloc, room)?;
    for tuple in tuples {
        check_tuple(alloc, &table.schema, targets, tuple.items())?;
        push_row(alloc, &mut values, width, defaults, targets, tuple.items())?;
    }
    Ok(Rows::of(alloc, values, width as usize, tuples.len())?)
}

// ---- UPDATE

fn bind_set(
    alloc: Global,
    schema: &Schema,
    name: &Name,
    lit: &Lit,
) -> Result<(u32, Value), NameFault>
    ensures ok { IfOk result (λ bound. Passes
        (spec.set_fault schema.now (name.now, lit.now))
        (bound ≡ spec.set_of schema.now (name.now, lit.now))) }
    ensures err { IfErr result (IsCause (spec.set_fault schema.now (name.now, lit.now))) }
{
    let number = number_of(schema, name);
    check_placed(alloc, schema, number, lit)?;
    Ok((number, value_of(alloc, lit)?))
}

/// The values of a SET with the numbers of their columns.
pub fn bind_sets(
    alloc: Global,
    schema: &Schema,
    sets: &[(Name, Lit)],
) -> Result<List<(u32, Value)>, NameFault>
    ensures ok { IfOk result (λ bound. Passes
        (first_fault (map (spec.set_fault schema.now) sets.now))
        (bound ≡ map (spec.set_of schema.now) sets.now)) }
    ensures err { IfErr result (IsCause (first_fault (map (spec.set_fault schema.now) sets.now))) }
{
    let mut bound = Vec::with_capacity(alloc, sets.len())?;
    for (name, lit) in sets {
        bound.push(bind_set(alloc, schema, name, lit)?)?;
    }
    Ok(List::of(bound))
}
