ghost use Rattle.std.specs.Prelude.{◌≡◌, map, None, OnOk, IfOk, IfErr};
ghost use Rattle.im_syntax.specs.Condition as tree;
ghost use Rattle.im_names.specs.Faults.{IsCause, Passes};
ghost use Rattle.im_names.specs.Lookups.{number_of as number, unknown_fault, of_column};
ghost use Rattle.im_names.specs.Literals.{value_of as value, compared};
ghost use Rattle.im_names.specs.Conditions as spec;

use crate::columns::{check_known, number_of};
use crate::fault::NameFault;
use crate::literals::{check_compared, value_of};
use im_syntax::{Choices, Cond, Conj, Filter, Lit, Term, TermForm, Test, TestForm, Tests};
use im_values::{Name, NoMemory, Schema, Value};
use std::alloc::Global;

// ---- names

#[cycle(names)]
fn check_term(alloc: Global, schema: &Schema, term: &Term) -> Result<(), NameFault>
    ensures ok { OnOk result (unknown_fault schema.now (spec.term_names term.now) ≡ None) }
    ensures err { IfErr result (IsCause (unknown_fault schema.now (spec.term_names term.now))) }
{
    match term.form() {
        TermForm::Not(term) => check_term(alloc, schema, term),
        TermForm::Nest(cond) => check_cond(alloc, schema, cond),
        TermForm::Compare { column, .. } => check_known(alloc, schema, column),
        TermForm::IsNull { column, .. } => check_known(alloc, schema, column),
        TermForm::Between { column, .. } => check_known(alloc, schema, column),
        TermForm::Within { column, .. } => check_known(alloc, schema, column),
    }
}

#[cycle(names)]
fn check_conj(alloc: Global, schema: &Schema, conj: &Conj) -> Result<(), NameFault>
    ensures ok { OnOk result (unknown_fault schema.now (spec.conj_names conj.now) ≡ None) }
    ensures err { IfErr result (IsCause (unknown_fault schema.now (spec.conj_names conj.now))) }
{
    for term in conj.terms() {
        check_term(alloc, schema, term)?;
    }
    Ok(())
}

#[cycle(names)]
fn check_cond(alloc: Global, schema: &Schema, cond: &Cond) -> Result<(), NameFault>
    ensures ok { OnOk result (unknown_fault schema.now (spec.cond_names cond.now) ≡ None) }
    ensures err { IfErr result (IsCause (unknown_fault schema.now (spec.cond_names cond.now))) }
{
    for conj in cond.lists() {
        check_conj(alloc, schema, conj)?;
    }
    Ok(())
}

/// A WHERE whose names the table has columns of.
pub fn check_where(alloc: Global, schema: &Schema, cond: &Option<Cond>) -> Result<(), NameFault>
    ensures ok { OnOk result (unknown_fault schema.now (spec.where_names cond.now) ≡ None) }
    ensures err { IfErr result (IsCause (unknown_fault schema.now (spec.where_names cond.now))) }
{
    match cond {
        None => Ok(()),
        Some(cond) => check_cond(alloc, schema, cond),
    }
}

// ---- values

/// The value of a literal that is compared with the column of a number.
fn bind_value(alloc: Global, schema: &Schema, column: u32, lit: &Lit) -> Result<Value, NameFault>
    ensures ok { IfOk result (λ x. Passes
        (of_column schema.now column (compared (value lit.now)))
        (x ≡ value lit.now)) }
    ensures err { IfErr result (IsCause (of_column schema.now column (compared (value lit.now)))) }
{
    if let Some(column) = schema.columns().get(column as usize) {
        check_compared(alloc, column, lit)?;
    }
    Ok(value_of(alloc, lit)?)
}

fn bind_values(
    alloc: Global,
    schema: &Schema,
    column: &Name,
    lits: &[Lit],
) -> Result<Choices, NameFault>
    ensures ok { IfOk result (λ xs. Passes
        (spec.values_fault schema.now (map (spec.behind column.now) lits.now))
        (xs ≡ map value lits.now)) }
    ensures err { IfErr result (IsCause (spec.values_fault schema.now (map (spec.behind column.now) lits.now))) }
{
    let number = number_of(schema, column);
    let mut values = Vec::with_capacity(alloc, lits.len())?;
    for lit in lits {
        values.push(bind_value(alloc, schema, number, lit)?)?;
    }
    Ok(Choices::of(alloc, values)?)
}

#[cycle(filter)]
fn bind_term(alloc: Global, schema: &Schema, term: &Term) -> Result<Test, NameFault>
    ensures ok { IfOk result (λ x. Passes
        (spec.values_fault schema.now (spec.term_values term.now))
        (x ≡ spec.term_map (number schema.now) value term.now)) }
    ensures err { IfErr result (IsCause (spec.values_fault schema.now (spec.term_values term.now))) }
{
    match term.form() {
        TermForm::Not(term) => Ok(negation(alloc, bind_term(alloc, schema, term)?)?),
        TermForm::Nest(cond) => Ok(nested(alloc, bind_cond(alloc, schema, cond)?)?),
        TermForm::Compare { column, cmp, value } => {
            let column = number_of(schema, column);
            let value = bind_value(alloc, schema, column, value)?;
            Ok(Test::of(TestForm::Compare {
                column,
                cmp: *cmp,
                value,
            }))
        }
        TermForm::IsNull { column, negated } => Ok(Test::of(TestForm::IsNull {
            column: number_of(schema, column),
            negated: *negated,
        })),
        TermForm::Between {
            column,
            negated,
            low,
            high,
        } => {
            let column = number_of(schema, column);
            let low = bind_value(alloc, schema, column, low)?;
            let high = bind_value(alloc, schema, column, high)?;
            Ok(Test::of(TestForm::Between {
                column,
                negated: *negated,
                low,
                high,
            }))
        }
        TermForm::Within {
            column,
            negated,
            values,
        } => {
            let values = bind_values(alloc, schema, column, values.items())?;
            Ok(Test::of(TestForm::Within {
                column: number_of(schema, column),
                negated: *negated,
                values,
            }))
        }
    }
}

fn negation(alloc: Global, test: Test) -> Result<Test, NoMemory>
    ensures { IfOk result (λ x. x ≡ tree.negation test) }
{
    Ok(Test::of(TestForm::Not(Box::new(alloc, test)?)))
}

fn nested(alloc: Global, filter: Filter) -> Result<Test, NoMemory>
    ensures { IfOk result (λ x. x ≡ tree.nested filter) }
{
    Ok(Test::of(TestForm::Nest(Box::new(alloc, filter)?)))
}

#[cycle(filter)]
fn bind_conj(alloc: Global, schema: &Schema, conj: &Conj) -> Result<Tests, NameFault>
    ensures ok { IfOk result (λ x. Passes
        (spec.values_fault schema.now (spec.conj_values conj.now))
        (x ≡ spec.conj_map (number schema.now) value conj.now)) }
    ensures err { IfErr result (IsCause (spec.values_fault schema.now (spec.conj_values conj.now))) }
{
    let mut tests = Vec::with_capacity(alloc, conj.terms().len())?;
    for term in conj.terms() {
        tests.push(bind_term(alloc, schema, term)?)?;
    }
    Ok(Tests::of(tests))
}

#[cycle(filter)]
fn bind_cond(alloc: Global, schema: &Schema, cond: &Cond) -> Result<Filter, NameFault>
    ensures ok { IfOk result (λ x. Passes
        (spec.values_fault schema.now (spec.cond_values cond.now))
        (x ≡ spec.cond_map (number schema.now) value cond.now)) }
    ensures err { IfErr result (IsCause (spec.values_fault schema.now (spec.cond_values cond.now))) }
{
    let mut lists = Vec::with_capacity(alloc, cond.lists().len())?;
    for conj in cond.lists() {
        lists.push(bind_conj(alloc, schema, conj)?)?;
    }
    Ok(Filter::of(lists))
}

/// The filter of a WHERE whose names were checked.
pub fn bind_where(
    alloc: Global,
    schema: &Schema,
    cond: &Option<Cond>,
) -> Result<Option<Filter>, NameFault>
    ensures ok { IfOk result (λ x. Passes
        (spec.values_fault schema.now (spec.where_values cond.now))
        (x ≡ spec.filter_of schema.now cond.now)) }
    ensures err { IfErr result (IsCause (spec.values_fault schema.now (spec.where_values cond.now))) }
{
    match cond {
        None => Ok(None),
        Some(cond) => Ok(Some(bind_cond(alloc, schema, cond)?)),
    }
}
