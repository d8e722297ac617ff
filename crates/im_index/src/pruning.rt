ghost use Rattle.std.specs.Prelude.{◌≡◌};
ghost use Rattle.std.specs.List.{list_any};
ghost use Rattle.im_syntax.specs.Condition.{terms_of};
ghost use Rattle.im_index.specs.Excludes as spec;

use crate::bounds::{Bounds, may_match};
use im_syntax::{Filter, Test, TestForm, Tests};
use im_values::{Cmp, Value};

/// Whether a test for NULL is excluded.
fn null_test_excluded(bounds: &Bounds, negated: bool) -> bool
    ensures { result ≡ spec.excludes_null_test bounds.now negated }
{
    if negated {
        bounds.least.is_none()
    } else {
        bounds.nulls == 0
    }
}

/// Whether a BETWEEN is excluded.
fn between_excluded(bounds: &Bounds, low: &Value, high: &Value) -> bool
    ensures { result ≡ spec.excludes_between bounds.now low.now high.now }
{
    !may_match(bounds, Cmp::Ge, low) || !may_match(bounds, Cmp::Le, high)
}

/// Whether an IN is excluded. It stops at the first value that the column may have.
fn within_excluded(bounds: &Bounds, values: &[Value]) -> bool
    ensures { result ≡ spec.excludes_within bounds.now values.now }
{
    for value in values {
        if may_match(bounds, Cmp::Eq, value) {
            return false;
        }
    }
    true
}

/// Whether a term is excluded.
fn term_excluded(test: &Test, bounds: &[Bounds]) -> bool
    ensures { result ≡ spec.excludes_term bounds.now test.now }
{
    match test.form() {
        TestForm::Compare { column, cmp, value } => match bounds.get(*column as usize) {
            Some(bounds) => !may_match(bounds, *cmp, value),
            None => false,
        },
        TestForm::IsNull { column, negated } => match bounds.get(*column as usize) {
            Some(bounds) => null_test_excluded(bounds, *negated),
            None => false,
        },
        TestForm::Between {
            column,
            negated,
            low,
            high,
        } => match bounds.get(*column as usize) {
            Some(bounds) => !*negated && between_excluded(bounds, low, high),
            None => false,
        },
        TestForm::Within {
            column,
            negated,
            values,
        } => match bounds.get(*column as usize) {
            Some(bounds) => !*negated && within_excluded(bounds, values.values()),
            None => false,
        },
        TestForm::Not(_) | TestForm::Nest(_) => false,
    }
}

/// Whether one of the terms is excluded.
fn some_excluded(tests: &Tests, bounds: &[Bounds]) -> bool
    ensures { result ≡ list_any (spec.excludes_term bounds.now) (terms_of tests.now) }
{
    for test in tests.terms() {
        if term_excluded(test, bounds) {
            return true;
        }
    }
    false
}

/// Whether the bounds of columns exclude a condition, so that it keeps no row of these columns.
///
/// The bounds stand in the order of the columns, and a column past them excludes nothing. A condition with OR is never
/// excluded. It takes no memory, and costs a look at the ends of a column for each term, and for each value of an IN.
pub fn pruned(filter: &Filter, bounds: &[Bounds]) -> bool
    ensures { result ≡ spec.excludes filter.now bounds.now }
{
    let lists = filter.lists();
    if lists.len() != 1 {
        return false;
    }
    some_excluded(&lists[0], bounds)
}
