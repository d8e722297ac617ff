ghost use Rattle.std.specs.Prelude.{◌≡◌, ◌<◌, length};
ghost use Rattle.im_syntax.specs.BoundFits.{FilterFits, TestsFit, TestFits, value_at};
ghost use Rattle.im_eval.specs.Holds as spec;

use im_syntax::{Choices, Filter, Test, TestForm, Tests};
use im_values::{Cmp, RowValues, Seen, Truth, Value, compare};

/// The value of a row in a column.
fn value_in<'a>(row: &RowValues<'a>, column: u32) -> &'a Value
    requires { column < length row.now }
    ensures { result.now ≡ value_at row.now column }
{
    row.at(column as usize)
}

/// A truth, behind NOT where that is written.
fn with_not(negated: bool, truth: Truth) -> Truth
    ensures { result ≡ spec.with_not negated truth }
{
    if negated { truth.negated() } else { truth }
}

fn null_test(value: &Value) -> Truth
    ensures { result ≡ spec.null_truth value.now }
{
    match value.seen() {
        Seen::Null => Truth::Yes,
        _ => Truth::No,
    }
}

fn between(value: &Value, low: &Value, high: &Value) -> Truth
    ensures { result ≡ spec.between_truth value.now low.now high.now }
{
    compare(value, Cmp::Ge, low).and(compare(value, Cmp::Le, high))
}

/// The truth of IN, without a walk through its values: a look-up, and whether NULL is one of them.
pub fn within(value: &Value, choices: &Choices) -> Truth
    ensures { result ≡ spec.within_truth value.now choices.now }
{
    if choices.is_empty() {
        return Truth::No;
    }
    match value.seen() {
        Seen::Null => Truth::Unknown,
        _ if choices.has(value) => Truth::Yes,
        _ if choices.has_null() => Truth::Unknown,
        _ => Truth::No,
    }
}

#[cycle(condition)]
fn test_holds(test: &Test, row: &RowValues<'_>) -> Truth
    requires { TestFits row.now test.now }
    ensures { result ≡ spec.truth_of_test test.now row.now }
{
    match test.form() {
        TestForm::Compare { column, cmp, value } => compare(value_in(row, *column), *cmp, value),
        TestForm::IsNull { column, negated } => {
            with_not(*negated, null_test(value_in(row, *column)))
        }
        TestForm::Between {
            column,
            negated,
            low,
            high,
        } => with_not(*negated, between(value_in(row, *column), low, high)),
        TestForm::Within {
            column,
            negated,
            values,
        } => with_not(*negated, within(value_in(row, *column), values)),
        TestForm::Not(test) => test_holds(test, row).negated(),
        TestForm::Nest(filter) => holds(filter, row),
    }
}

/// The AND of the tests.
#[cycle(condition)]
fn all_hold(tests: &Tests, row: &RowValues<'_>) -> Truth
    requires { TestsFit row.now tests.now }
    ensures { result ≡ spec.truth_of_tests tests.now row.now }
{
    let mut truth = Truth::Yes;
    for test in tests.terms() {
        truth = truth.and(test_holds(test, row));
        if truth == Truth::No {
            return truth;
        }
    }
    truth
}

/// The truth of a condition on a row, by SQL's three-valued logic: the OR of its conjunctions.
///
/// It takes no memory, stops at the first Yes of an OR and the first No of an AND, and recurses as deep as NOT and
/// parentheses nest in the condition.
#[cycle(condition)]
pub fn holds(filter: &Filter, row: &RowValues<'_>) -> Truth
    requires { FilterFits row.now filter.now }
    ensures { result ≡ spec.truth_of filter.now row.now }
{
    let mut truth = Truth::No;
    for tests in filter.lists() {
        truth = truth.or(all_hold(tests, row));
        if truth == Truth::Yes {
            return truth;
        }
    }
    truth
}
