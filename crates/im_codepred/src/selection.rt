ghost use Rattle.std.specs.Prelude.{◌≡◌, ◌^◌, ◌<◌, ◌≤◌, ℕ, IfOk, length, map, replicate, All};
ghost use Rattle.std.specs.Arc.{arc_value};
ghost use Rattle.im_syntax.specs.BoundFits.{FilterFits, TestFits, TestsFit};
ghost use Rattle.im_eval.specs.Holds as holds;
ghost use Rattle.im_codepred.specs.declared.asked.Wanted.TheVariants.{Held};
ghost use Rattle.im_codepred.specs.Asked.{met};
ghost use Rattle.im_codepred.specs.Selection.{AreLong, OfRows, rows_met};
ghost use Rattle.im_codepred.specs.inner.Parts.{part};
ghost use Rattle.im_codepred.specs.inner.Slabs.{passing, IsWhole, OfEach};
ghost use Rattle.im_lanes.specs.Masks.{joined, word_of};

use crate::asked::{Asked, Wanted};
use crate::slab::Slab;
use im_column::Column;
use im_eval::holds;
use im_lanes::{Mask, with_bit};
use im_syntax::{Filter, Test, TestForm, Tests};
use im_values::{NoMemory, Truth, WideRun};
use std::alloc::Global;
use std::sync::Arc;

/// How many rows are asked the whole condition one by one: of as few, making the masks of its tests costs more.
const FEW: usize = 8;

/// Chooses the rows of which a condition is true, each by its position: a row is made of the values that the columns have there.
///
/// Each test is asked of its column, and no row is made. It holds at most two masks for each level of the condition at a time,
/// asks every test whatever the others answer, and recurses as deep as NOT and parentheses nest in the condition.
pub fn select(
    alloc: Global,
    filter: &Filter,
    columns: &[Arc<Column>],
    n: u64,
) -> Result<Mask, NoMemory>
    requires few { n < 2 ^ 31 }
    requires long { AreLong (map arc_value columns.now) n }
    requires fits { OfRows (λ row. FilterFits row filter.now) (map arc_value columns.now) n }
    ensures { IfOk result (λ mask. mask ≡ rows_met Held (holds.truth_of filter.now) (map arc_value columns.now) n) }
{
    if n == 0 {
        let mask = Mask::none(alloc, 0)?;
        return Ok(mask);
    }
    let slab = Slab::Columns(columns, n);
    let mask = some_mask(alloc, Wanted::Held, filter, &slab)?;
    Ok(mask)
}

/// Chooses the rows of a run of which a condition is true, each by its position in the run.
///
/// Each test goes over the values of its column, and no row is made; of few rows each is asked the whole condition instead,
/// which then takes the memory of one mask alone. The rest is as [`select`] says.
pub fn select_rows(alloc: Global, filter: &Filter, rows: &WideRun<'_>) -> Result<Mask, NoMemory>
    requires few { length rows.now < 2 ^ 31 }
    requires fits { All (λ row. FilterFits row filter.now) rows.now }
    ensures { IfOk result (λ mask. mask ≡ map (λ row. met Held (holds.truth_of filter.now row)) rows.now) }
{
    if rows.is_empty() {
        let mask = Mask::none(alloc, 0)?;
        return Ok(mask);
    }
    if rows.len() <= FEW {
        let mask = mask_by_row(alloc, filter, rows)?;
        return Ok(mask);
    }
    let slab = Slab::Run(rows);
    let mask = some_mask(alloc, Wanted::Held, filter, &slab)?;
    Ok(mask)
}

/// The mask of few rows, at least one, of each of which the whole condition is asked.
fn mask_by_row(alloc: Global, filter: &Filter, rows: &WideRun<'_>) -> Result<Mask, NoMemory>
    requires some { 0 < length rows.now }
    requires few { length rows.now ≤ FEW }
    requires fits { All (λ row. FilterFits row filter.now) rows.now }
    ensures { IfOk result (λ mask. mask ≡ map (λ row. met Held (holds.truth_of filter.now row)) rows.now) }
{
    let word = word_by_row(filter, rows);
    let mut words = Vec::with_capacity(alloc, 1)?;
    words.push(word)?;
    Ok(Mask::of_words(words, rows.len() as u64))
}

/// Its word.
fn word_by_row(filter: &Filter, rows: &WideRun<'_>) -> u64
    requires few { length rows.now ≤ FEW }
    requires fits { All (λ row. FilterFits row filter.now) rows.now }
    ensures { result ≡ word_of (map (λ row. met Held (holds.truth_of filter.now row)) rows.now) }
{
    let mut word = 0;
    for i in 0..rows.len() {
        let truth = holds(filter, &rows.values(i));
        word = with_bit(word, i as u32, Wanted::Held.met(truth));
    }
    word
}

/// Joins a mask with that of the next part: both under AND, one of them under OR, and the other way round where they are to fail.
fn join(mask: &mut Mask, both: bool, next: &Mask)
    requires { length mask.old ≡ length next.now }
    ensures { mask.new ≡ joined (part both) mask.old next.now }
{
    if both {
        mask.and_with(next);
    } else {
        mask.or_with(next);
    }
}

/// The rows of which a test is as it is wanted.
#[cycle(selection)]
fn test_mask(alloc: Global, wanted: Wanted, test: &Test, slab: &Slab) -> Result<Mask, NoMemory>
    requires whole { IsWhole slab.now }
    requires fits { OfEach (λ row. TestFits row test.now) slab.now }
    ensures { IfOk result (λ mask. mask ≡ passing (λ row. met wanted (holds.truth_of_test test.now row)) slab.now) }
{
    match test.form() {
        TestForm::Compare { column, cmp, value } => {
            let asked = Asked::Compare(*cmp, value);
            Ok(slab.mask(alloc, wanted, &asked, *column)?)
        }
        TestForm::IsNull { column, negated } => {
            let asked = Asked::IsNull;
            Ok(slab.mask(alloc, wanted.turned(*negated), &asked, *column)?)
        }
        TestForm::Between {
            column,
            negated,
            low,
            high,
        } => {
            let asked = Asked::Between(low, high);
            Ok(slab.mask(alloc, wanted.turned(*negated), &asked, *column)?)
        }
        TestForm::Within {
            column,
            negated,
            values,
        } => {
            let asked = Asked::Within(values);
            Ok(slab.mask(alloc, wanted.turned(*negated), &asked, *column)?)
        }
        TestForm::Not(test) => Ok(test_mask(alloc, wanted.swapped(), test, slab)?),
        TestForm::Nest(filter) => Ok(some_mask(alloc, wanted, filter, slab)?),
    }
}

/// The rows of which an AND of tests is as it is wanted.
#[cycle(selection)]
fn all_mask(alloc: Global, wanted: Wanted, tests: &Tests, slab: &Slab) -> Result<Mask, NoMemory>
    requires whole { IsWhole slab.now }
    requires fits { OfEach (λ row. TestsFit row tests.now) slab.now }
    ensures { IfOk result (λ mask. mask ≡ passing (λ row. met wanted (holds.truth_of_tests tests.now row)) slab.now) }
{
    let both = wanted.met(Truth::Yes);
    let mut mask = constant(alloc, both, slab.len())?;
    for test in tests.terms() {
        let next = test_mask(alloc, wanted, test, slab)?;
        join(&mut mask, both, &next);
    }
    Ok(mask)
}

/// The rows of which an OR of conjunctions is as it is wanted.
#[cycle(selection)]
fn some_mask(alloc: Global, wanted: Wanted, filter: &Filter, slab: &Slab) -> Result<Mask, NoMemory>
    requires whole { IsWhole slab.now }
    requires fits { OfEach (λ row. FilterFits row filter.now) slab.now }
    ensures { IfOk result (λ mask. mask ≡ passing (λ row. met wanted (holds.truth_of filter.now row)) slab.now) }
{
    let both = wanted.met(Truth::No);
    let mut mask = constant(alloc, both, slab.len())?;
    for tests in filter.lists() {
        let next = all_mask(alloc, wanted, tests, slab)?;
        join(&mut mask, both, &next);
    }
    Ok(mask)
}

/// So many positions, all chosen or none.
fn constant(alloc: Global, all: bool, n: u64) -> Result<Mask, NoMemory>
    requires { n < 2 ^ 31 }
    ensures { IfOk result (λ mask. mask ≡ replicate n all) }
{
    if all {
        Ok(Mask::all(alloc, n)?)
    } else {
        Ok(Mask::none(alloc, n)?)
    }
}
