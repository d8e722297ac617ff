ghost use Rattle.std.specs.Prelude.{◌≡◌, ◌^◌, ◌<◌, All, IfSome, length};
ghost use Rattle.std.specs.Bool.{OnTrue};
ghost use Rattle.im_codepred.specs.Tallies.{chosen, IsTallyOf, IsWithin};
ghost use Rattle.im_codes.specs.Dictionary.{coded, values_at};

use crate::code_numbers::CodeNumbers;
use crate::found::{found_among, found_in};
use crate::gathered::gathered_in;
use im_bits::Bits;
use im_codes::{Dict, Runs};
use im_column::{Column, Form};
use im_lanes::{Mask, count};
use im_values::Value;

/// What values come to.
#[derive(Clone, Copy)]
pub struct Tally<'a> {
    /// How many are not NULL.
    pub values: u64,

    /// The exact sum of those that are numbers.
    pub sum: i128,

    /// The least that is not NULL, in the order of values, where there is one.
    pub least: Option<&'a Value>,

    /// The greatest that is not NULL, where there is one.
    pub greatest: Option<&'a Value>,
}

/// What the values at the chosen positions of a column come to. It takes no memory.
///
/// It costs a step for each chosen position, of runs a step for each run, and nothing of these where each position is chosen:
/// then it is read off what the column keeps.
pub fn tally_of<'a>(column: &'a Column, mask: &Mask) -> Tally<'a>
    requires { length column.now ≡ length mask.now }
    ensures { IsTallyOf (chosen mask.now column.now) result }
{
    if count(mask) == mask.len() {
        if let Some(tally) = whole_tally(column) {
            return tally;
        }
    }
    form_tally(column, mask)
}

/// The same, by the form of the column.
fn form_tally<'a>(column: &'a Column, mask: &Mask) -> Tally<'a>
    requires { length column.now ≡ length mask.now }
    ensures { IsTallyOf (chosen mask.now column.now) result }
{
    match column.form() {
        Form::Plain(values) => gathered_in(values, mask).tally(),
        Form::Coded(dict, bits) => coded_tally(dict, bits, mask),
        Form::Runs(dict, runs) => run_tally(dict, runs, mask),
    }
}

/// What all values of a column come to, by what it keeps. None where the sum that it keeps is not one of so many numbers of 64
/// bits, which it does not say.
fn whole_tally<'a>(column: &'a Column) -> Option<Tally<'a>>
    ensures { IfSome result (IsTallyOf column.now) }
{
    let bounds = column.bounds();
    let values = column.len() - bounds.nulls;
    let sum = column.sum();
    if !is_within(values, sum) {
        return None;
    }
    Some(Tally {
        values,
        sum,
        least: bounds.least.as_ref(),
        greatest: bounds.greatest.as_ref(),
    })
}

/// Whether so many numbers of 64 bits can add up to a sum.
fn is_within(values: u64, sum: i128) -> bool
    requires { values < 2 ^ 31 }
    ensures { OnTrue result (IsWithin values sum) }
{
    let most = i128::from(values) * 0x8000_0000_0000_0000;
    -most <= sum && sum <= most
}

/// What the chosen of packed codes come to.
fn coded_tally<'a>(dict: &'a Dict, bits: &Bits, mask: &Mask) -> Tally<'a>
    requires long { length mask.now ≡ length bits.now.codes }
    requires codes { All (λ code. code < length (coded dict.now)) bits.now.codes }
    ensures { IsTallyOf (chosen mask.now (values_at (coded dict.now) bits.now.codes)) result }
{
    let _ = dict.len();
    let values = dict.values();
    let numbers = CodeNumbers::of(values);
    found_in(&numbers, bits, mask).tally(values)
}

/// What the chosen of runs of codes come to.
fn run_tally<'a>(dict: &'a Dict, runs: &Runs, mask: &Mask) -> Tally<'a>
    requires long { length mask.now ≡ length runs.now }
    requires codes { All (λ code. code < length (coded dict.now)) runs.now }
    ensures { IsTallyOf (chosen mask.now (values_at (coded dict.now) runs.now)) result }
{
    let _ = dict.len();
    let values = dict.values();
    found_among(values, runs, mask).tally(values)
}
