ghost use Rattle.std.specs.Prelude.{◌≡◌, ◌<◌, ◌≤◌, ◌^◌, All, IfSome, List, get_or, length, map, []};
ghost use Rattle.std.specs.Arc.{arc_value};
ghost use Rattle.im_values.specs.declared.content.Content.{Content as AnyValue};
ghost use Rattle.im_syntax.specs.BoundFits.{value_at};
ghost use Rattle.im_eval.specs.Holds as holds;
ghost use Rattle.im_codes.specs.Dictionary.{coded, values_at};
ghost use Rattle.im_lanes.specs.Masks.{is_within};
ghost use Rattle.im_codepred.specs.declared.asked.Wanted.TheVariants.{Held};
ghost use Rattle.im_codepred.specs.Asked.{is_met, met};
ghost use Rattle.im_codepred.specs.Selection.{AreLong, rows_met};
ghost use Rattle.im_codepred.specs.Tallies.{IsTallyOfAll};
ghost use Rattle.im_codepred.specs.inner.Ranged.{AreThere, IsAllOf, IsSpanBelow};
ghost use Rattle.im_codepred.specs.inner.Spans.{Chooses};

use crate::asked::{Asked, Wanted};
use crate::code_numbers::CodeNumbers;
use crate::form::column_of;
use crate::found::found_within;
use crate::spans::{Span, Spans, spans_of};
use crate::tally::Tally;
use im_bits::Bits;
use im_codes::Dict;
use im_column::{Column, Form};
use im_syntax::{Filter, Test, TestForm};
use std::sync::Arc;

/// The codes of a block are added up in 32 bits, for which the range has to end here at the latest.
const MOST_END: u32 = 0x10000;

/// What the values of a column come to in the rows of which a condition is true. None where that is not known without a mask, and
/// where there is no such row.
///
/// It is known where the condition is one comparison or BETWEEN of this column, which chooses a range of codes, and the codes stand for
/// numbers that follow one another. The codes in the range are counted and added up, many at once, and no mask is made.
pub fn tally_where<'a>(
    filter: &Filter,
    columns: &'a [Arc<Column>],
    n: u64,
    column: u32,
) -> Option<Tally<'a>>
    requires inside { column < length columns.now }
    requires long { AreLong (map arc_value columns.now) n }
    ensures { IfSome result (λ tally.
        IsTallyOfAll (rows_met Held (holds.truth_of filter.now) (map arc_value columns.now) n) (get_or (map arc_value columns.now) column []) tally) }
{
    let test = sole_test(filter)?;
    let (wanted, asked) = asked_of(test, column)?;
    met_tally(wanted, &asked, column_of(columns, column))
}

/// The test that a condition is.
fn sole_test(filter: &Filter) -> Option<&Test>
    ensures { IfSome result (λ test. (row : List AnyValue) → met Held (holds.truth_of filter.now row) ≡ met Held (holds.truth_of_test test.now row)) }
{
    let lists = filter.lists();
    if lists.len() != 1 {
        return None;
    }
    let terms = lists[0].terms();
    if terms.len() != 1 {
        return None;
    }
    Some(&terms[0])
}

/// What a comparison or BETWEEN asks of a column, where it is of that column.
fn asked_of<'a>(test: &'a Test, column: u32) -> Option<(Wanted, Asked<'a>)>
    ensures { IfSome result (λ asked. (row : List AnyValue) → met Held (holds.truth_of_test test.now row) ≡ is_met asked.0 asked.1 (value_at row column)) }
{
    match test.form() {
        TestForm::Compare {
            column: tested,
            cmp,
            value,
        } if *tested == column => Some((Wanted::Held, Asked::Compare(*cmp, value))),
        TestForm::Between {
            column: tested,
            negated,
            low,
            high,
        } if *tested == column => Some((Wanted::Held.turned(*negated), Asked::Between(low, high))),
        _ => None,
    }
}

/// What the values of a column come to that have the truth that is wanted.
fn met_tally<'a>(wanted: Wanted, asked: &Asked, column: &'a Column) -> Option<Tally<'a>>
    ensures { IfSome result (IsTallyOfAll (map (is_met wanted asked.now) column.now) column.now) }
{
    match column.form() {
        Form::Coded(dict, bits) => {
            let _ = dict.len();
            coded_tally(wanted, asked, dict, bits)
        }
        Form::Plain(_) | Form::Runs(_, _) => None,
    }
}

/// The same of codes.
fn coded_tally<'a>(wanted: Wanted, asked: &Asked, dict: &'a Dict, bits: &Bits) -> Option<Tally<'a>>
    requires codes { All (λ code. code < length (coded dict.now)) bits.now.codes }
    requires there { AreThere dict.now bits.now.codes }
    ensures { IfSome result (IsTallyOfAll (map (is_met wanted asked.now) (values_at (coded dict.now) bits.now.codes)) (values_at (coded dict.now) bits.now.codes)) }
{
    let spans = spans_of(wanted, asked, dict)?;
    let span = sole_span(spans, dict.len() + 1)?;
    span_tally(dict, bits, span)
}

/// The one range of codes that two ranges are.
fn sole_span(spans: Spans, most: u32) -> Option<Span>
    ensures { IfSome result (IsAllOf spans most) }
{
    let Span { low, end } = spans.first;
    if spans.second.low < spans.second.end || low == 0 || low >= end {
        return None;
    }
    (end <= most && end <= MOST_END).then_some(spans.first)
}

/// What the values of a range of codes come to.
fn span_tally<'a>(dict: &'a Dict, bits: &Bits, span: Span) -> Option<Tally<'a>>
    requires span { IsSpanBelow (length (coded dict.now)) span }
    requires codes { All (λ code. code < length (coded dict.now)) bits.now.codes }
    requires there { AreThere dict.now bits.now.codes }
    ensures { IfSome result (IsTallyOfAll (map (is_within span.low span.end) bits.now.codes) (values_at (coded dict.now) bits.now.codes)) }
{
    let _ = dict.len();
    let values = dict.values();
    let numbers = CodeNumbers::of(values);
    let first = numbers.first()?;
    Some(found_within(&numbers, first, bits, span).tally(values))
}
