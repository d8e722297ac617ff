ghost use Rattle.std.specs.Prelude.{◌≡◌, ◌+◌, ◌*◌, ◌^◌, ◌<◌, ◌≤◌, All, IfOk, [], drop, fold, length, map, get_or, take};
ghost use Rattle.im_syntax.specs.BoundFits.{HasColumn, value_at};
ghost use Rattle.im_lanes.specs.Masks.{word_at, words_of};
ghost use Rattle.im_codepred.specs.Asked.{is_met};
ghost use Rattle.im_codepred.specs.Tallies.{chosen, IsTallyOf};
ghost use Rattle.im_codepred.specs.inner.Numbers.{passes, passes_in, Holds, IsReady};
ghost use Rattle.im_codepred.specs.inner.Slabs.{column_of};
ghost use Rattle.im_codepred.specs.inner.Tallying.{at_bits, no_totals, with_value};

use crate::asked::{Asked, Wanted};
use crate::gathered::Gathered;
use crate::numbers::{Numbers, Probe};
use crate::tally::Tally;
use im_lanes::{Mask, count, with_bit, word_count};
use im_values::{NoMemory, Value, WideRun};
use std::alloc::Global;

/// Chooses the rows of a run whose value in a column has the truth that is wanted.
///
/// The rows are gone over once, 64 to a word, and none is made.
pub fn rows_mask(
    alloc: Global,
    wanted: Wanted,
    asked: &Asked,
    rows: &WideRun<'_>,
    column: u32,
) -> Result<Mask, NoMemory>
    requires few { length rows.now < 2 ^ 31 }
    requires inside { All (λ row. HasColumn row column) rows.now }
    ensures { IfOk result (λ mask. mask ≡ map (λ row. is_met wanted asked.now (value_at row column)) rows.now) }
{
    let probe = Probe::of(wanted, asked);
    let words = rows_words(alloc, &probe, rows, column)?;
    Ok(Mask::of_words(words, rows.len() as u64))
}

/// The words of that mask.
fn rows_words(
    alloc: Global,
    probe: &Probe,
    rows: &WideRun<'_>,
    column: u32,
) -> Result<Vec<u64>, NoMemory>
    requires ready { IsReady probe.now }
    requires few { length rows.now < 2 ^ 31 }
    requires inside { All (λ row. HasColumn row column) rows.now }
    ensures { IfOk result (λ words. words.items ≡ words_of (map (passes_in probe.now column) rows.now)) }
{
    let count = word_count(rows.len() as u64);
    let mut words = Vec::with_capacity(alloc, count)?;
    for place in 0..count {
        words.push(rows_word(probe, rows, column, place))?;
    }
    Ok(words)
}

/// The word at a place: of 64 rows, or of as many as are left.
fn rows_word(probe: &Probe, rows: &WideRun<'_>, column: u32, place: usize) -> u64
    requires ready { IsReady probe.now }
    requires few { length rows.now < 2 ^ 31 }
    requires inside { All (λ row. HasColumn row column) rows.now }
    requires begins { place * 64 < length rows.now }
    ensures { result ≡ word_at (map (passes_in probe.now column) rows.now) place }
{
    match probe.numbers() {
        Some(numbers) => numbers_word(probe, numbers, rows, column, place),
        None => values_word(probe, rows, column, place),
    }
}

/// The same where it is known which numbers pass.
fn numbers_word(
    probe: &Probe,
    numbers: Numbers,
    rows: &WideRun<'_>,
    column: u32,
    place: usize,
) -> u64
    requires known { Holds numbers (passes probe.now) }
    requires few { length rows.now < 2 ^ 31 }
    requires inside { All (λ row. HasColumn row column) rows.now }
    requires begins { place * 64 < length rows.now }
    ensures { result ≡ word_at (map (passes_in probe.now column) rows.now) place }
{
    let first = place * 64;
    let count = (rows.len() - first).min(64);
    let mut word = 0;
    for i in 0..count {
        let met = probe.meets_among(numbers, value_in(rows, first + i, column));
        word = with_bit(word, i as u32, met);
    }
    word
}

/// The same where each value is asked.
fn values_word(probe: &Probe, rows: &WideRun<'_>, column: u32, place: usize) -> u64
    requires ready { IsReady probe.now }
    requires few { length rows.now < 2 ^ 31 }
    requires inside { All (λ row. HasColumn row column) rows.now }
    requires begins { place * 64 < length rows.now }
    ensures { result ≡ word_at (map (passes_in probe.now column) rows.now) place }
{
    let first = place * 64;
    let count = (rows.len() - first).min(64);
    let mut word = 0;
    for i in 0..count {
        let met = probe.meets(value_in(rows, first + i, column));
        word = with_bit(word, i as u32, met);
    }
    word
}

/// The value of the row at a place, in a column.
#[inline(always)]
fn value_in<'a>(rows: &WideRun<'a>, at: usize, column: u32) -> &'a Value
    requires within { at < length rows.now }
    requires inside { All (λ row. HasColumn row column) rows.now }
    ensures { result.now ≡ value_at (get_or rows.now at []) column }
{
    rows.values(at).at(column as usize)
}

/// What the values of a column at the chosen rows of a run come to. It takes no memory.
///
/// It costs a step for each chosen row, and less where each is chosen, or 64 that lie in one word of the mask.
pub fn tally_rows<'a>(rows: &WideRun<'a>, column: u32, mask: &Mask) -> Tally<'a>
    requires long { length mask.now ≡ length rows.now }
    requires inside { All (λ row. HasColumn row column) rows.now }
    ensures { IsTallyOf (chosen mask.now (map (λ row. value_at row column) rows.now)) result }
{
    let gathered = gathered_rows(rows, column, mask);
    gathered.tally()
}

/// What they come to, as it is gathered.
fn gathered_rows<'a>(rows: &WideRun<'a>, column: u32, mask: &Mask) -> Gathered<'a>
    requires long { length mask.now ≡ length rows.now }
    requires inside { All (λ row. HasColumn row column) rows.now }
    ensures { result ≡ fold with_value no_totals (chosen mask.now (column_of rows.now column)) }
{
    if count(mask) == mask.len() {
        return gathered_whole(rows, column);
    }
    gathered_words(rows, column, mask)
}

/// What the values of all rows come to.
fn gathered_whole<'a>(rows: &WideRun<'a>, column: u32) -> Gathered<'a>
    requires few { length rows.now < 2 ^ 31 }
    requires inside { All (λ row. HasColumn row column) rows.now }
    ensures { result ≡ fold with_value no_totals (column_of rows.now column) }
{
    let mut gathered = Gathered::none();
    gather_all(&mut gathered, rows, column, 0, rows.len());
    gathered
}

/// What those of the chosen rows come to, word by word.
fn gathered_words<'a>(rows: &WideRun<'a>, column: u32, mask: &Mask) -> Gathered<'a>
    requires long { length mask.now ≡ length rows.now }
    requires inside { All (λ row. HasColumn row column) rows.now }
    ensures { result ≡ fold with_value no_totals (chosen mask.now (column_of rows.now column)) }
{
    let words = mask.words();
    let mut gathered = Gathered::none();
    for place in 0..words.len() {
        gather_word(&mut gathered, rows, column, place * 64, words[place]);
    }
    gathered
}

/// Gathers the values of the rows at the bits of a word, of which the lowest is that of the row at `first`.
#[inline(always)]
fn gather_word<'a>(
    gathered: &mut Gathered<'a>,
    rows: &WideRun<'a>,
    column: u32,
    first: usize,
    word: u64,
)
    requires inside { All (λ row. HasColumn row column) rows.now }
    requires rows { length rows.now < 2 ^ 31 }
    requires few { gathered.old.values < 2 ^ 62 }
    requires word { word < 2 ^ length (take 64 (drop first (column_of rows.now column))) }
    ensures { gathered.new ≡ fold with_value gathered.old (at_bits word (take 64 (drop first (column_of rows.now column)))) }
{
    if word == u64::MAX {
        gather_all(gathered, rows, column, first, 64);
    } else {
        gather_some(gathered, rows, column, first, word);
    }
}

/// Gathers the values of so many rows from a place on.
fn gather_all<'a>(
    gathered: &mut Gathered<'a>,
    rows: &WideRun<'a>,
    column: u32,
    first: usize,
    count: usize,
)
    requires inside { All (λ row. HasColumn row column) rows.now }
    requires within { first + count ≤ length rows.now }
    requires rows { length rows.now < 2 ^ 31 }
    requires few { gathered.old.values < 2 ^ 62 }
    ensures { gathered.new ≡ fold with_value gathered.old (take count (drop first (column_of rows.now column))) }
{
    for i in 0..count {
        gathered.take(value_in(rows, first + i, column));
    }
}

/// Gathers the values of the rows whose bit is set.
fn gather_some<'a>(
    gathered: &mut Gathered<'a>,
    rows: &WideRun<'a>,
    column: u32,
    first: usize,
    word: u64,
)
    requires inside { All (λ row. HasColumn row column) rows.now }
    requires rows { length rows.now < 2 ^ 31 }
    requires few { gathered.old.values < 2 ^ 62 }
    requires word { word < 2 ^ length (take 64 (drop first (column_of rows.now column))) }
    ensures { gathered.new ≡ fold with_value gathered.old (at_bits word (take 64 (drop first (column_of rows.now column)))) }
{
    let mut rest = word;
    while rest != 0 {
        gathered.take(value_in(rows, first + rest.trailing_zeros() as usize, column));
        rest &= rest - 1;
    }
}
