ghost use Rattle.std.specs.Prelude.{◌≡◌, ◌+◌, ◌^◌, ◌<◌, ◌≤◌, ◌*◌, ℕ, All, IfOk, false, length, map, get_or, [], slice_index, slice_index_or, take, drop, if◌then◌else◌};
ghost use Rattle.std.specs.Arc.{arc_value};
ghost use Rattle.im_codes.specs.Dictionary.{coded, values_at, IsDictionary};
ghost use Rattle.im_codes.specs.Runs.{codes_of};
ghost use Rattle.im_values.specs.declared.content.Content.TheVariants.{Null};
ghost use Rattle.im_lanes.specs.Masks.{word_at, word_of, words_of, filled};
ghost use Rattle.im_codepred.specs.Asked.{is_met};
ghost use Rattle.im_codepred.specs.inner.Numbers.{passes, IsReady};
ghost use Rattle.im_codepred.specs.inner.Spans.{is_chosen};

use crate::asked::{Asked, Wanted};
use crate::chosen::Chosen;
use crate::numbers::Probe;
use im_bits::Bits;
use im_codes::{Dict, Run, Runs};
use im_column::{Column, Form};
use im_lanes::{Mask, with_bit, word_count};
use im_values::{NoMemory, Value};
use std::alloc::Global;
use std::sync::Arc;

/// Chooses the positions of a column whose value has the truth that is wanted.
///
/// Of a dictionary a comparison, BETWEEN and IS NULL are asked by ranges of its codes, for a binary search or two, and IN of
/// each value once. Of runs each run is asked once.
pub fn mask_of(
    alloc: Global,
    wanted: Wanted,
    asked: &Asked,
    column: &Column,
) -> Result<Mask, NoMemory>
    ensures { IfOk result (λ mask. mask ≡ map (is_met wanted asked.now) column.now) }
{
    match column.form() {
        Form::Plain(values) => Ok(plain_mask(alloc, wanted, asked, values, column.len())?),
        Form::Coded(dict, bits) => Ok(coded_mask(alloc, wanted, asked, dict, bits)?),
        Form::Runs(dict, runs) => Ok(run_mask(alloc, wanted, asked, dict, runs)?),
    }
}

/// The mask of one of some columns, by its number.
pub fn column_mask(
    alloc: Global,
    wanted: Wanted,
    asked: &Asked,
    columns: &[Arc<Column>],
    column: u32,
) -> Result<Mask, NoMemory>
    requires { column < length columns.now }
    ensures { IfOk result (λ mask. mask ≡ map (is_met wanted asked.now) (get_or (map arc_value columns.now) column [])) }
{
    Ok(mask_of(alloc, wanted, asked, column_of(columns, column))?)
}

/// The column of a number.
pub fn column_of(columns: &[Arc<Column>], column: u32) -> &Column
    requires { column < length columns.now }
    ensures { result.now ≡ get_or (map arc_value columns.now) column result.now }
{
    &columns[column as usize]
}

/// The mask of codes.
fn coded_mask(
    alloc: Global,
    wanted: Wanted,
    asked: &Asked,
    dict: &Dict,
    bits: &Bits,
) -> Result<Mask, NoMemory>
    requires { All (λ code. code < length (coded dict.now)) bits.now.codes }
    ensures { IfOk result (λ mask. mask ≡ map (is_met wanted asked.now) (values_at (coded dict.now) bits.now.codes)) }
{
    let chosen = Chosen::of(alloc, wanted, asked, dict)?;
    let mask = chosen.mask(alloc, bits, dict.len() + 1)?;
    Ok(mask)
}

/// The mask of runs of codes.
fn run_mask(
    alloc: Global,
    wanted: Wanted,
    asked: &Asked,
    dict: &Dict,
    runs: &Runs,
) -> Result<Mask, NoMemory>
    requires { All (λ code. code < length (coded dict.now)) runs.now }
    ensures { IfOk result (λ mask. mask ≡ map (is_met wanted asked.now) (values_at (coded dict.now) runs.now)) }
{
    let chosen = Chosen::of(alloc, wanted, asked, dict)?;
    let mask = chosen_runs(alloc, &chosen, runs)?;
    Ok(mask)
}

/// The mask of values one beside another.
fn plain_mask(
    alloc: Global,
    wanted: Wanted,
    asked: &Asked,
    values: &[Value],
    len: u64,
) -> Result<Mask, NoMemory>
    requires len { len ≡ length values.now }
    requires few { len < 2 ^ 31 }
    ensures { IfOk result (λ mask. mask ≡ map (is_met wanted asked.now) values.now) }
{
    let probe = Probe::of(wanted, asked);
    let words = plain_words(alloc, &probe, values, len)?;
    Ok(Mask::of_words(words, len))
}

/// Its words.
fn plain_words(
    alloc: Global,
    probe: &Probe,
    values: &[Value],
    len: u64,
) -> Result<Vec<u64>, NoMemory>
    requires ready { IsReady probe.now }
    requires len { len ≡ length values.now }
    requires few { len < 2 ^ 31 }
    ensures { IfOk result (λ words. words.items ≡ words_of (map (passes probe.now) values.now)) }
{
    let count = word_count(len);
    let mut words = Vec::with_capacity(alloc, count)?;
    for place in 0..count {
        words.push(plain_word(probe, share(values, place)))?;
    }
    Ok(words)
}

/// The values that a word is made of: 64 from a place on, or as many as are left.
pub(crate) fn share(values: &[Value], place: usize) -> &[Value]
    requires inside { place * 64 < length values.now }
    requires few { length values.now < 2 ^ 31 }
    ensures part { result.now ≡ take 64 (drop (place * 64) values.now) }
    ensures short { length result.now ≤ 64 }
{
    let end = values.len().min(place * 64 + 64);
    &values[place * 64..end]
}

/// The word of at most 64 values.
fn plain_word(probe: &Probe, values: &[Value]) -> u64
    requires ready { IsReady probe.now }
    requires few { length values.now ≤ 64 }
    ensures { result ≡ word_of (map (passes probe.now) values.now) }
{
    let mut word = 0;
    for i in 0..values.len() {
        word = with_bit(word, i as u32, probe.meets(&values[i]));
    }
    word
}

/// The mask of runs, by whole words.
fn chosen_runs(alloc: Global, chosen: &Chosen, runs: &Runs) -> Result<Mask, NoMemory>
    ensures { IfOk result (λ mask. mask ≡ map (is_chosen chosen.now) runs.now) }
{
    let mut mask = Mask::none(alloc, runs.len())?;
    let mut begin = 0;
    for run in runs.runs() {
        begin = choose_run(&mut mask, chosen, begin, run);
    }
    Ok(mask)
}

/// Chooses a run from a position on, where its code is chosen; the answer is the position past it.
fn choose_run(mask: &mut Mask, chosen: &Chosen, begin: u64, run: &Run) -> u64
    requires begin { begin ≤ run.now.end }
    requires end { run.now.end ≤ length mask.old }
    ensures end { result ≡ run.now.end }
    ensures mask { mask.new ≡ (if is_chosen chosen.now run.now.code then filled begin run.now.end mask.old else mask.old) }
{
    let end = u64::from(run.end);
    if chosen.has(run.code) {
        mask.fill(begin, end);
    }
    end
}
