ghost use Rattle.std.specs.Prelude.{◌≡◌, ◌≢◌, ◌*◌, ◌^◌, ◌<◌, ◌≤◌, ℕ, All, IfOk, MatchOption, fold, length, replicate, slice_index_or, take, drop, zip};
ghost use Rattle.im_values.specs.Sizes as sizes;
ghost use Rattle.im_values.specs.declared.content.Content.TheVariants.{Null};
ghost use Rattle.im_codes.specs.Dictionary.{coded, lent, values_at};
ghost use Rattle.im_codepred.specs.Tallies.{chosen, AreTallies};
ghost use Rattle.im_codepred.specs.inner.Tallying.{at_bits, keyed, no_totals, with_pair, ShowEach, ShowEachFor};

use crate::found_by_key::{found_by_key, tallies_found};
use crate::gathered::Gathered;
use crate::tally::Tally;
use im_bits::Bits;
use im_codes::Dict;
use im_column::{Column, Form};
use im_lanes::Mask;
use im_values::{NoMemory, Value};
use std::alloc::Global;

/// What the values of a column come to at the chosen positions that have each code of the keys, where these are kept in codes:
/// first that of NULL. The least and the greatest are told only where the ends are wanted.
///
/// It costs a step for each chosen position, and a tally for each code; where both columns are kept in codes, no value is looked
/// at but for its number. Of a column of runs it costs a binary search for each of the 64 positions of a word that has a chosen
/// one.
pub fn tallies_by_code<'a>(
    alloc: Global,
    ends: bool,
    keys: &Column,
    column: &'a Column,
    mask: &Mask,
) -> Result<Option<Vec<Tally<'a>>>, NoMemory>
    requires keys { length keys.now ≡ length mask.now }
    requires column { length column.now ≡ length mask.now }
    ensures { IfOk result (λ found. MatchOption found (sizes.shape_of keys.now ≢ sizes.Coded) (λ tallies. AreTallies ends mask.now keys.now column.now (coded (sizes.dictionary keys.now)) tallies.items)) }
{
    match keys.form() {
        Form::Coded(dict, bits) => {
            Ok(Some(keyed_tallies(alloc, ends, dict.len() + 1, bits, column, mask)?))
        }
        Form::Plain(_) | Form::Runs(_, _) => Ok(None),
    }
}

/// What the values of a column come to at the chosen positions that have each packed key below one, by the form of the column.
fn keyed_tallies<'a>(
    alloc: Global,
    ends: bool,
    most: u32,
    keys: &Bits,
    column: &'a Column,
    mask: &Mask,
) -> Result<Vec<Tally<'a>>, NoMemory>
    requires keys { length keys.now.codes ≡ length mask.now }
    requires column { length column.now ≡ length mask.now }
    requires codes { All (λ code. code < most) keys.now.codes }
    ensures { IfOk result (λ tallies. ShowEachFor ends (fold with_pair (replicate most no_totals) (chosen mask.now (zip keys.now.codes column.now))) tallies.items) }
{
    match column.form() {
        Form::Coded(dict, codes) => Ok(coded_tallies(alloc, ends, most, keys, dict, codes, mask)?),
        Form::Plain(_) | Form::Runs(_, _) => {
            let groups = grouped_in(alloc, most, keys, column, mask)?;
            Ok(tallies_of(alloc, &groups)?)
        }
    }
}

/// What the values of packed codes come to at the chosen positions that have each packed key below one.
fn coded_tallies<'a>(
    alloc: Global,
    ends: bool,
    most: u32,
    keys: &Bits,
    dict: &'a Dict,
    codes: &Bits,
    mask: &Mask,
) -> Result<Vec<Tally<'a>>, NoMemory>
    requires keys { length keys.now.codes ≡ length mask.now }
    requires long { length codes.now.codes ≡ length mask.now }
    requires below { All (λ code. code < most) keys.now.codes }
    requires codes { All (λ code. code < length (coded dict.now)) codes.now.codes }
    ensures { IfOk result (λ tallies. ShowEachFor ends (fold with_pair (replicate most no_totals) (chosen mask.now (zip keys.now.codes (values_at (coded dict.now) codes.now.codes)))) tallies.items) }
{
    let _ = dict.len();
    let values = dict.values();
    let founds = found_by_key(alloc, ends, most, keys, values, codes, mask)?;
    Ok(tallies_found(alloc, &founds, values)?)
}

/// What the values of a column come to at the chosen positions that have each packed code below one.
fn grouped_in<'a>(
    alloc: Global,
    most: u32,
    keys: &Bits,
    column: &'a Column,
    mask: &Mask,
) -> Result<Vec<Gathered<'a>>, NoMemory>
    requires keys { length keys.now.codes ≡ length mask.now }
    requires column { length column.now ≡ length mask.now }
    requires codes { All (λ code. code < most) keys.now.codes }
    ensures { IfOk result (λ groups. groups.items ≡ fold with_pair (replicate most no_totals) (chosen mask.now (zip keys.now.codes column.now))) }
{
    let mut groups = no_groups(alloc, most)?;
    group_all(&mut groups, keys, column, mask);
    Ok(groups)
}

/// So many groups, with nothing in them yet.
fn no_groups<'a>(alloc: Global, most: u32) -> Result<Vec<Gathered<'a>>, NoMemory>
    ensures { IfOk result (λ groups. groups.items ≡ replicate most no_totals) }
{
    let mut groups = Vec::with_capacity(alloc, most as usize)?;
    for _ in 0..most {
        groups.push(Gathered::none())?;
    }
    Ok(groups)
}

/// Takes the values of a column at the chosen positions, each in the group of its key.
fn group_all<'a>(groups: &mut [Gathered<'a>], keys: &Bits, column: &'a Column, mask: &Mask)
    requires none { groups.old ≡ replicate (length groups.old) no_totals }
    requires keys { length keys.now.codes ≡ length mask.now }
    requires column { length column.now ≡ length mask.now }
    requires codes { All (λ code. code < length groups.old) keys.now.codes }
    ensures { groups.new ≡ fold with_pair groups.old (chosen mask.now (zip keys.now.codes column.now)) }
{
    let words = mask.words();
    for place in 0..words.len() {
        group_share(groups, keys, column, place as u64, words[place]);
    }
}

/// Takes of 64 values of a column from a place on those at the bits of a word that are set.
fn group_share<'a>(
    groups: &mut [Gathered<'a>],
    keys: &Bits,
    column: &'a Column,
    place: u64,
    word: u64,
)
    requires few { (key : ℕ) → (slice_index_or groups.old key no_totals).values < 2 ^ 62 }
    requires inside { place * 64 < length keys.now.codes }
    requires near { place < 2 ^ 32 }
    requires long { length keys.now.codes ≡ length column.now }
    requires codes { All (λ code. code < length groups.old) keys.now.codes }
    requires word { word < 2 ^ length (take 64 (drop (place * 64) (zip keys.now.codes column.now))) }
    ensures { groups.new ≡ fold with_pair groups.old (at_bits word (take 64 (drop (place * 64) (zip keys.now.codes column.now)))) }
{
    if word == 0 {
        return;
    }
    let first = place * 64;
    let left = (keys.len() - first).min(64);
    let mut codes = [0; 64];
    keys.codes_from(first, &mut codes);
    let mut values = [column.get(first); 64];
    column.lend_from(first, &mut values);
    group_word(groups, &codes[..left as usize], &values, word);
}

/// Takes the values at the bits of a word that are set, each in the group of its key.
fn group_word<'a>(groups: &mut [Gathered<'a>], keys: &[u32], values: &[&'a Value; 64], word: u64)
    requires few { (key : ℕ) → (slice_index_or groups.old key no_totals).values < 2 ^ 62 }
    requires short { length keys.now ≤ 64 }
    requires codes { All (λ code. code < length groups.old) keys.now }
    requires word { word < 2 ^ length keys.now }
    ensures { groups.new ≡ fold with_pair groups.old (at_bits word (keyed keys.now (lent values.now))) }
{
    let mut rest = word;
    while rest != 0 {
        let i = rest.trailing_zeros() as usize;
        let key = keys[i] as usize;
        groups[key].take(value_at(values, i));
        rest &= rest - 1;
    }
}

/// A value of those that a column lends.
#[inline(always)]
fn value_at<'a>(values: &[&'a Value; 64], i: usize) -> &'a Value
    requires { i < 64 }
    ensures { result.now ≡ slice_index_or (lent values.now) i Null }
{
    let values = values.as_slice();
    values[i]
}

/// What each group comes to.
fn tallies_of<'a>(alloc: Global, groups: &[Gathered<'a>]) -> Result<Vec<Tally<'a>>, NoMemory>
    ensures { IfOk result (λ tallies. ShowEach groups.now tallies.items) }
{
    let mut tallies = Vec::with_capacity(alloc, groups.len())?;
    for group in groups {
        tallies.push(group.tally())?;
    }
    Ok(tallies)
}
