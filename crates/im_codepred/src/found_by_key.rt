ghost use Rattle.std.specs.Prelude.{◌≡◌, ◌*◌, ◌^◌, ◌<◌, ◌≤◌, ℕ, All, IfOk, fold, length, map, replicate, slice_index_or, take, drop, zip};
ghost use Rattle.im_codes.specs.Dictionary.{coded, IsDictionary};
ghost use Rattle.im_codepred.specs.Tallies.{chosen};
ghost use Rattle.im_codepred.specs.inner.Tallying.{at_bits, nothing, totals_of, with_code, AreInside, ShowEach};

use crate::code_numbers::CodeNumbers;
use crate::found::Found;
use crate::tally::Tally;
use im_bits::{Bits, ROOM};
use im_lanes::Mask;
use im_values::{NoMemory, Value};
use std::alloc::Global;

/// What is found among the chosen of packed codes with each packed key below one, and the least and the greatest only where the
/// ends are wanted. Where 512 codes have no chosen one, they are not unpacked.
pub fn found_by_key(
    alloc: Global,
    ends: bool,
    most: u32,
    keys: &Bits,
    dict: &[Value],
    codes: &Bits,
    mask: &Mask,
) -> Result<Vec<Found>, NoMemory>
    requires keys { length keys.now.codes ≡ length mask.now }
    requires long { length codes.now.codes ≡ length mask.now }
    requires below { All (λ code. code < most) keys.now.codes }
    requires dictionary { IsDictionary dict.now }
    requires codes { All (λ code. code < length (coded dict.now)) codes.now.codes }
    ensures { IfOk result (λ founds. founds.items ≡ fold (with_code ends dict.now) (replicate most nothing) (chosen mask.now (zip keys.now.codes codes.now.codes))) }
{
    let mut founds = none_found(alloc, most)?;
    find_all(&mut founds, ends, keys, &CodeNumbers::of(dict), codes, mask);
    Ok(founds)
}

/// Nothing yet with each key below one.
fn none_found(alloc: Global, most: u32) -> Result<Vec<Found>, NoMemory>
    ensures { IfOk result (λ founds. founds.items ≡ replicate most nothing) }
{
    let mut founds = Vec::with_capacity(alloc, most as usize)?;
    for _ in 0..most {
        founds.push(Found::none())?;
    }
    Ok(founds)
}

/// Takes the chosen of packed codes, each with its key.
fn find_all(
    founds: &mut [Found],
    ends: bool,
    keys: &Bits,
    numbers: &CodeNumbers,
    codes: &Bits,
    mask: &Mask,
)
    requires none { founds.old ≡ replicate (length founds.old) nothing }
    requires keys { length keys.now.codes ≡ length mask.now }
    requires long { length codes.now.codes ≡ length mask.now }
    requires below { All (λ code. code < length founds.old) keys.now.codes }
    requires codes { All (λ code. code < length (coded numbers.now)) codes.now.codes }
    ensures { founds.new ≡ fold (with_code ends numbers.now) founds.old (chosen mask.now (zip keys.now.codes codes.now.codes)) }
{
    let words = mask.words();
    let mut some_keys = [0; ROOM];
    let mut some_codes = [0; ROOM];
    let mut held = 0;
    for place in 0..words.len() {
        if words[place] != 0 {
            let _ = keys.turn_to(place as u64, held, &mut some_keys);
            held = codes.turn_to(place as u64, held, &mut some_codes);
            find_word(
                founds,
                ends,
                keys.share_of(place as u64, &some_keys),
                numbers,
                codes.share_of(place as u64, &some_codes),
                words[place],
            );
        }
    }
}

/// Takes the codes at the bits of a word that are set, each with its key.
fn find_word(
    founds: &mut [Found],
    ends: bool,
    keys: &[u32],
    numbers: &CodeNumbers,
    codes: &[u32],
    word: u64,
)
    requires few { (key : ℕ) → (slice_index_or founds.old key nothing).values < 2 ^ 62 }
    requires short { length keys.now ≤ 64 }
    requires long { length keys.now ≡ length codes.now }
    requires below { All (λ code. code < length founds.old) keys.now }
    requires codes { All (λ code. code < length (coded numbers.now)) codes.now }
    requires word { word < 2 ^ length keys.now }
    ensures { founds.new ≡ fold (with_code ends numbers.now) founds.old (at_bits word (zip keys.now codes.now)) }
{
    let mut rest = word;
    while rest != 0 {
        let i = rest.trailing_zeros() as usize;
        let key = keys[i] as usize;
        founds[key].take_for(ends, numbers, codes[i]);
        rest &= rest - 1;
    }
}

/// What is found with each key, as values.
pub fn tallies_found<'a>(
    alloc: Global,
    founds: &[Found],
    dict: &'a [Value],
) -> Result<Vec<Tally<'a>>, NoMemory>
    requires inside { AreInside dict.now founds.now }
    requires dictionary { IsDictionary dict.now }
    ensures { IfOk result (λ tallies. ShowEach (map (totals_of dict.now) founds.now) tallies.items) }
{
    let mut tallies = Vec::with_capacity(alloc, founds.len())?;
    for found in founds {
        tallies.push(found.tally(dict))?;
    }
    Ok(tallies)
}
