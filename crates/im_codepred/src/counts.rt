ghost use Rattle.std.specs.Prelude.{◌≡◌, ◌≢◌, ◌+◌, ◌*◌, ◌^◌, ◌<◌, ◌≤◌, ℕ, All, IfOk, MatchOption, fold, length, replicate, slice_index, take, drop};
ghost use Rattle.im_values.specs.Sizes as sizes;
ghost use Rattle.im_codes.specs.Dictionary.{coded};
ghost use Rattle.im_codepred.specs.Tallies.{chosen, AreCounts};
ghost use Rattle.im_codepred.specs.inner.Tallying.{at_bits, one_more};

use im_bits::{Bits, ROOM};
use im_column::{Column, Form};
use im_lanes::Mask;
use im_values::NoMemory;
use std::alloc::Global;

/// How many chosen positions of a column have each code of its dictionary, where it is kept in codes: first that of NULL.
///
/// It costs a step for each chosen position, and a number for each code.
pub fn counts_by_code(
    alloc: Global,
    keys: &Column,
    mask: &Mask,
) -> Result<Option<Vec<u64>>, NoMemory>
    requires { length keys.now ≡ length mask.now }
    ensures { IfOk result (λ found. MatchOption found (sizes.shape_of keys.now ≢ sizes.Coded) (λ counts. AreCounts (chosen mask.now keys.now) (coded (sizes.dictionary keys.now)) counts.items)) }
{
    match keys.form() {
        Form::Coded(dict, bits) => Ok(Some(counted_in(alloc, dict.len() + 1, bits, mask)?)),
        Form::Plain(_) | Form::Runs(_, _) => Ok(None),
    }
}

/// How many of the chosen of packed codes are each code below one.
fn counted_in(alloc: Global, most: u32, bits: &Bits, mask: &Mask) -> Result<Vec<u64>, NoMemory>
    requires long { length mask.now ≡ length bits.now.codes }
    requires codes { All (λ code. code < most) bits.now.codes }
    ensures { IfOk result (λ counts. counts.items ≡ fold one_more (replicate most 0) (chosen mask.now bits.now.codes)) }
{
    let mut counts = vec![in alloc; 0; most as usize]?;
    count_all(&mut counts, bits, mask);
    Ok(counts)
}

/// Counts the chosen of packed codes. Where 512 codes have no chosen one, they are not unpacked.
fn count_all(counts: &mut [u64], bits: &Bits, mask: &Mask)
    requires none { counts.old ≡ replicate (length counts.old) 0 }
    requires long { length mask.now ≡ length bits.now.codes }
    requires codes { All (λ code. code < length counts.old) bits.now.codes }
    ensures { counts.new ≡ fold one_more counts.old (chosen mask.now bits.now.codes) }
{
    let words = mask.words();
    let mut codes = [0; ROOM];
    let mut held = 0;
    for place in 0..words.len() {
        if words[place] != 0 {
            held = bits.turn_to(place as u64, held, &mut codes);
            count_word(counts, bits.share_of(place as u64, &codes), words[place]);
        }
    }
}

/// Counts the codes at the bits of a word that are set.
fn count_word(counts: &mut [u64], codes: &[u32], word: u64)
    requires few { (code : ℕ) → slice_index counts.old code < 2 ^ 62 }
    requires short { length codes.now ≤ 64 }
    requires codes { All (λ code. code < length counts.old) codes.now }
    requires word { word < 2 ^ length codes.now }
    ensures { counts.new ≡ fold one_more counts.old (at_bits word codes.now) }
{
    let mut rest = word;
    while rest != 0 {
        let code = codes[rest.trailing_zeros() as usize];
        counts[code as usize] += 1;
        rest &= rest - 1;
    }
}
