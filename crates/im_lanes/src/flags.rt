ghost use Rattle.std.specs.Prelude.{◌≡◌, ◌*◌, ◌^◌, ◌<◌, ◌≤◌, All, IfOk, false, length, map, slice_index_or};
ghost use Rattle.im_lanes.specs.Masks.{word_at, word_of, words_of};

use crate::mask::{Mask, word_count};
use crate::words::with_bit;
use im_bits::Bits;
use im_values::NoMemory;
use std::alloc::Global;

/// Chooses each code whose flag is set. There has to be a flag for each code that comes.
pub fn mask_by_flags(alloc: Global, bits: &Bits, flags: &[bool]) -> Result<Mask, NoMemory>
    requires { All (λ code. code < length flags.now) bits.now.codes }
    ensures { IfOk result (λ mask. mask ≡ map (λ code. slice_index_or flags.now code false) bits.now.codes) }
{
    let words = words_by_flags(alloc, bits, flags)?;
    Ok(Mask::of_words(words, bits.len()))
}

/// The words of the mask of the codes whose flag is set.
fn words_by_flags(alloc: Global, bits: &Bits, flags: &[bool]) -> Result<Vec<u64>, NoMemory>
    requires { All (λ code. code < length flags.now) bits.now.codes }
    ensures { IfOk result (λ words. words.items ≡ words_of (map (λ code. slice_index_or flags.now code false) bits.now.codes)) }
{
    let count = word_count(bits.len());
    let mut words = Vec::with_capacity(alloc, count)?;
    for place in 0..count {
        words.push(word_by_flags(bits, place as u64, flags))?;
    }
    Ok(words)
}

/// One of these words.
fn word_by_flags(bits: &Bits, place: u64, flags: &[bool]) -> u64
    requires inside { place * 64 < length bits.now.codes }
    requires few { place < 2 ^ 32 }
    requires flags { All (λ code. code < length flags.now) bits.now.codes }
    ensures { result ≡ word_at (map (λ code. slice_index_or flags.now code false) bits.now.codes) place }
{
    let first = place * 64;
    let left = (bits.len() - first).min(64);
    let mut codes = [0; 64];
    bits.codes_from(first, &mut codes);
    bits_by_flags(&codes[..left as usize], flags)
}

/// The bits of at most 64 codes whose flag is set.
fn bits_by_flags(codes: &[u32], flags: &[bool]) -> u64
    requires few { length codes.now ≤ 64 }
    requires flags { All (λ code. code < length flags.now) codes.now }
    ensures { result ≡ word_of (map (λ code. slice_index_or flags.now code false) codes.now) }
{
    let mut word = 0;
    for i in 0..codes.len() {
        word = with_bit(word, i as u32, flags[codes[i] as usize]);
    }
    word
}
