ghost use Rattle.std.specs.Prelude.{◌≡◌, ◌+◌, ◌*◌, ◌/◌, ◌^◌, ◌<◌, ◌≤◌, IfOk, length, map};
ghost use Rattle.im_bits.specs.Packed.{IsHeld};
ghost use Rattle.im_lanes.specs.Masks.{is_between, is_within, word_at, words_of};

use crate::lanes::bits_between;
use crate::mask::{Mask, word_count};
use crate::words::first_bits;
use im_bits::{Bits, ROOM};
use im_values::NoMemory;
use std::alloc::Global;
use std::simd::u32x64;

/// Chooses each code that lies between two others, both ends in. None does where `high` is below `low`.
pub fn mask_between(alloc: Global, bits: &Bits, low: u32, high: u32) -> Result<Mask, NoMemory>
    ensures { IfOk result (λ mask. mask ≡ map (is_between low high) bits.now.codes) }
{
    if high < low {
        let mask = Mask::none(alloc, bits.len())?;
        return Ok(mask);
    }
    let words = words_between(alloc, bits, low, high)?;
    Ok(Mask::of_words(words, bits.len()))
}

/// Chooses each code from one on and below another.
pub fn mask_within(alloc: Global, bits: &Bits, low: u32, end: u32) -> Result<Mask, NoMemory>
    ensures { IfOk result (λ mask. mask ≡ map (is_within low end) bits.now.codes) }
{
    if end == 0 {
        let mask = Mask::none(alloc, bits.len())?;
        return Ok(mask);
    }
    let mask = mask_between(alloc, bits, low, end - 1)?;
    Ok(mask)
}

/// The words of the mask of the codes that lie between two others.
fn words_between(alloc: Global, bits: &Bits, low: u32, high: u32) -> Result<Vec<u64>, NoMemory>
    requires { low ≤ high }
    ensures { IfOk result (λ words. words.items ≡ words_of (map (is_between low high) bits.now.codes)) }
{
    let count = word_count(bits.len());
    let mut words = Vec::with_capacity(alloc, count)?;
    let mut codes = [0; ROOM];
    let mut held = 0;
    for place in 0..count {
        held = bits.turn_to(place as u64, held, &mut codes);
        words.push(word_between(bits, place as u64, &codes, low, high))?;
    }
    Ok(words)
}

/// One of these words, of the codes in a buffer that was turned to it.
#[inline(always)]
fn word_between(bits: &Bits, place: u64, codes: &[u32; ROOM], low: u32, high: u32) -> u64
    requires order { low ≤ high }
    requires inside { place * 64 < length bits.now.codes }
    requires few { place < 2 ^ 32 }
    requires held { IsHeld bits.now.codes (place / 8 + 1) codes.now }
    ensures { result ≡ word_at (map (is_between low high) bits.now.codes) place }
{
    let left = bits.len() - place * 64;
    let lanes = bits.lanes_of(place, codes);
    first_bits(bits_between(u32x64::from_array(lanes), low, high), left)
}
