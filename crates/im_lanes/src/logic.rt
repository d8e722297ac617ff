ghost use Rattle.std.specs.Prelude.{◌≡◌, ◌-◌, ◌<◌, ◌≤◌, ◌&&◌, ◌||◌, IfOk, count_by, drop, length, map, not, take};
ghost use Rattle.im_lanes.specs.Masks.{joined};

use crate::mask::{Mask, word_count};
use crate::words::first_bits;
use im_values::NoMemory;
use std::alloc::Global;

/// Chooses what both masks choose.
pub fn mask_and(alloc: Global, a: &Mask, b: &Mask) -> Result<Mask, NoMemory>
    requires { length a.now ≡ length b.now }
    ensures { IfOk result (λ mask. mask ≡ joined (λ x y. x && y) a.now b.now) }
{
    let mut mask = a.copy(alloc)?;
    mask.and_with(b);
    Ok(mask)
}

/// Chooses what one of the masks chooses, or both.
pub fn mask_or(alloc: Global, a: &Mask, b: &Mask) -> Result<Mask, NoMemory>
    requires { length a.now ≡ length b.now }
    ensures { IfOk result (λ mask. mask ≡ joined (λ x y. x || y) a.now b.now) }
{
    let mut mask = a.copy(alloc)?;
    mask.or_with(b);
    Ok(mask)
}

/// Chooses what a mask does not.
pub fn mask_not(alloc: Global, a: &Mask) -> Result<Mask, NoMemory>
    ensures { IfOk result (λ mask. mask ≡ map not a.now) }
{
    let mut mask = a.copy(alloc)?;
    mask.negate();
    Ok(mask)
}

/// How many positions are chosen.
pub fn count(mask: &Mask) -> u64
    ensures { result ≡ count_by (λ chosen. chosen) mask.now }
{
    let words = mask.words();
    let mut total = 0;
    for place in 0..words.len() {
        total += u64::from(words[place].count_ones());
    }
    total
}

/// How many positions are chosen from one on and below another. It goes over the words between.
pub fn count_within(mask: &Mask, from: u64, end: u64) -> u64
    requires some { from < end }
    requires within { end ≤ length mask.now }
    ensures { result ≡ count_by (λ chosen. chosen) (take (end - from) (drop from mask.now)) }
{
    let words = mask.words();
    let first = from as usize / 64;
    let mut total = 0;
    for place in first..word_count(end) {
        let word = first_bits(words[place], end - place as u64 * 64);
        total += u64::from(word.count_ones());
    }
    let before = first_bits(words[first], from % 64);
    total - u64::from(before.count_ones())
}
