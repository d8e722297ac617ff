ghost use Rattle.std.specs.Prelude.{◌≡◌, ◌+◌, ◌-◌, ◌*◌, ◌%◌, ◌^◌, ◌<◌, ◌≤◌, ℕ, Bool, if◌then◌else◌, length, replicate, IfOk, slice_index, bit_and, bit_or, nat_lt, not, ◌==◌, ◌/◌, ◌&&◌, ◌||◌};
ghost use Rattle.im_lanes.specs.Masks.{is_set, is_within, bit_in};
ghost use Rattle.std.specs.Int.{div_ceil};
ghost use Rattle.im_lanes.specs.inner.Words.{HaveBits};

use std::alloc::{AllocError, Global};

/// The lowest bits of a word, as many as there are positions left: all 64 where there are more.
#[inline(always)]
pub fn first_bits(word: u64, left: u64) -> u64
    ensures { result ≡ word % 2 ^ left }
{
    if left >= 64 {
        return word;
    }
    word & ((1 << left) - 1)
}

/// A word with one bit more, above those that it has.
#[inline(always)]
pub fn with_bit(word: u64, place: u32, chosen: bool) -> u64
    requires place { place < 64 }
    requires above { word < 2 ^ place }
    ensures { result ≡ word + (if chosen then 1 else 0) * 2 ^ place }
{
    word | (u64::from(chosen) << place)
}

/// The bits of a word whose first position is `first` that lie from one position on and below another.
pub(crate) fn bits_from(first: u64, from: u64, end: u64) -> u64
    requires reaches { from < first + 64 }
    requires begins { first < end }
    requires order { from ≤ end }
    requires few { end < 2 ^ 31 }
    ensures { (k : ℕ) → k < 64 → is_set result k ≡ is_within from end (first + k) }
{
    let low = from.saturating_sub(first);
    let high = (end - first).min(64);
    (u64::MAX >> (64 - high)) & (u64::MAX << low)
}

/// Keeps in each word the bits that another has too.
pub(crate) fn and_words(words: &mut [u64], others: &[u64])
    requires { length words.old ≡ length others.now }
    ensures { (k : ℕ) → k < length words.old → slice_index words.new k ≡ bit_and (slice_index words.old k) (slice_index others.now k) }
{
    for i in 0..words.len() {
        words[i] &= others[i];
    }
}

/// Puts into each word the bits that another has.
pub(crate) fn or_words(words: &mut [u64], others: &[u64])
    requires { length words.old ≡ length others.now }
    ensures { (k : ℕ) → k < length words.old → slice_index words.new k ≡ bit_or (slice_index words.old k) (slice_index others.now k) }
{
    for i in 0..words.len() {
        words[i] |= others[i];
    }
}

/// Turns each bit of the words of so many positions. Bits past the last position stay 0.
pub(crate) fn not_words(words: &mut [u64], len: u64)
    requires count { length words.old ≡ div_ceil len 64 }
    requires small { (k : ℕ) → slice_index words.old k < 2 ^ 64 }
    ensures { HaveBits (λ k. nat_lt k len && not (bit_in words.old k)) words.new }
{
    for i in 0..words.len() {
        words[i] = first_bits(!words[i], len - i as u64 * 64);
    }
}

/// Sets the bit at a position.
pub(crate) fn set_bit(words: &mut [u64], i: u64)
    requires inside { i / 64 < length words.old }
    requires small { (k : ℕ) → slice_index words.old k < 2 ^ 64 }
    ensures { HaveBits (λ k. (k == i) || bit_in words.old k) words.new }
{
    words[i as usize / 64] |= 1 << (i % 64);
}

/// Clears the bit at a position.
pub(crate) fn clear_bit(words: &mut [u64], i: u64)
    requires inside { i / 64 < length words.old }
    requires small { (k : ℕ) → slice_index words.old k < 2 ^ 64 }
    ensures { HaveBits (λ k. not (k == i) && bit_in words.old k) words.new }
{
    words[i as usize / 64] &= !(1 << (i % 64));
}

/// Sets the bits from a position on and below another, by whole words.
pub(crate) fn fill_words(words: &mut [u64], from: u64, end: u64)
    requires order { from ≤ end }
    requires within { end ≤ length words.old * 64 }
    requires small { (k : ℕ) → slice_index words.old k < 2 ^ 64 }
    requires few { end < 2 ^ 31 }
    ensures { HaveBits (λ k. is_within from end k || bit_in words.old k) words.new }
{
    for place in from / 64..end.div_ceil(64) {
        words[place as usize] |= bits_from(place * 64, from, end);
    }
}

/// So many words without a bit.
pub(crate) fn zero_words(alloc: Global, count: usize) -> Result<Vec<u64>, AllocError>
    ensures { IfOk result (λ words. words.items ≡ replicate count 0) }
{
    vec![in alloc; 0; count]
}
