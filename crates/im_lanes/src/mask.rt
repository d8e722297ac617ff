ghost use Rattle.std.specs.Prelude.{◌≡◌, ◌==◌, ◌^◌, ◌<◌, ◌≤◌, Bool, false, true, IfOk, length, replicate, slice_index_or, slice_set, map, not, ◌&&◌, ◌||◌};
ghost use Rattle.std.specs.Int.{div_ceil};
ghost use Rattle.im_lanes.specs.Masks.{bits_in, words_of, is_set, joined, filled};

use crate::words::{and_words, clear_bit, fill_words, not_words, or_words, set_bit, zero_words};
use im_values::NoMemory;
use std::alloc::Global;
use std::marker::Model;

/// Which positions are chosen: a truth value for each.
///
/// It has fewer than 2^31 positions. It is kept in words of 64 bits, and bits past the last position are 0.
#[derive(Drop)]
pub struct Mask {
    words: Vec<u64>,
    len: u64,
}

impl Model for Mask {
    ghost use Rattle.std.specs.Prelude.{List, Bool, ◌≡◌, ◌^◌, ◌<◌};
    ghost use Rattle.im_lanes.specs.Masks.{words_of, bits_in};

    ghost Value = { List Bool };

    ghost view = { λ m. bits_in m.words.items m.len };

    ghost invariant = { λ m. (m.len < 2 ^ 31) × (m.words.items ≡ words_of (bits_in m.words.items m.len)) };
}

impl Mask {
    /// The mask of so many positions that these words hold. Bits past the last position have to be 0.
    pub fn of_words(words: Vec<u64>, len: u64) -> Mask
        requires few { len < 2 ^ 31 }
        requires whole { words.items ≡ words_of (bits_in words.items len) }
        ensures { result ≡ bits_in words.items len }
    {
        Mask { words, len }
    }

    /// So many positions, none of which is chosen.
    pub fn none(alloc: Global, len: u64) -> Result<Mask, NoMemory>
        requires { len < 2 ^ 31 }
        ensures { IfOk result (λ mask. mask ≡ replicate len false) }
    {
        Ok(Mask {
            words: zero_words(alloc, word_count(len))?,
            len,
        })
    }

    /// So many positions, each of which is chosen.
    pub fn all(alloc: Global, len: u64) -> Result<Mask, NoMemory>
        requires { len < 2 ^ 31 }
        ensures { IfOk result (λ mask. mask ≡ replicate len true) }
    {
        let mut mask = Mask::none(alloc, len)?;
        mask.fill(0, len);
        Ok(mask)
    }

    /// A mask that chooses the same.
    pub fn copy(&self, alloc: Global) -> Result<Mask, NoMemory>
        ensures { IfOk result (λ mask. mask ≡ self.now) }
    {
        Ok(Mask {
            words: Vec::from_slice(alloc, self.words.as_slice())?,
            len: self.len,
        })
    }

    /// Whether a position is chosen.
    pub fn get(&self, i: u64) -> bool
        requires { i < length self.now }
        ensures { result ≡ slice_index_or self.now i false }
    {
        bit_of(self.words[i as usize / 64], i as u32 % 64)
    }

    /// How many positions there are.
    pub fn len(&self) -> u64
        ensures len { result ≡ length self.now }
        ensures few { result < 2 ^ 31 }
    {
        self.len
    }

    /// Whether there is no position.
    pub fn is_empty(&self) -> bool
        ensures { result ≡ (length self.now == 0) }
    {
        self.len == 0
    }

    /// The words, for those who go over the chosen positions: the first position is the lowest bit of the first word.
    pub fn words(&self) -> &[u64]
        ensures words { result.now ≡ words_of self.now }
        ensures count { length result.now ≡ div_ceil (length self.now) 64 }
        ensures few { length self.now < 2 ^ 31 }
    {
        self.words.as_slice()
    }

    /// Chooses a position.
    pub fn set(&mut self, i: u64)
        requires { i < length self.old }
        ensures { self.new ≡ slice_set self.old i true }
    {
        set_bit(&mut self.words, i);
    }

    /// Chooses a position no longer.
    pub fn clear(&mut self, i: u64)
        requires { i < length self.old }
        ensures { self.new ≡ slice_set self.old i false }
    {
        clear_bit(&mut self.words, i);
    }

    /// Chooses each position from one on and below another, by whole words.
    pub fn fill(&mut self, from: u64, end: u64)
        requires order { from ≤ end }
        requires within { end ≤ length self.old }
        ensures { self.new ≡ filled from end self.old }
    {
        fill_words(&mut self.words, from, end);
    }

    /// Keeps the positions that another mask chooses too.
    pub fn and_with(&mut self, other: &Mask)
        requires { length self.old ≡ length other.now }
        ensures { self.new ≡ joined (λ a b. a && b) self.old other.now }
    {
        and_words(&mut self.words, other.words());
    }

    /// Chooses also what another mask chooses.
    pub fn or_with(&mut self, other: &Mask)
        requires { length self.old ≡ length other.now }
        ensures { self.new ≡ joined (λ a b. a || b) self.old other.now }
    {
        or_words(&mut self.words, other.words());
    }

    /// Chooses what was not chosen, and that alone.
    pub fn negate(&mut self)
        ensures { self.new ≡ map not self.old }
    {
        not_words(&mut self.words, self.len);
    }
}

/// How many words hold so many positions.
pub fn word_count(len: u64) -> usize
    ensures { result ≡ div_ceil len 64 }
{
    len.div_ceil(64) as usize
}

/// A bit of a word, from the lowest on.
pub(crate) fn bit_of(word: u64, place: u32) -> bool
    requires { place < 64 }
    ensures { result ≡ is_set word place }
{
    (word >> place) & 1 == 1
}
