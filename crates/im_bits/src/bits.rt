ghost use Rattle.std.specs.Prelude.{◌≡◌, ◌==◌, ◌+◌, ◌*◌, ◌/◌, ◌%◌, ◌^◌, ◌<◌, ◌≤◌, All, IfOk, length, min, take, drop, replicate, slice_index};
ghost use Rattle.im_bits.specs.Packed.{codes_per_word, word_of, words_of, share_of, HasBlockFrom, HasCodesFrom, IsHeld};
ghost use Rattle.im_bits.specs.inner.Unpacking.{HasCodesOf, HasFields};

use crate::size::{per_word, words_for};
use im_values::NoMemory;
use std::alloc::Global;
use std::marker::Model;

/// How many codes a block has: those at the places of eight words of 64 bits.
const BLOCK: u64 = 512;

/// Room for the codes of a block, and for those that its first and its last word have beside them.
pub const ROOM: usize = 640;

/// A list of codes, packed.
///
/// Fewer than 2^31 codes of at most 32 bits each.
#[derive(Drop)]
pub struct Bits {
    words: Vec<u64>,
    width: u32,
    len: u64,
}

impl Model for Bits {
    ghost use Rattle.std.specs.Prelude.{◌≡◌, ◌^◌, ◌<◌, ◌≤◌};
    ghost use Rattle.im_bits.specs.Packed.{Packed, words_of, codes_in};

    ghost Value = { Packed };

    ghost view = { λ b. record { width = b.width; codes = codes_in b.width b.words.items b.len } };

    ghost invariant = { λ b. (b.width ≤ 32) × (b.len < 2 ^ 31) × (b.words.items ≡ words_of b.width (codes_in b.width b.words.items b.len)) };
}

impl Bits {
    /// Packs the codes, in order, at this width.
    pub fn pack(alloc: Global, codes: &[u32], width: u32) -> Result<Bits, NoMemory>
        requires width { width ≤ 32 }
        requires few { length codes.now < 2 ^ 31 }
        requires fit { All (λ code. code < 2 ^ width) codes.now }
        ensures { IfOk result (λ bits. bits ≡ record { width = width; codes = codes.now }) }
    {
        Ok(Bits {
            words: words_from(alloc, codes, width)?,
            width,
            len: codes.len() as u64,
        })
    }

    /// So many codes that are all 0, of no bits each. It takes no memory.
    pub fn zeros(alloc: Global, len: u64) -> Bits
        requires { len < 2 ^ 31 }
        ensures { result ≡ record { width = 0; codes = replicate len 0 } }
    {
        Bits {
            words: Vec::new(alloc),
            width: 0,
            len,
        }
    }

    /// The code at a place, from 0.
    pub fn get(&self, i: u64) -> u32
        requires { i < length self.now.codes }
        ensures code { result ≡ slice_index self.now.codes i }
        ensures fits { result < 2 ^ self.now.width }
    {
        if self.width == 0 {
            return 0;
        }
        let share = per_word(self.width);
        let place = i as usize;
        field(self.words[place / share], place % share, self.width)
    }

    /// 64 codes from a place on, and 0 past the last one.
    ///
    /// It unpacks a width up to 13, the most that dictionaries of a few thousand values have, with the width known to the compiler.
    pub fn codes_from(&self, first: u64, out: &mut [u32; 64])
        requires { first ≤ length self.now.codes }
        ensures { HasCodesFrom self.now.codes first out.new }
    {
        match self.width {
            1 => self.codes_at::<1>(first, out),
            2 => self.codes_at::<2>(first, out),
            3 => self.codes_at::<3>(first, out),
            4 => self.codes_at::<4>(first, out),
            5 => self.codes_at::<5>(first, out),
            6 => self.codes_at::<6>(first, out),
            7 => self.codes_at::<7>(first, out),
            8 => self.codes_at::<8>(first, out),
            9 => self.codes_at::<9>(first, out),
            10 => self.codes_at::<10>(first, out),
            11 => self.codes_at::<11>(first, out),
            12 => self.codes_at::<12>(first, out),
            13 => self.codes_at::<13>(first, out),
            _ => self.codes_one_by_one(first, out),
        }
    }

    /// 64 codes of the width `W` from a place on, and 0 past the last one.
    pub fn codes_at<const W: u32>(&self, first: u64, out: &mut [u32; 64])
        requires some { 0 < W }
        requires width { self.now.width ≡ W }
        requires within { first ≤ length self.now.codes }
        ensures { HasCodesFrom self.now.codes first out.new }
    {
        let words = self.words.as_slice();
        let share = per_word(W);
        let place = first as usize;
        let mut codes = [0; 128];
        unpack_words::<W>(words, place / share, &mut codes);
        let skipped = place % share;
        for k in 0..64 {
            out[k] = codes[skipped + k];
        }
    }

    /// The same at any width, code by code.
    fn codes_one_by_one(&self, first: u64, out: &mut [u32; 64])
        requires { first ≤ length self.now.codes }
        ensures { HasCodesFrom self.now.codes first out.new }
    {
        for k in 0..64 {
            out[k] = self.code_behind(first, k as u64);
        }
    }

    /// Makes a buffer hold the codes at the 64 places that a word of a mask has, with those of the other words of its block of
    /// eight: a block that the buffer holds is not unpacked again.
    ///
    /// The answer says which block it holds then, and goes with the next call for the same codes; 0 says that it holds none.
    pub fn turn_to(&self, place: u64, held: u64, codes: &mut [u32; ROOM]) -> u64
        requires inside { place * 64 ≤ length self.now.codes }
        requires held { IsHeld self.now.codes held codes.old }
        ensures block { result ≡ place / 8 + 1 }
        ensures held { IsHeld self.now.codes result codes.new }
    {
        let _ = self.len();
        let block = place / 8;
        if held != block + 1 {
            self.block_from(block * BLOCK, codes);
        }
        block + 1
    }

    /// The codes at the 64 places that a word of a mask has, or as many as there are, out of a buffer that was turned to it.
    #[inline(always)]
    pub fn share_of<'a>(&self, place: u64, codes: &'a [u32; ROOM]) -> &'a [u32]
        requires inside { place * 64 < length self.now.codes }
        requires held { IsHeld self.now.codes (place / 8 + 1) codes.now }
        ensures { result.now ≡ take 64 (drop (place * 64) self.now.codes) }
    {
        let left = (self.len() - place * 64).min(64) as usize;
        let first = (place % 8 * 64) as usize;
        let codes = codes.as_slice();
        &codes[first..first + left]
    }

    /// The same in a list of their own, for those who compare all of them at once, and 0 past the last one.
    #[inline(always)]
    pub fn lanes_of(&self, place: u64, codes: &[u32; ROOM]) -> [u32; 64]
        requires { IsHeld self.now.codes (place / 8 + 1) codes.now }
        ensures codes { HasCodesFrom self.now.codes (place * 64) result }
        ensures long { length result ≡ 64 }
    {
        let first = (place % 8 * 64) as usize;
        let mut lanes = [0; 64];
        for k in 0..64 {
            lanes[k] = codes[first + k];
        }
        lanes
    }

    /// The codes of a block from a place on, and 0 past the last one.
    ///
    /// It unpacks a width up to 13 with the width known to the compiler.
    fn block_from(&self, first: u64, out: &mut [u32; ROOM])
        requires { first ≤ length self.now.codes }
        ensures { HasBlockFrom self.now.codes first out.new }
    {
        match self.width {
            1 => self.block_at::<1>(first, out),
            2 => self.block_at::<2>(first, out),
            3 => self.block_at::<3>(first, out),
            4 => self.block_at::<4>(first, out),
            5 => self.block_at::<5>(first, out),
            6 => self.block_at::<6>(first, out),
            7 => self.block_at::<7>(first, out),
            8 => self.block_at::<8>(first, out),
            9 => self.block_at::<9>(first, out),
            10 => self.block_at::<10>(first, out),
            11 => self.block_at::<11>(first, out),
            12 => self.block_at::<12>(first, out),
            13 => self.block_at::<13>(first, out),
            _ => self.block_one_by_one(first, out),
        }
    }

    /// The codes of a block, of the width `W`, from a place on. Each word is unpacked whole, over what the one before it has past
    /// its codes.
    fn block_at<const W: u32>(&self, first: u64, out: &mut [u32; ROOM])
        requires some { 0 < W }
        requires width { self.now.width ≡ W }
        requires within { first ≤ length self.now.codes }
        ensures { HasBlockFrom self.now.codes first out.new }
    {
        let words = self.words.as_slice();
        let share = per_word(W);
        let place = first as usize;
        unpack_block::<W>(words, place / share, place % share, out);
    }

    /// The same at any width, code by code.
    fn block_one_by_one(&self, first: u64, out: &mut [u32; ROOM])
        requires { first ≤ length self.now.codes }
        ensures { HasBlockFrom self.now.codes first out.new }
    {
        for k in 0..512 {
            out[k] = self.code_behind(first, k as u64);
        }
    }

    /// The code so many behind a place, and 0 past the last one.
    fn code_behind(&self, first: u64, k: u64) -> u32
        requires first { first ≤ length self.now.codes }
        requires k { k < 512 }
        ensures { result ≡ slice_index self.now.codes (first + k) }
    {
        let rest = self.len() - first;
        if k >= rest {
            return 0;
        }
        self.get(first + k)
    }

    /// How many codes there are.
    pub fn len(&self) -> u64
        ensures len { result ≡ length self.now.codes }
        ensures few { result < 2 ^ 31 }
    {
        self.len
    }

    /// Whether there is no code.
    pub fn is_empty(&self) -> bool
        ensures { result ≡ (length self.now.codes == 0) }
    {
        self.len == 0
    }

    /// The bits of each code.
    pub fn width(&self) -> u32
        ensures width { result ≡ self.now.width }
        ensures most { result ≤ 32 }
    {
        self.width
    }

    /// The whole words, for those who compare many codes at once. There is none at width 0.
    ///
    /// Word `k` holds the codes from place `k * (64 / width)` on, as many as fit whole, the first in the lowest bits.
    pub fn words(&self) -> &[u64]
        ensures words { result.now ≡ words_of self.now.width self.now.codes }
        ensures fit { All (λ code. code < 2 ^ self.now.width) self.now.codes }
    {
        self.words.as_slice()
    }
}

/// The word at a place, and 0 past the last one.
fn word_at(words: &[u64], place: usize) -> u64
    ensures { result ≡ slice_index words.now place }
{
    if place >= words.len() {
        return 0;
    }
    words[place]
}

/// Unpacks words from one on, as many as 64 codes from any place of the first one lie in.
#[inline(always)]
fn unpack_words<const W: u32>(words: &[u64], first: usize, codes: &mut [u32; 128])
    requires some { 0 < W }
    requires most { W ≤ 32 }
    requires first { first < 2 ^ 31 }
    ensures { HasCodesOf W words.now (first * codes_per_word W) (codes_per_word W + 63) codes.new }
{
    let share = per_word(W);
    for k in 0..words_spanned(share) {
        unpack_word::<W, 128>(word_at(words, first + k), codes, k * share);
    }
}

/// How many words 64 codes lie in at most, where each word has so many.
fn words_spanned(share: usize) -> usize
    requires some { 0 < share }
    requires most { share ≤ 64 }
    ensures enough { share + 63 ≤ result * share }
    ensures least { result * share ≤ 2 * share + 62 }
{
    1 + 63usize.div_ceil(share)
}

/// Unpacks words from one on, as many as the codes of a block from a place of the first one lie in. Of the first one, the codes
/// before that place are passed over.
#[inline(always)]
fn unpack_block<const W: u32>(words: &[u64], first: usize, skipped: usize, codes: &mut [u32; ROOM])
    requires some { 0 < W }
    requires most { W ≤ 32 }
    requires first { first < 2 ^ 31 }
    requires skipped { skipped < codes_per_word W }
    ensures { HasCodesOf W words.now (first * codes_per_word W + skipped) 512 codes.new }
{
    let share = per_word(W);
    unpack_word::<W, ROOM>(behind(word_at(words, first), skipped, W), codes, 0);
    for k in 1..block_words(share) {
        unpack_word::<W, ROOM>(word_at(words, first + k), codes, k * share - skipped);
    }
}

/// A word without so many of its first fields.
#[inline(always)]
fn behind(word: u64, skipped: usize, width: u32) -> u64
    requires some { 0 < width }
    requires width { width ≤ 32 }
    requires within { skipped * width < 64 }
    ensures { result ≡ word / 2 ^ (skipped * width) }
{
    word >> (skipped as u32 * width)
}

/// How many words the codes of a block lie in at most, where each word has so many.
fn block_words(share: usize) -> usize
    requires some { 0 < share }
    requires most { share ≤ 64 }
    ensures enough { share + 511 ≤ result * share }
    ensures least { result * share ≤ 2 * share + 510 }
{
    1 + 511usize.div_ceil(share)
}

/// Unpacks a word: its codes stand from a place on.
#[inline(always)]
fn unpack_word<const W: u32, const N: usize>(word: u64, codes: &mut [u32; N], at: usize)
    requires some { 0 < W }
    requires most { W ≤ 32 }
    requires room { at + codes_per_word W ≤ N }
    ensures { HasFields W word at (codes_per_word W) codes.old codes.new }
{
    for j in 0..per_word(W) {
        codes[at + j] = field(word, j, W);
    }
}

/// The field of a word at a place, from the lowest on.
#[inline(always)]
fn field(word: u64, place: usize, width: u32) -> u32
    requires some { 0 < width }
    requires most { width ≤ 32 }
    requires within { place * width < 64 }
    ensures { result ≡ word / 2 ^ (place * width) % 2 ^ width }
{
    ((word >> (place as u32 * width)) & ((1 << width) - 1)) as u32
}

/// The word of a few codes.
fn word_from(codes: &[u32], width: u32) -> u64
    requires some { 0 < width }
    requires few { length codes.now * width ≤ 64 }
    requires fit { All (λ code. code < 2 ^ width) codes.now }
    ensures { result ≡ word_of width codes.now }
{
    let mut word = 0;
    for i in 0..codes.len() {
        word |= u64::from(codes[i]) << (i as u32 * width);
    }
    word
}

/// The codes that the word at this place holds.
fn share(codes: &[u32], place: usize, width: u32) -> &[u32]
    requires some { 0 < width }
    requires most { width ≤ 32 }
    requires within { place * codes_per_word width ≤ length codes.now }
    ensures { result.now ≡ share_of width codes.now place }
{
    let size = per_word(width);
    let rest = &codes[place * size..];
    &rest[..size.min(rest.len())]
}

/// The words of a list of codes.
fn words_from(alloc: Global, codes: &[u32], width: u32) -> Result<Vec<u64>, NoMemory>
    requires width { width ≤ 32 }
    requires few { length codes.now < 2 ^ 31 }
    requires fit { All (λ code. code < 2 ^ width) codes.now }
    ensures { IfOk result (λ words. words.items ≡ words_of width codes.now) }
{
    let count = words_for(codes.len() as u64, width) as usize;
    let mut words = Vec::with_capacity(alloc, count)?;
    for place in 0..count {
        words.push(word_from(share(codes, place, width), width))?;
    }
    Ok(words)
}
