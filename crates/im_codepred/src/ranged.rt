ghost use Rattle.std.specs.Prelude.{◌≡◌, ◌+◌, ◌*◌, ◌^◌, ◌<◌, ◌≤◌, length, take, drop};
ghost use Rattle.im_bits.specs.Packed.{IsHeld};
ghost use Rattle.im_codepred.specs.inner.Ranged.{with_code, LieWithin};

use im_bits::{Bits, ROOM};

/// How many codes are unpacked at once.
const BLOCK: u64 = 512;

/// How many codes lie in a range, and what they add up to, each less the first of the range.
#[derive(Clone, Copy)]
pub struct Within {
    pub count: u64,
    pub sum: u64,
}

/// The same of a block of codes.
#[derive(Clone, Copy)]
struct Part {
    count: u32,
    sum: u32,
}

/// A part with one code more. There is no branch in it, so that several codes are taken side by side.
#[inline(always)]
fn with_code(part: Part, low: u32, end: u32, code: u32) -> Part
    requires order { low ≤ end }
    requires count { part.count < 512 }
    requires sum { part.sum < 512 * 2 ^ 16 }
    requires few { end ≤ 2 ^ 16 }
    ensures { result ≡ with_code low end part code }
{
    let above = code.wrapping_sub(low);
    if above < end - low {
        Part {
            count: part.count + 1,
            sum: part.sum + above,
        }
    } else {
        part
    }
}

/// What lies in a range among a block of codes.
#[inline(always)]
fn block_within(codes: &[u32], low: u32, end: u32) -> Within
    requires short { length codes.now ≤ 512 }
    requires order { low ≤ end }
    requires few { end ≤ 2 ^ 16 }
    ensures { LieWithin low end codes.now result.count result.sum }
{
    let mut part = Part { count: 0, sum: 0 };
    for code in codes {
        part = with_code(part, low, end, *code);
    }
    Within {
        count: u64::from(part.count),
        sum: u64::from(part.sum),
    }
}

/// The codes of a block, or as many as there are, out of a buffer that was turned to it.
#[inline(always)]
fn block_of<'a>(bits: &Bits, block: u64, codes: &'a [u32; ROOM]) -> &'a [u32]
    requires inside { block * 512 < length bits.now.codes }
    requires held { IsHeld bits.now.codes (block + 1) codes.now }
    ensures { result.now ≡ take 512 (drop (block * 512) bits.now.codes) }
{
    let left = (bits.len() - block * BLOCK).min(BLOCK) as usize;
    let codes = codes.as_slice();
    &codes[..left]
}

/// What lies in a range among packed codes.
pub fn codes_within(bits: &Bits, low: u32, end: u32) -> Within
    requires order { low ≤ end }
    requires few { end ≤ 2 ^ 16 }
    ensures within { LieWithin low end bits.now.codes result.count result.sum }
    ensures count { result.count < 2 ^ 31 }
    ensures sum { result.sum < 2 ^ 47 }
{
    let mut codes = [0; ROOM];
    let mut found = Within { count: 0, sum: 0 };
    for block in 0..bits.len().div_ceil(BLOCK) {
        let _ = bits.turn_to(block * 8, 0, &mut codes);
        let part = block_within(block_of(bits, block, &codes), low, end);
        found.count += part.count;
        found.sum += part.sum;
    }
    found
}
