ghost use Rattle.std.specs.Prelude.{◌≡◌, ◌%◌, ◌^◌, ◌≤◌, map};
ghost use Rattle.im_lanes.specs.Masks.{is_between, word_of};

use std::simd::u32x64;

/// The bits of the codes that lie between two others, both ends in. All 64 are compared side by side.
///
/// What is below `low` wraps to a number above each difference, so that one compare sees both ends.
#[inline(always)]
pub(crate) fn bits_between(codes: u32x64, low: u32, high: u32) -> u64
    requires { low ≤ high }
    ensures { result ≡ word_of (map (is_between low high) codes) }
{
    (codes - u32x64::splat(low))
        .simd_le(u32x64::splat(high - low))
        .to_bitmask()
}
