ghost use Rattle.std.specs.Prelude.{◌≡◌, ◌^◌, ◌<◌, ◌≤◌, All, IfOk, length, vec_len};

use im_bits::{Bits, words_for};
use std::alloc::Global;
use std::test::Fail;

/// Codes of a width, of which no two side by side are the same where it has more than one code.
fn codes_of(alloc: Global, width: u32, count: u32) -> Result<Vec<u32>, Fail>
    requires { width ≤ 32 }
    ensures few { IfOk result (λ codes. vec_len codes ≡ count) }
    ensures fit { IfOk result (λ codes. All (λ code. code < 2 ^ width) codes.items) }
{
    let mut codes = Vec::new(alloc);
    for i in 0..count {
        codes.push((u64::from(i.wrapping_mul(2_654_435_761)) % (1u64 << width)) as u32)?;
    }
    Ok(codes)
}

/// Packed codes, at the second try where memory runs out at the first.
fn packed(alloc: Global, codes: &[u32], width: u32) -> Result<Bits, Fail>
    requires width { width ≤ 32 }
    requires few { length codes.now < 2 ^ 31 }
    requires fit { All (λ code. code < 2 ^ width) codes.now }
    ensures { IfOk result (λ bits. bits ≡ record { width = width; codes = codes.now }) }
{
    if let Ok(bits) = Bits::pack(alloc, codes, width) {
        return Ok(bits);
    }
    Ok(Bits::pack(alloc, codes, width)?)
}

/// Whether packing these codes and reading each gives them back, in as many words as they fill.
fn round_trips(alloc: Global, codes: &[u32], width: u32) -> Result<bool, Fail>
    requires width { width ≤ 32 }
    requires few { length codes.now < 2 ^ 31 }
    requires fit { All (λ code. code < 2 ^ width) codes.now }
{
    let bits = packed(alloc, codes, width)?;
    for i in 0..codes.len() {
        if bits.get(i as u64) != codes[i] {
            return Ok(false);
        }
    }
    let words = words_for(bits.len(), bits.width());
    Ok(bits.len() == codes.len() as u64 && bits.words().len() as u64 == words)
}

/// Whether unpacking from a place on gives the codes there, and 0 past the last one.
fn unpacks(bits: &Bits, codes: &[u32], first: usize) -> bool {
    if first as u64 > bits.len() {
        return false;
    }
    let mut out = [7; 64];
    bits.codes_from(first as u64, &mut out);
    (0..64).all(|k| out[k] == codes.get(first.wrapping_add(k)).copied().unwrap_or(0))
}

#[test]
fn what_was_packed_is_read_back_at_every_width_round_the_ends_of_words(
    rt: HostRuntime,
) -> Result<(), Fail> {
    let alloc = rt.alloc();
    for width in 0..33 {
        let share = if width == 0 { 64 } else { 64 / width };
        for count in 0..2 * share + 2 {
            let codes = codes_of(alloc, width, count)?;
            assert!(rt; round_trips(alloc, codes.as_slice(), width)?);
        }
    }
    Ok(())
}

#[test]
fn codes_of_every_width_are_unpacked_from_every_place(rt: HostRuntime) -> Result<(), Fail> {
    let alloc = rt.alloc();
    for width in 0..33 {
        let codes = codes_of(alloc, width, 200)?;
        let bits = packed(alloc, codes.as_slice(), width)?;
        for first in 0..201 {
            assert!(rt;
                unpacks(&bits, codes.as_slice(), first),
                "width {width} from {first}"
            );
        }
    }
    Ok(())
}

#[test]
fn the_first_code_stands_in_the_lowest_bits(rt: HostRuntime) -> Result<(), Fail> {
    let bits = packed(rt.alloc(), &[1, 2, 3, 0], 2)?;
    assert!(rt; bits.words().len() == 1 && bits.words().first() == Some(&57));
    Ok(())
}

#[test]
fn words_hold_whole_codes_alone(rt: HostRuntime) {
    assert!(rt; words_for(0, 7) == 0 && words_for(9, 7) == 1 && words_for(10, 7) == 2);
    assert!(rt; words_for(1000, 0) == 0 && words_for(64, 1) == 1 && words_for(65, 1) == 2);
    assert!(rt; words_for(3, 31) == 2 && words_for(3, 32) == 2);
    assert!(rt; words_for(4_294_967_295, 32) == 2_147_483_648);
}
