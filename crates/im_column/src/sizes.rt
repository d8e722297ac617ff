ghost use Rattle.std.specs.Prelude.{◌≡◌, ◌^◌, ◌+◌, ◌*◌, ◌<◌, ◌≤◌, All, length, sum_by, take};
ghost use Rattle.std.specs.Bool.{OnTrue};
ghost use Rattle.im_values.specs.Sizes as spec;
ghost use Rattle.im_codes.specs.Dictionary.{lent};
ghost use Rattle.im_codes.specs.Runs.{run_count};
ghost use Rattle.im_column.specs.Forms.{IsShort};
ghost use Rattle.im_column.specs.inner.Sized.{AreRising, Follows};

use crate::summary::{is_null, value_bytes};
use im_bits::words_for;
use im_codes::Dict;
use im_values::{Value, order};

/// The least width of the codes up to a greatest one.
pub fn width_for(greatest: u32) -> u32
    ensures width { result ≡ spec.width_for greatest }
    ensures most { result ≤ 32 }
    ensures fits { greatest < 2 ^ result }
{
    u32::BITS - greatest.leading_zeros()
}

/// 1 where a code begins a run, and 0 where it is the one before.
#[tactic(auto, using(crate::proofs::SizeLemmas::run_same, crate::proofs::SizeLemmas::run_other))]
fn begins(codes: &[u32], i: usize) -> u64
    requires { i < length codes.now }
    ensures count { run_count (take (i + 1) codes.now) ≡ run_count (take i codes.now) + result }
    ensures one { result ≤ 1 }
{
    if i == 0 {
        return 1;
    }
    if codes[i] == codes[i - 1] {
        return 0;
    }
    1
}

/// How many runs of equal codes there are.
fn run_count(codes: &[u32]) -> u64
    ensures count { result ≡ run_count codes.now }
    ensures most { result ≤ length codes.now }
{
    let mut count = 0;
    for i in 0..codes.len() {
        count += begins(codes, i);
    }
    count
}

/// The bytes of a list of values.
fn bytes_of(values: &[Value]) -> u64
    requires few { length values.now < 2 ^ 31 }
    requires short { All IsShort values.now }
    ensures bytes { result ≡ sum_by spec.value_bytes values.now }
    ensures few { result < 2 ^ 48 }
{
    let mut bytes = 0;
    for value in values {
        bytes += value_bytes(value);
    }
    bytes
}

/// The bytes of a dictionary and codes.
pub fn coded_bytes(dict: &Dict, codes: &[u32]) -> u64
    requires few { length codes.now < 2 ^ 31 }
    requires short { All IsShort dict.now }
    ensures { result ≡ sum_by spec.value_bytes dict.now + 8 * spec.words_for (length codes.now) (spec.width_for (length dict.now)) }
{
    let words = words_for(codes.len() as u64, width_for(dict.len()));
    bytes_of(dict.values()) + 8 * words
}

/// The bytes of a dictionary and the runs of codes.
pub fn runs_bytes(dict: &Dict, codes: &[u32]) -> u64
    requires few { length codes.now < 2 ^ 31 }
    requires short { All IsShort dict.now }
    ensures { result ≡ sum_by spec.value_bytes dict.now + 8 * run_count codes.now }
{
    bytes_of(dict.values()) + 8 * run_count(codes)
}

/// Whether a value is not NULL, and above the one before.
fn follows(values: &[&Value], i: usize) -> bool
    requires { i < length values.now }
    ensures { OnTrue result (Follows (lent values.now) i) }
{
    if is_null(values[i]) {
        return false;
    }
    if i == 0 {
        return true;
    }
    order(values[i - 1], values[i]).is_lt()
}

/// Whether each value is below the next, and none is NULL.
pub fn rise(values: &[&Value]) -> bool
    ensures { OnTrue result (AreRising (lent values.now)) }
{
    for i in 0..values.len() {
        if !follows(values, i) {
            return false;
        }
    }
    true
}
