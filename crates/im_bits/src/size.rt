ghost use Rattle.std.specs.Prelude.{◌≡◌, ◌^◌, ◌<◌, ◌≤◌};
ghost use Rattle.im_bits.specs.Packed as packed;

/// The greatest width of a code, in bits.
pub const MOST_WIDTH: u32 = 32;

/// The bits of a word.
const WORD_BITS: u32 = 64;

/// How many whole codes of this width one word holds.
pub(crate) fn per_word(width: u32) -> usize
    requires some { 0 < width }
    requires most { width ≤ 32 }
    ensures { result ≡ packed.codes_per_word width }
{
    (WORD_BITS / width) as usize
}

/// How many words `n` codes of this width fill. It is 0 at width 0.
pub fn words_for(n: u64, width: u32) -> u64
    requires width { width ≤ 32 }
    requires few { n < 2 ^ 32 }
    ensures { result ≡ packed.words_for n width }
{
    if width == 0 {
        return 0;
    }
    n.div_ceil(u64::from(WORD_BITS / width))
}
