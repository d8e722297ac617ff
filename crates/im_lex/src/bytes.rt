ghost use Rattle.std.specs.Prelude.{◌≡◌, ◌+◌, ◌-◌, ◌*◌, ◌^◌, ◌≤◌, ◌<◌, min, take, drop, length, map, IfSome, IfNone};
ghost use Rattle.std.specs.Char.{is_ascii_digit, to_ascii_uppercase};
ghost use Rattle.im_lex.specs.Bytes as bytes_of;
ghost use Rattle.im_lex.specs.inner.Pieces as pieces;

/// Space, tab and CR.
pub fn is_blank(byte: u8) -> bool
    ensures { result ≡ bytes_of.is_blank byte }
{
    byte == b' ' || byte == b'\t' || byte == b'\r'
}

/// The bytes behind so many.
pub fn behind(bytes: &[u8], count: usize) -> &[u8]
    requires { count ≤ length bytes.now }
    ensures { result.now ≡ drop count bytes.now }
{
    &bytes[count..]
}

/// The first byte, or 0 where there is none.
pub fn first(bytes: &[u8]) -> u8
    ensures { result ≡ bytes_of.first bytes.now }
{
    match bytes {
        [byte, ..] => *byte,
        [] => 0,
    }
}

/// The capital of each byte that goes on in a word, and 0 for each other byte.
static CAPITALS: [u8; 256] = [
    0, 0, 0, 0, 0, 0, 0, 0, 0, 0, 0, 0, 0, 0, 0, 0, 0, 0, 0, 0, 0, 0, 0, 0, 0, 0, 0, 0, 0, 0, 0, 0,
    0, 0, 0, 35, 36, 0, 0, 0, 0, 0, 0, 0, 0, 0, 0, 0, 48, 49, 50, 51, 52, 53, 54, 55, 56, 57, 0, 0,
    0, 0, 0, 0, 0, 65, 66, 67, 68, 69, 70, 71, 72, 73, 74, 75, 76, 77, 78, 79, 80, 81, 82, 83, 84,
    85, 86, 87, 88, 89, 90, 0, 0, 0, 0, 95, 0, 65, 66, 67, 68, 69, 70, 71, 72, 73, 74, 75, 76, 77,
    78, 79, 80, 81, 82, 83, 84, 85, 86, 87, 88, 89, 90, 0, 0, 0, 0, 0, 0, 0, 0, 0, 0, 0, 0, 0, 0,
    0, 0, 0, 0, 0, 0, 0, 0, 0, 0, 0, 0, 0, 0, 0, 0, 0, 0, 0, 0, 0, 0, 0, 0, 0, 0, 0, 0, 0, 0, 0, 0,
    0, 0, 0, 0, 0, 0, 0, 0, 0, 0, 0, 0, 0, 0, 0, 0, 0, 0, 0, 0, 0, 0, 0, 0, 0, 0, 0, 0, 0, 0, 0, 0,
    0, 0, 0, 0, 0, 0, 0, 0, 0, 0, 0, 0, 0, 0, 0, 0, 0, 0, 0, 0, 0, 0, 0, 0, 0, 0, 0, 0, 0, 0, 0, 0,
    0, 0, 0, 0, 0, 0, 0, 0, 0, 0, 0, 0, 0, 0, 0, 0, 0, 0, 0, 0, 0, 0, 0,
];

/// What an entry of the table says of its byte.
fn by_entry(entry: u8) -> Option<u8>
    ensures { result ≡ pieces.by_entry entry }
{
    if entry == 0 { None } else { Some(entry) }
}

/// What a byte is in a word, with a letter as its capital.
#[tactic(auto, using(crate::proofs::Capitals::capital_in_table))]
fn capital_of(byte: u8) -> Option<u8>
    ensures { result ≡ pieces.capital_of byte }
{
    by_entry(CAPITALS[usize::from(byte)])
}

/// Whether a byte goes on in a word.
#[tactic(auto, using(crate::proofs::Capitals::part_in_table))]
pub fn is_word_part(byte: u8) -> bool
    ensures { result ≡ bytes_of.is_word_part byte }
{
    CAPITALS[usize::from(byte)] != 0
}

/// Writes the word at the front into a buffer, with its letters as capitals, and says how long it is. There is none where
/// the buffer is too short for it.
pub fn put_word(buffer: &mut [u8], bytes: &[u8]) -> Option<usize>
    ensures whole { IfSome result (λ count. count ≡ length (bytes_of.run bytes_of.is_word_part bytes.now)) }
    ensures within { IfSome result (λ count. count ≤ length buffer.new) }
    ensures put { IfSome result (λ count. take count buffer.new ≡ map to_ascii_uppercase (bytes_of.run bytes_of.is_word_part bytes.now)) }
    ensures long { IfNone result (length buffer.old < length (bytes_of.run bytes_of.is_word_part bytes.now)) }
{
    for (i, byte) in bytes.iter().enumerate() {
        let Some(capital) = capital_of(*byte) else {
            return Some(i);
        };
        if i >= buffer.len() {
            return None;
        }
        buffer[i] = capital;
    }
    Some(bytes.len())
}

/// A number with a digit more, capped in the same way. A product is checked only where it may come near the cap.
fn with_digit(value: u64, digit: u8) -> u64
    ensures { result ≡ min (10 * value + (digit - 48)) (2 ^ 63 + 1) }
{
    let digit = u64::from(digit.saturating_sub(b'0'));
    if value < 900_000_000_000_000_000 {
        value * 10 + digit
    } else {
        value
            .saturating_mul(10)
            .saturating_add(digit)
            .min(9_223_372_036_854_775_809)
    }
}

/// The digits at the front of the bytes.
#[derive(Clone, Copy)]
pub struct Digits {
    pub count: usize,
    /// The number that they say, or 2^63 + 1 where it is at least that.
    pub value: u64,
}

/// The longest prefix of digits, counted and read in one go.
pub fn leading_digits(bytes: &[u8]) -> Digits
    ensures count { result.count ≡ length (bytes_of.run is_ascii_digit bytes.now) }
    ensures value { result.value ≡ min (bytes_of.value_of (bytes_of.run is_ascii_digit bytes.now)) (2 ^ 63 + 1) }
{
    let mut value: u64 = 0;
    for (i, byte) in bytes.iter().enumerate() {
        if !byte.is_ascii_digit() {
            return Digits { count: i, value };
        }
        value = with_digit(value, *byte);
    }
    Digits {
        count: bytes.len(),
        value,
    }
}

/// How many bytes stand before the first quote, or in all.
pub fn plain_len(bytes: &[u8]) -> usize
    ensures count { result ≡ length (bytes_of.run pieces.is_plain bytes.now) }
    ensures within { result ≤ length bytes.now }
{
    for (i, byte) in bytes.iter().enumerate() {
        if *byte == b'\'' {
            return i;
        }
    }
    bytes.len()
}

/// Whether a comment stands at the front.
pub fn begins_comment(bytes: &[u8]) -> bool
    ensures { result ≡ bytes_of.begins_comment bytes.now }
{
    match bytes {
        [b'-', rest @ ..] => first(rest) == b'-',
        _ => false,
    }
}

/// Whether only blanks stand there, and perhaps a comment.
pub fn only_ends(bytes: &[u8]) -> bool
    ensures { result ≡ bytes_of.only_ends bytes.now }
{
    for (i, byte) in bytes.iter().enumerate() {
        if !is_blank(*byte) {
            return begins_comment(&bytes[i..]);
        }
    }
    true
}
