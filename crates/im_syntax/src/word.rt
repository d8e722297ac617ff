ghost use Rattle.std.specs.Prelude.{◌≡◌};
ghost use Rattle.std.specs.List.{list_all};
ghost use Rattle.im_syntax.specs.Words as words;

use crate::keyword::Keyword;
use im_values::limits::MOST_WORD_BYTES;

/// Whether a byte goes on in a word: a capital, a digit, `_`, `$` or `#`.
pub fn is_word_byte(byte: u8) -> bool
    ensures { result ≡ words.is_word_byte byte }
{
    byte.is_ascii_uppercase()
        || byte.is_ascii_digit()
        || byte == b'_'
        || byte == b'$'
        || byte == b'#'
}

fn are_word_bytes(bytes: &[u8]) -> bool
    ensures { result ≡ list_all words.is_word_byte bytes.now }
{
    for byte in bytes {
        if !is_word_byte(*byte) {
            return false;
        }
    }
    true
}

/// Whether the bytes are a word in capitals: a letter, then what goes on in a word, at most [`MOST_WORD_BYTES`] bytes.
pub fn is_word(bytes: &[u8]) -> bool
    ensures { result ≡ words.is_word bytes.now }
{
    match bytes {
        [] => false,
        [first, rest @ ..] => {
            first.is_ascii_uppercase() && bytes.len() <= MOST_WORD_BYTES && are_word_bytes(rest)
        }
    }
}

/// Whether the bytes are a word in capitals that is no keyword, so that a table or a column may have it as its name.
pub fn is_name(bytes: &[u8]) -> bool
    ensures { result ≡ words.is_name bytes.now }
{
    is_word(bytes) && Keyword::of(bytes).is_none()
}
