ghost use Rattle.std.specs.Prelude.{◌≡◌, ◌≤◌, length, take, drop, true, false, IfSome, []};
ghost use Rattle.im_lex.specs.declared.front.Front.TheVariants.{Stop};
ghost use Rattle.im_lex.specs.Bytes as bytes_of;
ghost use Rattle.im_lex.specs.inner.Straight as straight;

use crate::bytes::{behind, first, is_blank, is_word_part, only_ends};

/// Where the blanks that begin at a place end.
#[inline(always)]
pub fn behind_blanks(line: &[u8], at: usize) -> usize
    requires { at ≤ length line.now }
    ensures { straight.Reads line.now at result [] }
{
    for place in at..line.len() {
        if !is_blank(line[place]) {
            return place;
        }
    }
    line.len()
}

/// Whether the bytes begin with these letters, and no word goes on behind them.
fn begins_with(bytes: &[u8], letters: &[u8]) -> bool
    ensures stands { result ≡ true → take (length letters.now) bytes.now ≡ letters.now }
    ensures over { result ≡ true → bytes_of.is_word_part (bytes_of.first (drop (length letters.now) bytes.now)) ≡ false }
{
    if bytes.len() < letters.len() {
        return false;
    }
    let (front, rest) = bytes.split_at(letters.len());
    front == letters && !is_word_part(first(rest))
}

/// The place behind a word of these letters, where that stands behind the blanks.
pub fn behind_letters(line: &[u8], at: usize, letters: &[u8]) -> Option<usize>
    requires { at ≤ length line.now }
    ensures { IfSome result (λ next. straight.ReadsLetters line.now at next letters.now) }
{
    let place = behind_blanks(line, at);
    if begins_with(behind(line, place), letters) {
        Some(place + letters.len())
    } else {
        None
    }
}

/// Whether the line ends behind the blanks, or with a `;` and blanks or a comment behind it.
pub fn ends(line: &[u8], at: usize) -> bool
    requires { at ≤ length line.now }
    ensures { result ≡ true → straight.EndsAt line.now at }
{
    let place = behind_blanks(line, at);
    stops(behind(line, place))
}

/// Whether nothing stands there, or a `;` with blanks or a comment behind it.
fn stops(bytes: &[u8]) -> bool
    ensures { result ≡ true → bytes_of.front bytes.now ≡ Stop }
{
    if bytes.len() == 0 {
        return true;
    }
    first(bytes) == b';' && only_ends(behind(bytes, 1))
}
