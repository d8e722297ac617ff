ghost use Rattle.std.specs.Prelude.{◌≡◌, ◌∷◌, IfOk, if◌then◌else◌};
ghost use Rattle.std.specs.Char.{is_ascii_digit};
ghost use Rattle.im_syntax.specs.declared.token.Token.TheVariants as token;
ghost use Rattle.im_lex.specs.Bytes as bytes_of;
ghost use Rattle.im_lex.specs.inner.Pieces as pieces;

use crate::bytes::{behind, first, is_blank, leading_digits, only_ends, plain_len, put_word};
use crate::front::{Front, Piece};
use im_syntax::{Keyword, Sign, Token};
use im_values::limits::MOST_WORD_BYTES;
use im_values::{Name, NoMemory};
use std::alloc::Global;

/// The token of a word in capitals.
fn word_token(alloc: Global, word: &[u8]) -> Result<Token, NoMemory>
    ensures { IfOk result (λ t. t ≡ bytes_of.word_token word.now) }
{
    match Keyword::of(word) {
        Some(keyword) => Ok(Token::Keyword(keyword)),
        None => Ok(Token::Word(Name::of(alloc, word)?)),
    }
}

/// A word, as long as it goes on.
#[inline(always)]
pub fn word(alloc: Global, bytes: &[u8]) -> Result<Front, NoMemory>
    ensures { IfOk result (λ f. f ≡ bytes_of.word_front (bytes_of.run bytes_of.is_word_part bytes.now)) }
{
    let mut buffer = [0; MOST_WORD_BYTES];
    let Some(count) = put_word(&mut buffer, bytes) else {
        return Ok(Front::Bad);
    };
    let token = word_token(alloc, &buffer[..count])?;
    Ok(Front::Lexed(token, count.saturating_sub(1)))
}

/// A number without a sign.
#[inline(always)]
pub fn positive(bytes: &[u8]) -> Front
    ensures { result ≡ bytes_of.positive_front (bytes_of.run is_ascii_digit bytes.now) }
{
    let digits = leading_digits(bytes);
    match i64::try_from(digits.value) {
        Ok(value) => Front::Lexed(Token::Int(value), digits.count.saturating_sub(1)),
        Err(_) => Front::Bad,
    }
}

/// A number behind its minus.
#[inline(always)]
fn negative(bytes: &[u8]) -> Front
    ensures { result ≡ bytes_of.negative_front (bytes_of.run is_ascii_digit bytes.now) }
{
    let digits = leading_digits(bytes);
    if digits.value <= 9_223_372_036_854_775_807 {
        Front::Lexed(Token::Int(-(digits.value as i64)), digits.count)
    } else if digits.value == 9_223_372_036_854_775_808 {
        Front::Lexed(Token::Int(i64::MIN), digits.count)
    } else {
        Front::Bad
    }
}

/// A comment or a number, behind a minus.
#[inline(always)]
pub fn behind_minus(rest: &[u8]) -> Front
    ensures { result ≡ bytes_of.minus_front rest.now }
{
    let next = first(rest);
    if next == b'-' {
        Front::Stop
    } else if next.is_ascii_digit() {
        negative(rest)
    } else {
        Front::Bad
    }
}

/// What comes next in a text. Two quotes are one.
fn piece(rest: &[u8]) -> Piece
    ensures { result ≡ pieces.piece_of rest.now }
{
    match rest {
        [] => Piece::Over,
        [byte] => {
            if *byte == b'\'' {
                Piece::End
            } else {
                Piece::Byte(*byte, 1)
            }
        }
        [byte, next, ..] => {
            if *byte != b'\'' {
                Piece::Byte(*byte, 1)
            } else if *next == b'\'' {
                Piece::Byte(b'\'', 2)
            } else {
                Piece::End
            }
        }
    }
}

fn sign_token(sign: Sign, more: usize) -> Front
    ensures { result ≡ Front.Lexed (token.Sign sign) more }
{
    Front::Lexed(Token::Sign(sign), more)
}

/// A sign by its first byte and the next.
fn sign(byte: u8, next: u8) -> Front
    ensures { result ≡ bytes_of.sign_front byte next }
{
    match byte {
        b'(' => sign_token(Sign::LeftParen, 0),
        b')' => sign_token(Sign::RightParen, 0),
        b',' => sign_token(Sign::Comma, 0),
        b'*' => sign_token(Sign::Star, 0),
        b'=' => sign_token(Sign::Eq, 0),
        b'<' => less(next),
        b'>' => greater(next),
        b'!' => bang(next),
        _ => Front::Bad,
    }
}

fn less(next: u8) -> Front
    ensures { result ≡ bytes_of.less_front next }
{
    if next == b'=' {
        sign_token(Sign::Le, 1)
    } else if next == b'>' {
        sign_token(Sign::Ne, 1)
    } else {
        sign_token(Sign::Lt, 0)
    }
}

fn greater(next: u8) -> Front
    ensures { result ≡ bytes_of.greater_front next }
{
    if next == b'=' {
        sign_token(Sign::Ge, 1)
    } else {
        sign_token(Sign::Gt, 0)
    }
}

fn bang(next: u8) -> Front
    ensures { result ≡ bytes_of.bang_front next }
{
    if next == b'=' {
        sign_token(Sign::Ne, 1)
    } else {
        Front::Bad
    }
}

/// A text in which a quote stands, byte by byte, behind its opening quote.
#[inline(never)]
fn quoted_text(alloc: Global, bytes: &[u8]) -> Result<Front, NoMemory>
    ensures { IfOk result (λ f. f ≡ bytes_of.text_found (bytes_of.text_of bytes.now)) }
{
    let mut content = Vec::new(alloc);
    let mut taken = 0;
    for _ in 0..bytes.len() {
        match piece(behind(bytes, taken)) {
            Piece::Over => return Ok(Front::Bad),
            Piece::End => {
                let name = Name::of(alloc, content.as_slice())?;
                return Ok(Front::Lexed(Token::Text(name), taken + 1));
            }
            Piece::Byte(byte, length) => {
                content.push(byte)?;
                taken += length;
            }
        }
    }
    Ok(Front::Bad)
}

/// A text, behind its opening quote. One in which no quote stands is copied once.
#[inline(always)]
pub fn text(alloc: Global, bytes: &[u8]) -> Result<Front, NoMemory>
    ensures { IfOk result (λ f. f ≡ bytes_of.text_found (bytes_of.text_of bytes.now)) }
{
    let plain = plain_len(bytes);
    match piece(behind(bytes, plain)) {
        Piece::Over => Ok(Front::Bad),
        Piece::End => {
            let name = Name::of(alloc, &bytes[..plain])?;
            Ok(Front::Lexed(Token::Text(name), plain + 1))
        }
        Piece::Byte(_, _) => quoted_text(alloc, bytes),
    }
}

/// What a `;` is, by the bytes behind it.
fn end_of_line(rest: &[u8]) -> Front
    ensures { result ≡ (if bytes_of.only_ends rest.now then Front.Stop else Front.Bad) }
{
    if only_ends(rest) {
        Front::Stop
    } else {
        Front::Bad
    }
}

/// What stands at the front, by its first byte.
#[inline(always)]
fn front_at(alloc: Global, byte: u8, rest: &[u8], bytes: &[u8]) -> Result<Front, NoMemory>
    requires { bytes.now ≡ byte ∷ rest.now }
    ensures { IfOk result (λ f. f ≡ bytes_of.front_at byte rest.now) }
{
    if is_blank(byte) {
        return Ok(Front::Blank);
    }
    if byte.is_ascii_alphabetic() {
        return word(alloc, bytes);
    }
    if byte.is_ascii_digit() {
        return Ok(positive(bytes));
    }
    if byte == b'-' {
        return Ok(behind_minus(rest));
    }
    if byte == b'\'' {
        return text(alloc, rest);
    }
    if byte == b';' {
        return Ok(end_of_line(rest));
    }
    Ok(sign(byte, first(rest)))
}

/// What stands at the front of the bytes.
#[tactic(auto, unfolding(crate::specs::Bytes::front))]
#[inline(always)]
pub fn front(alloc: Global, bytes: &[u8]) -> Result<Front, NoMemory>
    ensures { IfOk result (λ f. f ≡ bytes_of.front bytes.now) }
{
    match bytes {
        [] => Ok(Front::Stop),
        [byte, rest @ ..] => front_at(alloc, *byte, rest, bytes),
    }
}
