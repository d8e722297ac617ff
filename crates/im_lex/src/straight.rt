ghost use Rattle.std.specs.Prelude.{◌≡◌, ◌≤◌, length, drop, true, IfSome, IfOk, [], ◌∷◌};
ghost use Rattle.im_syntax.specs.declared.token.Token.TheVariants as token;
ghost use Rattle.im_lex.specs.declared.front.Front.TheVariants.{Lexed};
ghost use Rattle.im_lex.specs.Bytes as bytes_of;
ghost use Rattle.im_lex.specs.inner.Straight as straight;

use crate::bytes::{behind, first};
use crate::front::Front;
use crate::fronts::{behind_minus, positive, text};
use crate::places::{behind_blanks, behind_letters};
use im_syntax::Token;
use im_values::{Name, NoMemory, Value};
use std::alloc::Global;

/// The number of a token, and how many bytes it has behind its first one.
#[inline(always)]
fn int_of(front: Front) -> Option<(i64, usize)>
    ensures { IfSome result (λ found. front ≡ Lexed (token.Int found.0) found.1) }
{
    match front {
        Front::Lexed(token, more) => match token {
            Token::Int(number) => Some((number, more)),
            _ => None,
        },
        _ => None,
    }
}

/// The number at the front of the bytes.
#[inline(always)]
fn number(bytes: &[u8]) -> Option<(i64, usize)>
    ensures { IfSome result (λ found. bytes_of.front bytes.now ≡ Lexed (token.Int found.0) found.1) }
{
    if first(bytes).is_ascii_digit() {
        return int_of(positive(bytes));
    }
    if first(bytes) != b'-' {
        return None;
    }
    int_of(behind_minus(behind(bytes, 1)))
}

/// The text of a token, where it is not empty, and how many bytes it has behind its first one.
#[inline(always)]
fn text_of(front: Front) -> Option<(Name, usize)>
    ensures token { IfSome result (λ found. front ≡ Lexed (token.Text found.0) found.1) }
    ensures some { IfSome result (λ found. 1 ≤ length found.0) }
{
    match front {
        Front::Lexed(token, more) => match token {
            Token::Text(text) => {
                if text.bytes().is_empty() {
                    None
                } else {
                    Some((text, more))
                }
            }
            _ => None,
        },
        _ => None,
    }
}

/// Puts the number at a place.
#[inline(always)]
fn put_number(line: &[u8], at: usize, values: &mut Vec<Value>) -> Result<Option<usize>, NoMemory>
    requires { at ≤ length line.now }
    ensures { IfOk result (λ found. IfSome found
        (λ next. straight.ReadsValue line.now at next values.old.items values.new.items)) }
{
    let Some((number, more)) = number(behind(line, at)) else {
        return Ok(None);
    };
    values.push(Value::int(number))?;
    Ok(Some(at + 1 + more))
}

/// Puts the text whose quote stands at a place.
#[inline(always)]
fn put_text(
    alloc: Global,
    line: &[u8],
    at: usize,
    values: &mut Vec<Value>,
) -> Result<Option<usize>, NoMemory>
    requires within { at ≤ length line.now }
    requires quote { bytes_of.first (drop at line.now) ≡ 39 }
    ensures { IfOk result (λ found. IfSome found
        (λ next. straight.ReadsValue line.now at next values.old.items values.new.items)) }
{
    let Some((text, more)) = text_of(text(alloc, behind(line, at + 1))?) else {
        return Ok(None);
    };
    values.push(Value::text(text))?;
    Ok(Some(at + more + 1))
}

/// Puts the NULL at a place.
fn put_null(line: &[u8], at: usize, values: &mut Vec<Value>) -> Result<Option<usize>, NoMemory>
    requires { at ≤ length line.now }
    ensures { IfOk result (λ found. IfSome found
        (λ next. straight.ReadsValue line.now at next values.old.items values.new.items)) }
{
    let Some(next) = behind_letters(line, at, b"NULL") else {
        return Ok(None);
    };
    values.push(Value::null())?;
    Ok(Some(next))
}

/// Puts the value at a place, by its first byte.
#[inline(always)]
fn put_value(
    alloc: Global,
    line: &[u8],
    at: usize,
    values: &mut Vec<Value>,
) -> Result<Option<usize>, NoMemory>
    requires { at ≤ length line.now }
    ensures { IfOk result (λ found. IfSome found
        (λ next. straight.ReadsValue line.now at next values.old.items values.new.items)) }
{
    let byte = first(behind(line, at));
    if byte == b'\'' {
        return put_text(alloc, line, at, values);
    }
    if byte == b'N' {
        return put_null(line, at, values);
    }
    put_number(line, at, values)
}

/// Puts the value behind the blanks from a place on, and says where it ends. There is none where no value stands there, or an
/// unusual one.
#[inline(always)]
fn value(
    alloc: Global,
    line: &[u8],
    at: usize,
    values: &mut Vec<Value>,
) -> Result<Option<usize>, NoMemory>
    requires { at ≤ length line.now }
    ensures { IfOk result (λ found. IfSome found
        (λ next. straight.ReadsValue line.now at next values.old.items values.new.items)) }
{
    let place = behind_blanks(line, at);
    let Some(next) = put_value(alloc, line, place, values)? else {
        return Ok(None);
    };
    Ok(Some(next))
}

/// Puts the first value of the tuple from a place on, and says where it ends.
#[inline(always)]
fn first_value(
    alloc: Global,
    line: &[u8],
    at: usize,
    values: &mut Vec<Value>,
) -> Result<Option<usize>, NoMemory>
    requires { at ≤ length line.now }
    ensures { IfOk result (λ found. IfSome found
        (λ next. straight.ReadsValues line.now at next values.old.items values.new.items)) }
{
    let place = behind_blanks(line, at);
    if first(behind(line, place)) != b'(' {
        return Ok(None);
    }
    let Some(next) = value(alloc, line, place + 1, values)? else {
        return Ok(None);
    };
    Ok(Some(next))
}

/// Puts the values of the tuple from a place on, and says where it ends.
pub fn tuple(
    alloc: Global,
    line: &[u8],
    at: usize,
    values: &mut Vec<Value>,
) -> Result<Option<usize>, NoMemory>
    requires { at ≤ length line.now }
    ensures { IfOk result (λ found. IfSome found
        (λ next. straight.ReadsTuple line.now at next values.old.items values.new.items)) }
{
    let Some(mut next) = first_value(alloc, line, at, values)? else {
        return Ok(None);
    };
    for _ in 0..line.len() {
        let place = behind_blanks(line, next);
        let byte = first(behind(line, place));
        if byte == b')' {
            return Ok(Some(place + 1));
        }
        if byte != b',' {
            return Ok(None);
        }
        let Some(further) = value(alloc, line, place + 1, values)? else {
            return Ok(None);
        };
        next = further;
    }
    Ok(None)
}
