ghost use Rattle.std.specs.Prelude.{◌≡◌, ◌≤◌, ◌*◌, [], length, true, IfSome, IfOk, OnOk};
ghost use Rattle.std.specs.List.{list_all};
ghost use Rattle.im_values.specs.Stretches.{cut};
ghost use Rattle.im_syntax.specs.Tuples.{written, is_proper};
ghost use Rattle.im_syntax.specs.Words.{IsName};
ghost use Rattle.im_syntax.specs.declared.statement.Side.TheVariants as side;
ghost use Rattle.im_syntax.specs.declared.token.Token.TheVariants as token;
ghost use Rattle.im_syntax.specs.Rules.{IsStmtOf};
ghost use Rattle.im_syntax.specs.Spelling.{spelling};
ghost use Rattle.im_lex.specs.declared.front.Front.TheVariants.{Lexed};
ghost use Rattle.im_lex.specs.Lexing as lexing;
ghost use Rattle.im_lex.specs.inner.Straight as straight;

use crate::bytes::{behind, first};
use crate::front::Front;
use crate::fronts::word;
use crate::places::{behind_blanks, behind_letters, ends};
use crate::straight::tuple;
use im_syntax::{EvenTuples, Stmt, Token, Tuples, is_name};
use im_values::limits::MOST_COLUMNS;
use im_values::{List, Name, NoMemory, Value};
use std::alloc::Global;

/// The name of a token that is one, and how many bytes it has behind its first one.
fn name_of(front: Front) -> Option<(Name, usize)>
    ensures token { IfSome result (λ found. front ≡ Lexed (token.Word found.0) found.1) }
    ensures named { IfSome result (λ found. IsName found.0) }
{
    match front {
        Front::Lexed(token, more) => match token {
            Token::Word(name) => {
                if is_name(name.bytes()) {
                    Some((name, more))
                } else {
                    None
                }
            }
            _ => None,
        },
        _ => None,
    }
}

/// The name behind the blanks from a place on, and where it ends.
fn table(alloc: Global, line: &[u8], at: usize) -> Result<Option<(Name, usize)>, NoMemory>
    requires { at ≤ length line.now }
    ensures { IfOk result (λ found. IfSome found (λ name. straight.ReadsName line.now at name.1 name.0)) }
{
    let place = behind_blanks(line, at);
    let bytes = behind(line, place);
    if !first(bytes).is_ascii_alphabetic() {
        return Ok(None);
    }
    let Some((name, more)) = name_of(word(alloc, bytes)?) else {
        return Ok(None);
    };
    Ok(Some((name, place + 1 + more)))
}

/// The table of an INSERT without a list of columns, and where its tuples begin.
fn head(alloc: Global, line: &[u8]) -> Result<Option<(Name, usize)>, NoMemory>
    ensures { IfOk result (λ found. IfSome found (λ head. straight.ReadsHead line.now head.1 head.0)) }
{
    let Some(at) = behind_letters(line, 0, b"INSERT") else {
        return Ok(None);
    };
    let Some(at) = behind_letters(line, at, b"INTO") else {
        return Ok(None);
    };
    let Some((name, at)) = table(alloc, line, at)? else {
        return Ok(None);
    };
    let Some(next) = behind_letters(line, at, b"VALUES") else {
        return Ok(None);
    };
    Ok(Some((name, next)))
}

/// As much spare room as this many values take stays where it is.
const LITTLE: usize = 8;

/// The same values, without room for many more.
fn fitted(values: Vec<Value>) -> Vec<Value>
    ensures { result.items ≡ values.items }
{
    let mut fitted = values;
    if fitted.capacity() - fitted.len() > LITTLE {
        fitted.shrink_to_fit();
    }
    fitted
}

/// The tuples of these values, where the line ends at a place.
fn ended(
    alloc: Global,
    line: &[u8],
    at: usize,
    values: Vec<Value>,
    width: usize,
    count: usize,
) -> Result<Option<Tuples>, NoMemory>
    requires within { at ≤ length line.now }
    requires long { length values.items ≡ count * width }
    requires proper { list_all is_proper values.items ≡ true }
    ensures tuples { IfOk result (λ found. IfSome found (λ tuples. tuples ≡ written (cut count width values.items))) }
    ensures ends { IfOk result (λ found. IfSome found (λ tuples. straight.EndsAt line.now at)) }
{
    if !ends(line, at) {
        return Ok(None);
    }
    let tuples = EvenTuples::of(alloc, fitted(values), width, count)?;
    Ok(Some(Tuples::even(tuples)))
}

/// Takes room for the values of as many further tuples as there may be, where one has as many values and bytes as the first.
fn make_room(values: &mut Vec<Value>, taken: usize, left: usize) -> Result<(), NoMemory>
    ensures { OnOk result (values.new.items ≡ values.old.items) }
{
    if taken == 0 || left < taken {
        return Ok(());
    }
    let room = values.len().saturating_mul(left / taken);
    values.reserve(room)?;
    Ok(())
}

/// How many bytes a value takes in a line, about, with the comma behind it.
const BYTES_A_VALUE: usize = 5;

/// How many values the tuple at the front of so many bytes has: at least one, and at most as many as a table has columns. It is a
/// guess by the number of bytes alone, since a look at each takes longer than what a wrong guess costs.
fn guess_width(bytes: usize) -> usize {
    (bytes / BYTES_A_VALUE).max(1).min(MOST_COLUMNS)
}

/// No values yet, and room for those of the tuple at a place.
fn no_values(alloc: Global, line: &[u8], at: usize) -> Result<Vec<Value>, NoMemory>
    requires { at ≤ length line.now }
    ensures { IfOk result (λ values. values.items ≡ []) }
{
    Ok(Vec::with_capacity(alloc, guess_width(line.len() - at))?)
}

/// The tuples from a place on, where they are of one length and the line ends behind them.
fn tuples(alloc: Global, line: &[u8], at: usize) -> Result<Option<Tuples>, NoMemory>
    requires { at ≤ length line.now }
    ensures { IfOk result (λ found. IfSome found (λ tuples. straight.HasTuples line.now at tuples)) }
{
    let mut values = no_values(alloc, line, at)?;
    let Some(mut next) = tuple(alloc, line, at, &mut values)? else {
        return Ok(None);
    };
    let width = values.len();
    make_room(&mut values, next.saturating_sub(at), line.len() - next)?;
    for count in 1..line.len() {
        let place = behind_blanks(line, next);
        if first(behind(line, place)) != b',' {
            return ended(alloc, line, place, values, width, count);
        }
        let before = values.len();
        let Some(further) = tuple(alloc, line, place + 1, &mut values)? else {
            return Ok(None);
        };
        if values.len() - before != width {
            return Ok(None);
        }
        next = further;
    }
    Ok(None)
}

/// The INSERT that the bytes of a line are, read straight from them where it is written as most are: its words in capitals,
/// without a list of columns, its tuples of one length, no text in them empty and no comment among them.
///
/// None says nothing of the line: its tokens do.
pub fn insert(alloc: Global, line: &[u8]) -> Result<Option<Stmt>, NoMemory>
    // Its spelling are the line's tokens.
    ensures lexed { IfOk result (λ found. IfSome found (λ stmt. lexing.AreLexed line.now (spelling stmt))) }
    // It is a statement of a session.
    ensures is { IfOk result (λ found. IfSome found (λ stmt. IsStmtOf side.Session stmt)) }
{
    let Some((name, at)) = head(alloc, line)? else {
        return Ok(None);
    };
    let Some(tuples) = tuples(alloc, line, at)? else {
        return Ok(None);
    };
    Ok(Some(Stmt::Insert {
        name,
        columns: List::of(Vec::new(alloc)),
        tuples,
    }))
}
