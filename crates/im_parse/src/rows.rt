ghost use Rattle.std.specs.Prelude.{◌≡◌};
ghost use Rattle.im_readers.specs.Reading.{Found};
ghost use Rattle.im_readers.specs.Answers.{Gives};
ghost use Rattle.im_parse.specs.inner.Marks as marks;
ghost use Rattle.im_parse.specs.inner.Conditions.{tuple_at};
ghost use Rattle.im_parse.specs.inner.Statements as statements;

use crate::marks::{equals, is_comma, is_left_paren, left_paren, lit, name, right_paren, word};
use crate::queries::where_part;
use crate::values::{Names, tuple};
use im_readers::{Halt, Part, list};
use im_syntax::{Keyword, Lit, Stmt, Token, Tuples};
use im_values::{List, Name};
use std::alloc::Global;

/// Tuples in a list.
struct EachTuple;

impl Part<Token> for EachTuple {
    type Value = List<Lit>;

    ghost marks = { marks.is_comma };

    ghost reads = { λ _. tuple_at };

    fn is_mark(&self, token: &Token) -> bool {
        is_comma(token)
    }

    fn read<'a>(
        &self,
        alloc: Global,
        tokens: &'a [Token],
    ) -> Result<(List<Lit>, &'a [Token]), Halt> {
        tuple(alloc, tokens)
    }
}

/// Settings of columns in a list.
struct Sets;

impl Part<Token> for Sets {
    type Value = (Name, Lit);

    ghost marks = { marks.is_comma };

    ghost reads = { λ _. statements.set_at };

    fn is_mark(&self, token: &Token) -> bool {
        is_comma(token)
    }

    fn read<'a>(
        &self,
        alloc: Global,
        tokens: &'a [Token],
    ) -> Result<((Name, Lit), &'a [Token]), Halt> {
        set(alloc, tokens)
    }
}

/// A column and its new value.
#[tactic(auto, unfolding(crate::specs::inner::Statements::set_at))]
fn set(alloc: Global, tokens: &[Token]) -> Result<((Name, Lit), &[Token]), Halt>
    ensures { Gives (λ x. Found x.0 x.1.now) result (statements.set_at tokens.now) }
{
    let (column, rest) = name(alloc, tokens)?;
    let rest = equals(rest)?;
    let (value, rest) = lit(alloc, rest)?;
    Ok(((column, value), rest))
}

/// Whether the columns of an INSERT are written.
fn begins_list(tokens: &[Token]) -> bool
    ensures { result ≡ statements.begins_list tokens.now }
{
    match tokens {
        [token, ..] => is_left_paren(token),
        [] => false,
    }
}

/// The columns of an INSERT in parentheses, where they are written.
#[tactic(auto, unfolding(crate::specs::inner::Statements::insert_columns_at))]
fn insert_columns(alloc: Global, tokens: &[Token]) -> Result<(List<Name>, &[Token]), Halt>
    ensures { Gives (λ x. Found x.0 x.1.now) result (statements.insert_columns_at tokens.now) }
{
    if !begins_list(tokens) {
        return Ok((List::of(Vec::new(alloc)), tokens));
    }
    let rest = left_paren(tokens)?;
    let (names, rest) = list(alloc, &Names, rest)?;
    let rest = right_paren(rest)?;
    Ok((List::of(names), rest))
}

/// INSERT.
#[tactic(auto, unfolding(crate::specs::inner::Statements::insert_at))]
pub fn insert(alloc: Global, tokens: &[Token]) -> Result<(Stmt, &[Token]), Halt>
    ensures { Gives (λ x. Found x.0 x.1.now) result (statements.insert_at tokens.now) }
{
    let rest = word(tokens, Keyword::Insert)?;
    let rest = word(rest, Keyword::Into)?;
    let (name, rest) = name(alloc, rest)?;
    let (columns, rest) = insert_columns(alloc, rest)?;
    let rest = word(rest, Keyword::Values)?;
    let (tuples, rest) = list(alloc, &EachTuple, rest)?;
    Ok((
        Stmt::Insert {
            name,
            columns,
            tuples: Tuples::listed(tuples),
        },
        rest,
    ))
}

/// UPDATE.
#[tactic(auto, unfolding(crate::specs::inner::Statements::update_at))]
pub fn update(alloc: Global, tokens: &[Token]) -> Result<(Stmt, &[Token]), Halt>
    ensures { Gives (λ x. Found x.0 x.1.now) result (statements.update_at tokens.now) }
{
    let rest = word(tokens, Keyword::Update)?;
    let (name, rest) = name(alloc, rest)?;
    let rest = word(rest, Keyword::Set)?;
    let (sets, rest) = list(alloc, &Sets, rest)?;
    let (cond, rest) = where_part(alloc, rest)?;
    Ok((
        Stmt::Update {
            name,
            sets: List::of(sets),
            cond,
        },
        rest,
    ))
}

/// DELETE.
#[tactic(auto, unfolding(crate::specs::inner::Statements::delete_at))]
pub fn delete(alloc: Global, tokens: &[Token]) -> Result<(Stmt, &[Token]), Halt>
    ensures { Gives (λ x. Found x.0 x.1.now) result (statements.delete_at tokens.now) }
{
    let rest = word(tokens, Keyword::Delete)?;
    let rest = word(rest, Keyword::From)?;
    let (name, rest) = name(alloc, rest)?;
    let (cond, rest) = where_part(alloc, rest)?;
    Ok((Stmt::Delete { name, cond }, rest))
}
