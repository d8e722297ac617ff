ghost use Rattle.im_readers.specs.Reading.{Found};
ghost use Rattle.im_readers.specs.Answers.{Gives};
ghost use Rattle.im_parse.specs.inner.Statements as statements;
ghost use Rattle.im_parse.specs.inner.Marks.{keyword as of_keyword};
ghost use Rattle.im_syntax.specs.declared.keyword.Keyword.TheVariants as key;

use crate::marks::{name, number, peek, wide_number, word};
use crate::queries::query;
use crate::rows::{delete, insert, update};
use crate::tables::{alter, create};
use crate::transactions::transaction;
use im_readers::Halt;
use im_syntax::limits::{LAST_CURSOR, LAST_EXTENT, MOST_CREDITS};
use im_syntax::{Keyword, Stmt, Token};
use std::alloc::Global;

/// The cursor behind a keyword.
#[tactic(auto, unfolding(crate::specs::inner::Statements::cursor_at))]
fn cursor(tokens: &[Token], keyword: Keyword) -> Result<(u32, &[Token]), Halt>
    ensures { Gives (λ x. Found x.0 x.1.now) result (statements.cursor_at keyword tokens.now) }
{
    let rest = word(tokens, keyword)?;
    let (cursor, rest) = number(rest, 1, LAST_CURSOR)?;
    Ok((cursor, rest))
}

#[tactic(auto, unfolding(crate::specs::inner::Statements::explain_at))]
fn explain(alloc: Global, tokens: &[Token]) -> Result<(Stmt, &[Token]), Halt>
    ensures { Gives (λ x. Found x.0 x.1.now) result (statements.explain_at tokens.now) }
{
    let rest = word(tokens, Keyword::Explain)?;
    let (query, rest) = query(alloc, rest)?;
    Ok((Stmt::Explain(query), rest))
}

#[tactic(auto, unfolding(crate::specs::inner::Statements::open_at))]
fn open_for(alloc: Global, tokens: &[Token]) -> Result<(Stmt, &[Token]), Halt>
    ensures { Gives (λ x. Found x.0 x.1.now) result (statements.open_at tokens.now) }
{
    let (cursor, rest) = cursor(tokens, Keyword::Open)?;
    let rest = word(rest, Keyword::For)?;
    let (query, rest) = query(alloc, rest)?;
    Ok((Stmt::OpenFor { cursor, query }, rest))
}

#[tactic(auto, unfolding(crate::specs::inner::Statements::trickle_at))]
fn trickle(tokens: &[Token]) -> Result<(Stmt, &[Token]), Halt>
    ensures { Gives (λ x. Found x.0 x.1.now) result (statements.trickle_at tokens.now) }
{
    let rest = word(tokens, Keyword::Trickle)?;
    let (credits, rest) = number(rest, 1, MOST_CREDITS)?;
    Ok((Stmt::Trickle(credits), rest))
}

#[tactic(auto, unfolding(crate::specs::inner::Statements::evict_at))]
fn evict(alloc: Global, tokens: &[Token]) -> Result<(Stmt, &[Token]), Halt>
    ensures { Gives (λ x. Found x.0 x.1.now) result (statements.evict_at tokens.now) }
{
    let rest = word(tokens, Keyword::Evict)?;
    let (name, rest) = name(alloc, rest)?;
    let (extent, rest) = wide_number(rest, 0, LAST_EXTENT)?;
    Ok((Stmt::Evict { name, extent }, rest))
}

fn select(alloc: Global, tokens: &[Token]) -> Result<(Stmt, &[Token]), Halt>
    ensures { Gives (λ x. Found x.0 x.1.now) result (statements.statement_by (of_keyword key.Select) tokens.now) }
{
    let (query, rest) = query(alloc, tokens)?;
    Ok((Stmt::Select(query), rest))
}

/// A statement of one keyword.
///
/// Where it is not read, a call drops it: in line, its every variant would be a case of this function's proof.
fn single(tokens: &[Token], keyword: Keyword, stmt: Stmt) -> Result<(Stmt, &[Token]), Halt>
    ensures { Gives (λ x. Found x.0 x.1.now) result (statements.single_at keyword stmt tokens.now) }
{
    match word(tokens, keyword) {
        Ok(rest) => Ok((stmt, rest)),
        Err(halt) => {
            drop(stmt);
            Err(halt)
        }
    }
}

fn step(tokens: &[Token]) -> Result<(Stmt, &[Token]), Halt>
    ensures { Gives (λ x. Found x.0 x.1.now) result (statements.statement_by (of_keyword key.Step) tokens.now) }
{
    let (cursor, rest) = cursor(tokens, Keyword::Step)?;
    Ok((Stmt::Step(cursor), rest))
}

fn fetch(tokens: &[Token]) -> Result<(Stmt, &[Token]), Halt>
    ensures { Gives (λ x. Found x.0 x.1.now) result (statements.statement_by (of_keyword key.Fetch) tokens.now) }
{
    let (cursor, rest) = cursor(tokens, Keyword::Fetch)?;
    Ok((Stmt::Fetch(cursor), rest))
}

fn close(tokens: &[Token]) -> Result<(Stmt, &[Token]), Halt>
    ensures { Gives (λ x. Found x.0 x.1.now) result (statements.statement_by (of_keyword key.Close) tokens.now) }
{
    let (cursor, rest) = cursor(tokens, Keyword::Close)?;
    Ok((Stmt::Close(cursor), rest))
}

/// A statement by its first keyword.
///
/// It stays a call: it has room for the answer of each kind of statement, which is cleared where it begins, and most
/// statements by far are INSERT, which go past it.
#[inline(never)]
fn statement_by(alloc: Global, keyword: Keyword, tokens: &[Token]) -> Result<(Stmt, &[Token]), Halt>
    ensures { Gives (λ x. Found x.0 x.1.now) result (statements.statement_by (of_keyword keyword) tokens.now) }
{
    match keyword {
        Keyword::Select => select(alloc, tokens),
        Keyword::Explain => explain(alloc, tokens),
        Keyword::Create => create(alloc, tokens),
        Keyword::Alter => alter(alloc, tokens),
        Keyword::Insert => insert(alloc, tokens),
        Keyword::Update => update(alloc, tokens),
        Keyword::Delete => delete(alloc, tokens),
        Keyword::Set => transaction(tokens),
        Keyword::Commit => single(tokens, Keyword::Commit, Stmt::Commit),
        Keyword::Rollback => single(tokens, Keyword::Rollback, Stmt::Rollback),
        Keyword::Open => open_for(alloc, tokens),
        Keyword::Step => step(tokens),
        Keyword::Fetch => fetch(tokens),
        Keyword::Close => close(tokens),
        Keyword::Run => single(tokens, Keyword::Run, Stmt::Run),
        Keyword::Begin => single(tokens, Keyword::Begin, Stmt::Begin),
        Keyword::Switch => single(tokens, Keyword::Switch, Stmt::Switch),
        Keyword::Cancel => single(tokens, Keyword::Cancel, Stmt::Cancel),
        Keyword::Trickle => trickle(tokens),
        Keyword::Evict => evict(alloc, tokens),
        Keyword::Purge => single(tokens, Keyword::Purge, Stmt::Purge),
        _ => Err(Halt::Left(tokens.len())),
    }
}

/// A statement, and the tokens behind it.
#[tactic(auto, unfolding(crate::specs::inner::Statements::statement_at))]
pub fn statement(alloc: Global, tokens: &[Token]) -> Result<(Stmt, &[Token]), Halt>
    ensures { Gives (λ x. Found x.0 x.1.now) result (statements.statement_at tokens.now) }
{
    match peek(tokens)? {
        Token::Keyword(Keyword::Insert) => insert(alloc, tokens),
        Token::Keyword(keyword) => statement_by(alloc, *keyword, tokens),
        _ => Err(Halt::Left(tokens.len())),
    }
}
