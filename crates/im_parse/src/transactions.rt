ghost use Rattle.im_readers.specs.Reading.{Found};
ghost use Rattle.im_readers.specs.Answers.{Gives};
ghost use Rattle.im_parse.specs.inner.Statements as statements;

use crate::marks::{peek, word};
use im_readers::Halt;
use im_syntax::{Keyword, Stmt, Token};

/// ISOLATION LEVEL and what it is.
#[tactic(auto, unfolding(crate::specs::inner::Statements::isolation_at))]
fn isolation(tokens: &[Token]) -> Result<(Stmt, &[Token]), Halt>
    ensures { Gives (λ x. Found x.0 x.1.now) result (statements.isolation_at tokens.now) }
{
    let rest = word(tokens, Keyword::Isolation)?;
    let rest = word(rest, Keyword::Level)?;
    match peek(rest)? {
        Token::Keyword(Keyword::Serializable) => {
            let rest = word(rest, Keyword::Serializable)?;
            Ok((Stmt::SetSerializable, rest))
        }
        Token::Keyword(Keyword::Read) => {
            let rest = word(rest, Keyword::Read)?;
            let rest = word(rest, Keyword::Committed)?;
            Ok((Stmt::SetCommitted, rest))
        }
        _ => Err(Halt::Left(rest.len())),
    }
}

/// The mode behind SET TRANSACTION.
#[tactic(auto, unfolding(crate::specs::inner::Statements::mode_at))]
fn mode(tokens: &[Token]) -> Result<(Stmt, &[Token]), Halt>
    ensures { Gives (λ x. Found x.0 x.1.now) result (statements.mode_at tokens.now) }
{
    match peek(tokens)? {
        Token::Keyword(Keyword::Read) => {
            let rest = word(tokens, Keyword::Read)?;
            let rest = word(rest, Keyword::Only)?;
            Ok((Stmt::SetReadOnly, rest))
        }
        Token::Keyword(Keyword::Isolation) => isolation(tokens),
        _ => Err(Halt::Left(tokens.len())),
    }
}

/// SET TRANSACTION.
#[tactic(auto, unfolding(crate::specs::inner::Statements::transaction_at))]
pub fn transaction(tokens: &[Token]) -> Result<(Stmt, &[Token]), Halt>
    ensures { Gives (λ x. Found x.0 x.1.now) result (statements.transaction_at tokens.now) }
{
    let rest = word(tokens, Keyword::Set)?;
    let rest = word(rest, Keyword::Transaction)?;
    let (stmt, rest) = mode(rest)?;
    Ok((stmt, rest))
}
