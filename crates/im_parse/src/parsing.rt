ghost use Rattle.std.specs.Prelude.{◌≡◌, IfOk, IfErr};
ghost use Rattle.im_syntax.specs.declared.statement.Stmt.{Stmt as AnyStmt};
ghost use Rattle.im_syntax.specs.Spelling.{spelling};
ghost use Rattle.im_syntax.specs.Rules.{IsStmt, IsStmtOf};
ghost use Rattle.im_parse.specs.Parsing.{IsReadAs, IsFaultAmong};

use crate::beginnings::begins;
use crate::statements::statement;
use im_readers::Halt;
use im_syntax::{Side, Stmt, Token};
use std::alloc::Global;

/// Why tokens gave no statement.
#[derive(Clone, Copy)]
pub enum ParseFault {
    /// The tokens are those of no statement: so many of them begin one, and no more.
    At(u64),
    /// There was no memory for the statement.
    NoMemory,
}

/// The statement that the tokens spell.
///
/// An error is the number of tokens in the longest prefix that begins a statement, or out of memory. A NOT or a
/// parenthesis nested too deep is refused at its token, so the stack stays small.
pub fn parse(alloc: Global, tokens: &[Token]) -> Result<Stmt, ParseFault>
    // What is read is a statement, and the tokens are its spelling.
    ensures found { IfOk result (λ s. IsStmt s × (tokens.now ≡ spelling s)) }
    // The tokens of a statement are read as it, unless memory runs out.
    ensures only { (s : AnyStmt) → IsStmt s → tokens.now ≡ spelling s → IsReadAs s result }
    // A fault is where the tokens leave the language.
    ensures place { IfErr result (IsFaultAmong IsStmt tokens.now) }
{
    match statement(alloc, tokens) {
        Ok((stmt, rest)) => {
            if rest.is_empty() {
                Ok(stmt)
            } else {
                // (a call, so that no variant of it is a case of this proof)
                drop(stmt);
                Err(ParseFault::At((tokens.len() - rest.len()) as u64))
            }
        }
        Err(Halt::NoMemory) => Err(ParseFault::NoMemory),
        Err(Halt::Left(left)) => Err(ParseFault::At((tokens.len() - left) as u64)),
    }
}

/// The statement of one side that the tokens spell.
///
/// An error is the number of tokens in the longest prefix that begins a statement of the side, or out of memory.
pub fn parse_for(alloc: Global, side: Side, tokens: &[Token]) -> Result<Stmt, ParseFault>
    // What is read is a statement of the side, and the tokens are its spelling.
    ensures found { IfOk result (λ s. IsStmtOf side s × (tokens.now ≡ spelling s)) }
    // The tokens of a statement of the side are read as it, unless memory runs out.
    ensures only { (s : AnyStmt) → IsStmtOf side s → tokens.now ≡ spelling s → IsReadAs s result }
    // A fault is where the tokens leave the statements of the side.
    ensures place { IfErr result (IsFaultAmong (IsStmtOf side) tokens.now) }
{
    if begins(tokens, side) {
        parse(alloc, tokens)
    } else {
        Err(ParseFault::At(0))
    }
}
