ghost use Rattle.std.specs.Prelude.{◌≡◌, ◌+◌, ◌≤◌, ℕ, List, length, slice_get, IfOk, IfErr, IfSome};
ghost use Rattle.im_syntax.specs.declared.token.Token.{Token as AnyToken};
ghost use Rattle.im_lex.specs.declared.lexing.LexFault.TheVariants as fault;
ghost use Rattle.im_lex.specs.Lexing as lexing;
ghost use Rattle.im_lex.specs.inner.Rounds as rounds;

use crate::bytes::behind;
use crate::front::Front;
use crate::fronts::front;
use im_syntax::Token;
use im_values::NoMemory;
use std::alloc::{AllocError, AllocFailed, Global};

/// Why the bytes of a line are no tokens.
#[derive(Clone, Copy)]
pub enum LexFault {
    /// The first bad byte: so many bytes stand before it.
    At(u64),
    /// There was no memory for the tokens.
    NoMemory,
}

impl From<NoMemory> for LexFault {
    ghost from_gives = { λ _ e. e ≡ fault.NoMemory };

    fn from(_cause: NoMemory) -> LexFault {
        LexFault::NoMemory
    }
}

impl From<AllocError> for LexFault {
    ghost from_gives = { λ _ e. e ≡ fault.NoMemory };

    fn from(_cause: AllocError) -> LexFault {
        LexFault::NoMemory
    }
}

impl<T: Drop> From<AllocFailed<T>> for LexFault {
    ghost from_gives = { λ _ e. e ≡ fault.NoMemory };

    fn from(_cause: AllocFailed<T>) -> LexFault {
        LexFault::NoMemory
    }
}

/// The first tokens of a line.
#[derive(Drop)]
struct First {
    tokens: Vec<Token>,
    /// How many bytes stand before the next one, where there is one.
    next: Option<u64>,
}

/// The tokens of a line from left to right, but at most so many. Each round goes on by one byte or more.
///
/// The list begins with room for a token in three bytes, as lists of short values have. This is the one loop that reads
/// tokens, so that what stands at the front is read in it and not by a call.
fn read_tokens(alloc: Global, line: &[u8], most: u64) -> Result<First, LexFault>
    ensures found { IfOk result (λ first. rounds.AreFirst most line.now first.tokens.items first.next) }
    ensures bad { IfErr result (lexing.IsBadByte line.now) }
    ensures before { IfErr result (rounds.IsMetBefore most line.now) }
{
    let mut tokens = Vec::with_capacity(alloc, line.len() / 3)?;
    let mut at = 0;
    for _ in 0..line.len() {
        match front(alloc, behind(line, at))? {
            Front::Stop => return Ok(First { tokens, next: None }),
            Front::Bad => return Err(LexFault::At(at as u64)),
            Front::Blank => at += 1,
            Front::Lexed(token, more) => {
                if tokens.len() as u64 == most {
                    let next = Some(at as u64);
                    return Ok(First { tokens, next });
                }
                tokens.push(token)?;
                at = at + 1 + more;
            }
        }
    }
    Ok(First { tokens, next: None })
}

/// The tokens of a line.
///
/// An error is the first bad byte, wherever it stands, or out of memory. A comment's bytes are never bad.
pub fn lex(alloc: Global, line: &[u8]) -> Result<Vec<Token>, LexFault>
    // What is found are the line's tokens.
    ensures found { IfOk result (λ tokens. lexing.AreLexed line.now tokens.items) }
    // The line's tokens are found, unless memory runs out.
    ensures only { (ts : List (AnyToken × ℕ)) → lexing.Lexes 0 line.now ts → lexing.IsLexed ts result }
    // A fault is the first bad byte.
    ensures bad { IfErr result (lexing.IsBadByte line.now) }
    // The first bad byte is a fault, unless memory runs out.
    ensures bad_only { (n : ℕ) → lexing.IsBadAt 0 line.now n → lexing.IsFaultAt n result }
{
    match read_tokens(alloc, line, line.len() as u64) {
        Ok(first) => Ok(first.tokens),
        Err(fault) => Err(fault),
    }
}

/// How many bytes of a line stand before its n-th token, from 0, where so many stand before its first bad byte.
///
/// It reads the line anew, so that [`lex`] need not keep what is asked of bad lines alone.
#[cold]
pub fn place_of(alloc: Global, line: &[u8], n: u64) -> Result<Option<u64>, NoMemory>
    // It is the place of that token among those before the first bad byte.
    ensures stands { IfOk result (lexing.IsPlaceOf n line.now) }
    // Where no byte is bad, they are the line's tokens.
    ensures is { (ts : List (AnyToken × ℕ)) → lexing.Lexes 0 line.now ts → IfOk result (λ place. place ≡ slice_get (lexing.places_of ts) n) }
    // It lies in the line.
    ensures within { IfOk result (λ place. IfSome place (λ at. at ≤ length line.now)) }
{
    match read_tokens(alloc, line, n) {
        Ok(First { next, .. }) => Ok(next),
        Err(LexFault::At(_)) => Ok(None),
        Err(LexFault::NoMemory) => Err(NoMemory),
    }
}
