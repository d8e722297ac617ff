ghost use Rattle.std.specs.Prelude.{◌≡◌, ◌≤◌, Some, None, IfSome, IfOk};
ghost use Rattle.im_readers.specs.Reading.{Found, mark, peek as peeked};
ghost use Rattle.im_readers.specs.Answers.{Gives};
ghost use Rattle.im_parse.specs.inner.Marks as marks;

use im_readers::Halt;
use im_syntax::{Keyword, Lit, Sign, Token, is_name};
use im_values::{Cmp, Name, Priority};
use std::alloc::Global;

/// The next token, which stays where it is.
pub fn peek(tokens: &[Token]) -> Result<&Token, Halt>
    ensures { Gives (λ t. Found t.now tokens.now) result (peeked tokens.now) }
{
    match tokens {
        [token, ..] => Ok(token),
        [] => Err(Halt::Left(0)),
    }
}

/// Whether a token is this keyword.
pub fn is_key(token: &Token, keyword: Keyword) -> bool
    ensures { result ≡ marks.is_key keyword token.now }
{
    match token {
        Token::Keyword(found) => *found == keyword,
        _ => false,
    }
}

/// Whether the next token is this keyword.
pub fn begins(tokens: &[Token], keyword: Keyword) -> bool
    ensures { result ≡ marks.begins_with_key keyword tokens.now }
{
    match tokens {
        [token, ..] => is_key(token, keyword),
        [] => false,
    }
}

/// A keyword, and the tokens behind it.
#[tactic(auto, unfolding(crate::specs::inner::Marks::word_at))]
pub fn word(tokens: &[Token], keyword: Keyword) -> Result<&[Token], Halt>
    ensures { Gives (λ rest. Found tt rest.now) result (marks.word_at keyword tokens.now) }
{
    match tokens {
        [token, rest @ ..] if is_key(token, keyword) => Ok(rest),
        _ => Err(Halt::Left(tokens.len())),
    }
}

/// An opening parenthesis, and the tokens behind it.
pub fn left_paren(tokens: &[Token]) -> Result<&[Token], Halt>
    ensures { Gives (λ rest. Found tt rest.now) result (mark marks.is_left tokens.now) }
{
    match tokens {
        [Token::Sign(Sign::LeftParen), rest @ ..] => Ok(rest),
        _ => Err(Halt::Left(tokens.len())),
    }
}

/// A closing parenthesis, and the tokens behind it.
pub fn right_paren(tokens: &[Token]) -> Result<&[Token], Halt>
    ensures { Gives (λ rest. Found tt rest.now) result (mark marks.is_right tokens.now) }
{
    match tokens {
        [Token::Sign(Sign::RightParen), rest @ ..] => Ok(rest),
        _ => Err(Halt::Left(tokens.len())),
    }
}

/// A star, and the tokens behind it.
pub fn star(tokens: &[Token]) -> Result<&[Token], Halt>
    ensures { Gives (λ rest. Found tt rest.now) result (mark marks.is_star tokens.now) }
{
    match tokens {
        [Token::Sign(Sign::Star), rest @ ..] => Ok(rest),
        _ => Err(Halt::Left(tokens.len())),
    }
}

/// The sign `=`, and the tokens behind it.
pub fn equals(tokens: &[Token]) -> Result<&[Token], Halt>
    ensures { Gives (λ rest. Found tt rest.now) result (mark marks.is_equals tokens.now) }
{
    match tokens {
        [Token::Sign(Sign::Eq), rest @ ..] => Ok(rest),
        _ => Err(Halt::Left(tokens.len())),
    }
}

/// Whether a token is a comma.
pub fn is_comma(token: &Token) -> bool
    ensures { result ≡ marks.is_comma token.now }
{
    matches!(token, Token::Sign(Sign::Comma))
}

/// Whether a token is an opening parenthesis.
pub fn is_left_paren(token: &Token) -> bool
    ensures { result ≡ marks.is_left token.now }
{
    matches!(token, Token::Sign(Sign::LeftParen))
}

/// The comparison of a sign.
fn cmp_of(token: &Token) -> Option<Cmp>
    ensures { result ≡ marks.cmp_of token.now }
{
    match token {
        Token::Sign(Sign::Eq) => Some(Cmp::Eq),
        Token::Sign(Sign::Ne) => Some(Cmp::Ne),
        Token::Sign(Sign::Lt) => Some(Cmp::Lt),
        Token::Sign(Sign::Le) => Some(Cmp::Le),
        Token::Sign(Sign::Gt) => Some(Cmp::Gt),
        Token::Sign(Sign::Ge) => Some(Cmp::Ge),
        _ => None,
    }
}

/// A comparison, and the tokens behind its sign.
#[tactic(auto, unfolding(crate::specs::inner::Marks::cmp_at))]
pub fn cmp(tokens: &[Token]) -> Result<(Cmp, &[Token]), Halt>
    ensures { Gives (λ x. Found x.0 x.1.now) result (marks.cmp_at tokens.now) }
{
    let [token, rest @ ..] = tokens else {
        return Err(Halt::Left(0));
    };
    match cmp_of(token) {
        Some(cmp) => Ok((cmp, rest)),
        None => Err(Halt::Left(tokens.len())),
    }
}

/// The name of a table or of a column.
#[tactic(auto, unfolding(crate::specs::inner::Marks::name_at))]
pub fn name(alloc: Global, tokens: &[Token]) -> Result<(Name, &[Token]), Halt>
    ensures { Gives (λ x. Found x.0 x.1.now) result (marks.name_at tokens.now) }
{
    match tokens {
        [Token::Word(word), rest @ ..] if is_name(word.bytes()) => match word.copy(alloc) {
            Ok(name) => Ok((name, rest)),
            Err(_) => Err(Halt::NoMemory),
        },
        _ => Err(Halt::Left(tokens.len())),
    }
}

/// The number that a token is, where it lies from low to high.
fn number_of(token: &Token, low: u64, high: u64) -> Option<u64>
    ensures within { IfSome result (λ n. n ≤ high) }
    ensures exact { result ≡ marks.number_of low high token.now }
{
    let Token::Int(number) = token else {
        return None;
    };
    let number = u64::try_from(*number).ok()?;
    if low <= number && number <= high {
        Some(number)
    } else {
        None
    }
}

/// A number from low to high.
#[tactic(auto, unfolding(crate::specs::inner::Marks::number_at))]
pub fn wide_number(tokens: &[Token], low: u64, high: u64) -> Result<(u64, &[Token]), Halt>
    ensures within { IfOk result (λ x. x.0 ≤ high) }
    ensures exact { Gives (λ x. Found x.0 x.1.now) result (marks.number_at low high tokens.now) }
{
    let [token, rest @ ..] = tokens else {
        return Err(Halt::Left(0));
    };
    match number_of(token, low, high) {
        Some(number) => Ok((number, rest)),
        None => Err(Halt::Left(tokens.len())),
    }
}

/// A number from low to high, of 32 bits.
pub fn number(tokens: &[Token], low: u32, high: u32) -> Result<(u32, &[Token]), Halt>
    ensures within { IfOk result (λ x. x.0 ≤ high) }
    ensures exact { Gives (λ x. Found x.0 x.1.now) result (marks.number_at low high tokens.now) }
{
    match wide_number(tokens, u64::from(low), u64::from(high)) {
        Ok((number, rest)) => Ok((number as u32, rest)),
        Err(halt) => Err(halt),
    }
}

/// A value as it is written.
#[tactic(auto, unfolding(crate::specs::inner::Marks::lit_at))]
pub fn lit(alloc: Global, tokens: &[Token]) -> Result<(Lit, &[Token]), Halt>
    ensures { Gives (λ x. Found x.0 x.1.now) result (marks.lit_at tokens.now) }
{
    match tokens {
        [Token::Int(number), rest @ ..] => Ok((Lit::Int(*number), rest)),
        [Token::Text(text), rest @ ..] => match text.copy(alloc) {
            Ok(text) => Ok((Lit::Text(text), rest)),
            Err(_) => Err(Halt::NoMemory),
        },
        [Token::Keyword(keyword), rest @ ..] if *keyword == Keyword::Null => Ok((Lit::Null, rest)),
        _ => Err(Halt::Left(tokens.len())),
    }
}

/// The level that a token names.
fn level_of(token: &Token) -> Option<Priority>
    ensures { result ≡ marks.level_of token.now }
{
    if is_key(token, Keyword::Critical) {
        return Some(Priority::Critical);
    }
    if is_key(token, Keyword::High) {
        return Some(Priority::High);
    }
    if is_key(token, Keyword::Medium) {
        return Some(Priority::Medium);
    }
    if is_key(token, Keyword::Low) {
        return Some(Priority::Low);
    }
    if is_key(token, Keyword::None) {
        return Some(Priority::None);
    }
    None
}

/// A level of PRIORITY.
#[tactic(auto, unfolding(crate::specs::inner::Marks::level_at))]
pub fn level(tokens: &[Token]) -> Result<(Priority, &[Token]), Halt>
    ensures { Gives (λ x. Found x.0 x.1.now) result (marks.level_at tokens.now) }
{
    let [token, rest @ ..] = tokens else {
        return Err(Halt::Left(0));
    };
    match level_of(token) {
        Some(level) => Ok((level, rest)),
        None => Err(Halt::Left(tokens.len())),
    }
}
