ghost use Rattle.std.specs.Prelude.{◌≡◌, ◌∷◌, length, Some, None, MatchOption};
ghost use Rattle.im_readers.specs.Reading.{Found, and_then, further, behind_mark};
ghost use Rattle.im_readers.specs.Answers.{Gives};
ghost use Rattle.im_syntax.specs.declared.keyword.Keyword.TheVariants as key;
ghost use Rattle.im_parse.specs.inner.Marks as marks;
ghost use Rattle.im_parse.specs.inner.Conditions as conditions;

use crate::column_tests::test;
use crate::marks::{is_key, left_paren, peek, right_paren, word};
use im_readers::Halt;
use im_syntax::{Cond, Conj, Keyword, Sign, Term, TermForm, Token};
use std::alloc::Global;

/// The tokens behind a keyword, where it stands.
fn behind(tokens: &[Token], keyword: Keyword) -> Option<&[Token]>
    ensures { MatchOption result
        (behind_mark (marks.is_key keyword) tokens.now ≡ None)
        (λ rest. behind_mark (marks.is_key keyword) tokens.now ≡ Some rest.now) }
{
    match tokens {
        [mark, rest @ ..] if is_key(mark, keyword) => Some(rest),
        _ => None,
    }
}

/// A term in which no NOT and no parenthesis may stand.
#[tactic(auto, unfolding(crate::specs::inner::Conditions::flat_term_at))]
fn flat_term(alloc: Global, tokens: &[Token]) -> Result<(Term, &[Token]), Halt>
    ensures { Gives (λ x. Found x.0 x.1.now) result (conditions.flat_term_at tokens.now) }
{
    match peek(tokens)? {
        Token::Word(_) => plain(alloc, tokens),
        _ => Err(Halt::Left(tokens.len())),
    }
}

/// A test of a column, as a term.
fn plain(alloc: Global, tokens: &[Token]) -> Result<(Term, &[Token]), Halt>
    ensures { Gives (λ x. Found x.0 x.1.now) result (conditions.test_at tokens.now) }
{
    let (test, rest) = test(alloc, tokens)?;
    Ok((Term::of(test), rest))
}

/// A term in which NOT and parentheses nest at most so deep.
#[cycle(condition)]
fn term(alloc: Global, depth: u32, tokens: &[Token]) -> Result<(Term, &[Token]), Halt>
    ensures { Gives (λ x. Found x.0 x.1.now) result (conditions.term_at depth tokens.now) }
{
    if depth == 0 {
        flat_term(alloc, tokens)
    } else {
        deep_term(alloc, depth - 1, tokens)
    }
}

/// A term in which NOT and parentheses may stand, and inside them nest at most so deep.
#[cycle(condition)]
#[tactic(auto, unfolding(crate::specs::inner::Conditions::deep_term_at))]
fn deep_term(alloc: Global, inside: u32, tokens: &[Token]) -> Result<(Term, &[Token]), Halt>
    ensures { Gives (λ x. Found x.0 x.1.now) result (conditions.deep_term_at inside tokens.now) }
{
    match peek(tokens)? {
        Token::Keyword(Keyword::Not) => negation(alloc, inside, tokens),
        Token::Sign(Sign::LeftParen) => nested(alloc, inside, tokens),
        Token::Word(_) => plain(alloc, tokens),
        _ => Err(Halt::Left(tokens.len())),
    }
}

/// A term behind NOT.
#[cycle(condition)]
#[tactic(auto, unfolding(crate::specs::inner::Conditions::negation_at))]
fn negation(alloc: Global, inside: u32, tokens: &[Token]) -> Result<(Term, &[Token]), Halt>
    ensures { Gives (λ x. Found x.0 x.1.now) result (conditions.negation_at inside tokens.now) }
{
    let rest = word(tokens, Keyword::Not)?;
    let (inner, rest) = term(alloc, inside, rest)?;
    Ok((Term::of(TermForm::Not(Box::new(alloc, inner)?)), rest))
}

/// A condition in parentheses.
#[cycle(condition)]
#[tactic(auto, unfolding(crate::specs::inner::Conditions::nested_at))]
fn nested(alloc: Global, inside: u32, tokens: &[Token]) -> Result<(Term, &[Token]), Halt>
    ensures { Gives (λ x. Found x.0 x.1.now) result (conditions.nested_at inside tokens.now) }
{
    let rest = left_paren(tokens)?;
    let (inner, rest) = cond(alloc, inside, rest)?;
    let rest = right_paren(rest)?;
    Ok((Term::of(TermForm::Nest(Box::new(alloc, inner)?)), rest))
}

/// Terms with AND between them.
#[cycle(condition)]
#[tactic(auto, unfolding(crate::specs::inner::Conditions::conj_at, im_readers::specs::Reading::others))]
fn conj(alloc: Global, depth: u32, tokens: &[Token]) -> Result<(Conj, &[Token]), Halt>
    ensures { Gives (λ x. Found x.0 x.1.now) result (conditions.conj_at depth tokens.now) }
{
    let (first, rest) = term(alloc, depth, tokens)?;
    let (terms, rest) = terms_from(alloc, depth, first, rest)?;
    Ok((Conj::of(terms), rest))
}

/// A term and those behind it, each behind an AND.
#[cycle(condition)]
fn terms_from(
    alloc: Global,
    depth: u32,
    first: Term,
    tokens: &[Token],
) -> Result<(Vec<Term>, &[Token]), Halt>
    ensures { Gives (λ x. Found x.0.items x.1.now) result
        (and_then (further (marks.is_key key.And) (conditions.term_at depth) (length tokens.now) tokens.now) (λ xs rest. Found (first ∷ xs) rest)) }
{
    let mut terms = Vec::new(alloc);
    terms.push(first)?;
    let mut rest = tokens;
    for _ in 0..tokens.len() {
        let Some(next) = behind(rest, Keyword::And) else {
            break;
        };
        let (term, next) = term(alloc, depth, next)?;
        terms.push(term)?;
        rest = next;
    }
    Ok((terms, rest))
}

/// A condition in which NOT and parentheses nest at most so deep.
#[cycle(condition)]
#[tactic(auto, unfolding(crate::specs::inner::Conditions::cond_at, crate::specs::inner::Conditions::conj_at, im_readers::specs::Reading::others))]
pub fn cond(alloc: Global, depth: u32, tokens: &[Token]) -> Result<(Cond, &[Token]), Halt>
    ensures { Gives (λ x. Found x.0 x.1.now) result (conditions.cond_at depth tokens.now) }
{
    let (first, rest) = conj(alloc, depth, tokens)?;
    let (lists, rest) = lists_from(alloc, depth, first, rest)?;
    Ok((Cond::of(lists), rest))
}

/// A conjunction and those behind it, each behind an OR.
#[cycle(condition)]
fn lists_from(
    alloc: Global,
    depth: u32,
    first: Conj,
    tokens: &[Token],
) -> Result<(Vec<Conj>, &[Token]), Halt>
    ensures { Gives (λ x. Found x.0.items x.1.now) result
        (and_then (further (marks.is_key key.Or) (conditions.conj_at depth) (length tokens.now) tokens.now) (λ xs rest. Found (first ∷ xs) rest)) }
{
    let mut lists = Vec::new(alloc);
    lists.push(first)?;
    let mut rest = tokens;
    for _ in 0..tokens.len() {
        let Some(next) = behind(rest, Keyword::Or) else {
            break;
        };
        let (conj, next) = conj(alloc, depth, next)?;
        lists.push(conj)?;
        rest = next;
    }
    Ok((lists, rest))
}
