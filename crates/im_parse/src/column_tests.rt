ghost use Rattle.std.specs.Prelude.{◌≡◌};
ghost use Rattle.im_readers.specs.Reading.{Found, and_then};
ghost use Rattle.im_readers.specs.Answers.{Gives};
ghost use Rattle.im_syntax.specs.Forms.{term_of_form};
ghost use Rattle.im_parse.specs.inner.Conditions as conditions;

use crate::marks::{cmp, is_key, lit, name, peek, word};
use crate::values::tuple;
use im_readers::Halt;
use im_syntax::{Keyword, Sign, TermForm, Token};
use im_values::Name;
use std::alloc::Global;

/// NOT, where it stands.
#[tactic(auto, unfolding(crate::specs::inner::Conditions::not_at, crate::specs::inner::Marks::word_at))]
fn negated(tokens: &[Token]) -> (bool, &[Token])
    ensures { conditions.not_at tokens.now ≡ Found result.0 result.1.now }
{
    match tokens {
        [token, rest @ ..] if is_key(token, Keyword::Not) => (true, rest),
        _ => (false, tokens),
    }
}

#[tactic(auto, unfolding(crate::specs::inner::Conditions::comparison_at))]
fn comparison(alloc: Global, column: Name, tokens: &[Token]) -> Result<(TermForm, &[Token]), Halt>
    ensures { Gives (λ x. Found (term_of_form x.0) x.1.now) result
        (and_then (conditions.comparison_at tokens.now) (λ tail rest. Found (conditions.test_of (column, tail)) rest)) }
{
    let (cmp, rest) = cmp(tokens)?;
    let (value, rest) = lit(alloc, rest)?;
    Ok((TermForm::Compare { column, cmp, value }, rest))
}

#[tactic(auto, unfolding(crate::specs::inner::Conditions::null_at))]
fn null_test(column: Name, tokens: &[Token]) -> Result<(TermForm, &[Token]), Halt>
    ensures { Gives (λ x. Found (term_of_form x.0) x.1.now) result
        (and_then (conditions.null_at tokens.now) (λ tail rest. Found (conditions.test_of (column, tail)) rest)) }
{
    let rest = word(tokens, Keyword::Is)?;
    let (negated, rest) = negated(rest);
    let rest = word(rest, Keyword::Null)?;
    Ok((TermForm::IsNull { column, negated }, rest))
}

#[tactic(auto, unfolding(crate::specs::inner::Conditions::between_at))]
fn between(
    alloc: Global,
    column: Name,
    negated: bool,
    tokens: &[Token],
) -> Result<(TermForm, &[Token]), Halt>
    ensures { Gives (λ x. Found (term_of_form x.0) x.1.now) result
        (and_then (conditions.between_at tokens.now) (λ range rest. Found (conditions.test_of (column, conditions.ranged negated range)) rest)) }
{
    let rest = word(tokens, Keyword::Between)?;
    let (low, rest) = lit(alloc, rest)?;
    let rest = word(rest, Keyword::And)?;
    let (high, rest) = lit(alloc, rest)?;
    Ok((
        TermForm::Between {
            column,
            negated,
            low,
            high,
        },
        rest,
    ))
}

#[tactic(auto, unfolding(crate::specs::inner::Conditions::in_at))]
fn within(
    alloc: Global,
    column: Name,
    negated: bool,
    tokens: &[Token],
) -> Result<(TermForm, &[Token]), Halt>
    ensures { Gives (λ x. Found (term_of_form x.0) x.1.now) result
        (and_then (conditions.in_at tokens.now) (λ range rest. Found (conditions.test_of (column, conditions.ranged negated range)) rest)) }
{
    let rest = word(tokens, Keyword::In)?;
    let (values, rest) = tuple(alloc, rest)?;
    Ok((
        TermForm::Within {
            column,
            negated,
            values,
        },
        rest,
    ))
}

/// BETWEEN or IN behind a NOT.
#[tactic(auto, unfolding(crate::specs::inner::Conditions::not_ranged_at, crate::specs::inner::Conditions::range_at))]
fn not_ranged(alloc: Global, column: Name, tokens: &[Token]) -> Result<(TermForm, &[Token]), Halt>
    ensures { Gives (λ x. Found (term_of_form x.0) x.1.now) result
        (and_then (conditions.not_ranged_at tokens.now) (λ tail rest. Found (conditions.test_of (column, tail)) rest)) }
{
    let rest = word(tokens, Keyword::Not)?;
    match peek(rest)? {
        Token::Keyword(Keyword::Between) => between(alloc, column, true, rest),
        Token::Keyword(Keyword::In) => within(alloc, column, true, rest),
        _ => Err(Halt::Left(rest.len())),
    }
}

/// A test of a column.
#[tactic(auto, unfolding(crate::specs::inner::Conditions::test_at, crate::specs::inner::Conditions::tail_at))]
pub fn test(alloc: Global, tokens: &[Token]) -> Result<(TermForm, &[Token]), Halt>
    ensures { Gives (λ x. Found (term_of_form x.0) x.1.now) result (conditions.test_at tokens.now) }
{
    let (column, rest) = name(alloc, tokens)?;
    match peek(rest)? {
        Token::Keyword(Keyword::Is) => null_test(column, rest),
        Token::Keyword(Keyword::Not) => not_ranged(alloc, column, rest),
        Token::Keyword(Keyword::Between) => between(alloc, column, false, rest),
        Token::Keyword(Keyword::In) => within(alloc, column, false, rest),
        Token::Sign(Sign::Eq | Sign::Ne | Sign::Lt | Sign::Le | Sign::Gt | Sign::Ge) => {
            comparison(alloc, column, rest)
        }
        _ => Err(Halt::Left(rest.len())),
    }
}
