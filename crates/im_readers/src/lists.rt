ghost use Rattle.std.specs.Prelude.{◌≡◌, ◌∷◌, Some, None, MatchOption};
ghost use Rattle.im_readers.specs.Reading.{Found, and_then, further, joined, joined_up_to, behind_mark as rest_behind};
ghost use Rattle.im_readers.specs.Answers.{Gives};

use crate::halt::Halt;
use crate::part::Part;
use std::alloc::Global;

fn behind_mark<'a, T, P: Part<T>>(part: &P, tokens: &'a [T]) -> Option<&'a [T]>
    ensures { MatchOption result
        (rest_behind P.marks tokens.now ≡ None)
        (λ rest. rest_behind P.marks tokens.now ≡ Some rest.now) }
{
    match tokens {
        [mark, rest @ ..] if part.is_mark(mark) => Some(rest),
        _ => None,
    }
}

fn with_more<'a, T, P: Part<T>>(
    alloc: Global,
    part: &P,
    first: P::Value,
    most: usize,
    tokens: &'a [T],
) -> Result<(Vec<P::Value>, &'a [T]), Halt>
    ensures { Gives (λ x. Found x.0.items x.1.now) result
        (and_then (further P.marks (P.reads part.now) most tokens.now) (λ xs rest. Found (first ∷ xs) rest)) }
{
    let mut values = Vec::new(alloc);
    values.push(first)?;
    let mut rest = tokens;
    for _ in 0..most {
        let Some(behind) = behind_mark(part, rest) else {
            break;
        };
        let (value, behind) = part.read(alloc, behind)?;
        values.push(value)?;
        rest = behind;
    }
    Ok((values, rest))
}

/// A list of one value or more, and the tokens behind it.
#[tactic(auto, unfolding(crate::specs::Reading::others))]
pub fn list<'a, T, P: Part<T>>(
    alloc: Global,
    part: &P,
    tokens: &'a [T],
) -> Result<(Vec<P::Value>, &'a [T]), Halt>
    ensures { Gives (λ x. Found x.0.items x.1.now) result
        (joined P.marks (P.reads part.now) tokens.now) }
{
    let (first, rest) = part.read(alloc, tokens)?;
    with_more(alloc, part, first, rest.len(), rest)
}

/// A list of one value and at most so many more, and the tokens behind it.
pub fn list_up_to<'a, T, P: Part<T>>(
    alloc: Global,
    part: &P,
    more: usize,
    tokens: &'a [T],
) -> Result<(Vec<P::Value>, &'a [T]), Halt>
    ensures { Gives (λ x. Found x.0.items x.1.now) result
        (joined_up_to more P.marks (P.reads part.now) tokens.now) }
{
    let (first, rest) = part.read(alloc, tokens)?;
    with_more(alloc, part, first, more, rest)
}
