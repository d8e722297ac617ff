ghost use Rattle.im_readers.specs.Reading.{Found};
ghost use Rattle.im_readers.specs.Answers.{Gives};
ghost use Rattle.im_parse.specs.inner.Marks as marks;
ghost use Rattle.im_parse.specs.inner.Conditions.{tuple_at};

use crate::marks::{is_comma, left_paren, lit, name, right_paren};
use im_readers::{Halt, Part, list};
use im_syntax::{Lit, Token};
use im_values::{List, Name};
use std::alloc::Global;

/// Names in a list.
pub struct Names;

impl Part<Token> for Names {
    type Value = Name;

    ghost marks = { marks.is_comma };

    ghost reads = { λ _. marks.name_at };

    fn is_mark(&self, token: &Token) -> bool {
        is_comma(token)
    }

    fn read<'a>(&self, alloc: Global, tokens: &'a [Token]) -> Result<(Name, &'a [Token]), Halt> {
        name(alloc, tokens)
    }
}

/// Literals in a list.
struct Lits;

impl Part<Token> for Lits {
    type Value = Lit;

    ghost marks = { marks.is_comma };

    ghost reads = { λ _. marks.lit_at };

    fn is_mark(&self, token: &Token) -> bool {
        is_comma(token)
    }

    fn read<'a>(&self, alloc: Global, tokens: &'a [Token]) -> Result<(Lit, &'a [Token]), Halt> {
        lit(alloc, tokens)
    }
}

/// Literals in parentheses: a tuple, or the list behind IN.
#[tactic(auto, unfolding(crate::specs::inner::Conditions::tuple_at))]
pub fn tuple(alloc: Global, tokens: &[Token]) -> Result<(List<Lit>, &[Token]), Halt>
    ensures { Gives (λ x. Found x.0 x.1.now) result (tuple_at tokens.now) }
{
    let rest = left_paren(tokens)?;
    let (values, rest) = list(alloc, &Lits, rest)?;
    let rest = right_paren(rest)?;
    Ok((List::of(values), rest))
}
