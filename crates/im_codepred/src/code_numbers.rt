ghost use Rattle.std.specs.Prelude.{◌≡◌, ◌+◌, ◌-◌, ◌<◌, ◌≤◌, length, get_or, IfSome};
ghost use Rattle.im_values.specs.declared.content.Content.TheVariants.{Int, Null};
ghost use Rattle.im_codes.specs.Dictionary.{coded, IsDictionary};
ghost use Rattle.im_codepred.specs.inner.CodeNumbers.{IsFirst, StandAtEnds};
ghost use Rattle.im_codepred.specs.inner.Tallying.{number_at};

use im_values::{Seen, Value};
use std::marker::Model;

/// The numbers that the codes of a dictionary stand for: 0 for a text.
///
/// Where the values are numbers that follow one another, they are told from the codes, and no value is looked at.
#[derive(Drop)]
pub struct CodeNumbers<'a> {
    dict: &'a [Value],
    /// The number of code 1, where the values are numbers that follow one another.
    first: Option<i64>,
}

impl<'a> Model for CodeNumbers<'a> {
    ghost use Rattle.std.specs.Prelude.{List};
    ghost use Rattle.im_values.specs.declared.content.Content.{Content as AnyValue};
    ghost use Rattle.im_codepred.specs.inner.CodeNumbers.{IsFirst};

    ghost Value = { List AnyValue };

    ghost view = { λ n. n.dict.now };

    ghost invariant = { λ n. IsFirst n.dict.now n.first };
}

impl<'a> CodeNumbers<'a> {
    /// Those of a dictionary. It looks at its ends alone.
    pub fn of(dict: &'a [Value]) -> CodeNumbers<'a>
        requires { IsDictionary dict.now }
        ensures { result ≡ dict.now }
    {
        CodeNumbers {
            dict,
            first: first_of(dict),
        }
    }

    /// The number of code 1, where the values are numbers that follow one another.
    pub fn first(&self) -> Option<i64>
        ensures { IsFirst self.now result }
    {
        self.first
    }

    /// The number that a code from 1 on stands for.
    #[inline(always)]
    pub fn at(&self, code: u32) -> i64
        requires some { 0 < code }
        requires inside { code < length (coded self.now) }
        ensures { result ≡ number_at self.now code }
    {
        match self.first {
            Some(first) => first + (i64::from(code) - 1),
            None => number_at(self.dict, code),
        }
    }
}

/// The number that a code from 1 on stands for, by its value: 0 where that is a text.
#[inline(always)]
pub fn number_at(dict: &[Value], code: u32) -> i64
    requires some { 0 < code }
    requires inside { code < length (coded dict.now) }
    ensures { result ≡ number_at dict.now code }
{
    match dict[code as usize - 1].seen() {
        Seen::Int(number) => number,
        Seen::Text(_) | Seen::Null => 0,
    }
}

/// The number that a value is.
fn number_of(value: &Value) -> Option<i64>
    ensures { IfSome result (λ number. value.now ≡ Int number) }
{
    match value.seen() {
        Seen::Int(number) => Some(number),
        Seen::Text(_) | Seen::Null => None,
    }
}

/// The first and the last value of a dictionary, where both are numbers.
fn ends_of(dict: &[Value]) -> Option<(i64, i64)>
    ensures { IfSome result (λ ends. StandAtEnds dict.now ends.0 ends.1) }
{
    if dict.is_empty() {
        return None;
    }
    let first = number_of(&dict[0])?;
    let last = number_of(&dict[dict.len() - 1])?;
    Some((first, last))
}

/// The first of the ends of a dictionary, where its values are numbers that follow one another.
fn first_if_near(dict: &[Value], first: i64, last: i64) -> Option<i64>
    requires dictionary { IsDictionary dict.now }
    requires ends { StandAtEnds dict.now first last }
    ensures { IsFirst dict.now result }
{
    if i128::from(last) - i128::from(first) == dict.len() as i128 - 1 {
        Some(first)
    } else {
        None
    }
}

/// The first value of a dictionary, where its values are numbers that follow one another.
fn first_of(dict: &[Value]) -> Option<i64>
    requires { IsDictionary dict.now }
    ensures { IsFirst dict.now result }
{
    let (first, last) = ends_of(dict)?;
    first_if_near(dict, first, last)
}
