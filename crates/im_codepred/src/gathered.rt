ghost use Rattle.std.specs.Prelude.{◌≡◌, ◌^◌, ◌<◌, ◌≤◌, false, fold, length};
ghost use Rattle.std.specs.Ordering.{is_lt};
ghost use Rattle.im_values.specs.Order.{is_null};
ghost use Rattle.im_values.specs.Order as values;
ghost use Rattle.im_codepred.specs.Tallies.{chosen, lesser, greater, number};
ghost use Rattle.im_codepred.specs.inner.Tallying.{at_bits, no_totals, with_value, value_or_null, IsSomeValue, Shows};

use crate::form::share;
use crate::tally::Tally;
use im_lanes::Mask;
use im_values::{Seen, Value, order};
use std::marker::Model;

/// What values come to, while they are gone over.
#[derive(Drop)]
pub struct Gathered<'a> {
    values: u64,
    sum: i128,
    least: Option<&'a Value>,
    greatest: Option<&'a Value>,
}

impl<'a> Model for Gathered<'a> {
    ghost use Rattle.im_codepred.specs.inner.Tallying.{TotalsOf, value_or_null, IsSomeValue};
    ghost use Rattle.im_codepred.specs.Tallies.{IsWithin};

    ghost Value = { TotalsOf };

    ghost view = { λ g. record { values = g.values; sum = g.sum; least = value_or_null g.least; greatest = value_or_null g.greatest } };

    ghost invariant = { λ g. IsWithin g.values g.sum × IsSomeValue g.least × IsSomeValue g.greatest };
}

impl<'a> Gathered<'a> {
    /// Nothing yet.
    pub fn none() -> Gathered<'a>
        ensures { result ≡ no_totals }
    {
        Gathered {
            values: 0,
            sum: 0,
            least: None,
            greatest: None,
        }
    }

    /// Takes one value more. NULL is passed over.
    #[inline(always)]
    pub fn take(&mut self, value: &'a Value)
        requires { self.old.values < 2 ^ 63 }
        ensures { self.new ≡ with_value self.old value.now }
    {
        if !is_null(value) {
            self.put(value);
        }
    }

    /// Takes a value that is not NULL.
    #[inline(always)]
    fn put(&mut self, value: &'a Value)
        requires few { self.old.values < 2 ^ 63 }
        requires some { is_null value.now ≡ false }
        ensures { self.new ≡ with_value self.old value.now }
    {
        let least = lesser(self.least, value);
        let greatest = greater(self.greatest, value);
        self.values += 1;
        self.sum += i128::from(number_of(value));
        self.least = least;
        self.greatest = greatest;
    }

    /// Takes the values at the bits of a word that are set. It costs a step for each.
    fn take_word(&mut self, values: &'a [Value], word: u64)
        requires few { self.old.values < 2 ^ 62 }
        requires short { length values.now ≤ 64 }
        requires word { word < 2 ^ length values.now }
        ensures { self.new ≡ fold with_value self.old (at_bits word values.now) }
    {
        let mut rest = word;
        while rest != 0 {
            self.take(&values[rest.trailing_zeros() as usize]);
            rest &= rest - 1;
        }
    }

    /// What the values come to.
    pub fn tally(&self) -> Tally<'a>
        ensures { Shows self.now result }
    {
        Tally {
            values: self.values,
            sum: self.sum,
            least: self.least,
            greatest: self.greatest,
        }
    }
}

/// Whether a value is NULL.
#[inline(always)]
fn is_null(value: &Value) -> bool
    ensures { result ≡ is_null value.now }
{
    matches!(value.seen(), Seen::Null)
}

/// The number of a value: 0 where it is none.
#[inline(always)]
fn number_of(value: &Value) -> i64
    ensures { result ≡ number value.now }
{
    match value.seen() {
        Seen::Int(number) => number,
        Seen::Text(_) | Seen::Null => 0,
    }
}

/// Whether a value stands before another. Of two numbers it is seen at once.
#[inline(always)]
fn is_below(value: &Value, other: &Value) -> bool
    ensures { result ≡ is_lt (values.order value.now other.now) }
{
    match (value.seen(), other.seen()) {
        (Seen::Int(number), Seen::Int(other)) => number < other,
        _ => order(value, other).is_lt(),
    }
}

/// The lesser of what is the least so far and a value that is not NULL.
#[inline(always)]
fn lesser<'a>(least: Option<&'a Value>, value: &'a Value) -> Option<&'a Value>
    requires some { is_null value.now ≡ false }
    requires least { IsSomeValue least }
    ensures value { value_or_null result ≡ lesser (value_or_null least.entry) value.now }
    ensures some { IsSomeValue result }
{
    match least {
        Some(least) if !is_below(value, least) => Some(least),
        _ => Some(value),
    }
}

/// The greater of what is the greatest so far and a value that is not NULL.
#[inline(always)]
fn greater<'a>(greatest: Option<&'a Value>, value: &'a Value) -> Option<&'a Value>
    requires some { is_null value.now ≡ false }
    requires greatest { IsSomeValue greatest }
    ensures value { value_or_null result ≡ greater (value_or_null greatest.entry) value.now }
    ensures some { IsSomeValue result }
{
    match greatest {
        Some(greatest) if !is_below(greatest, value) => Some(greatest),
        _ => Some(value),
    }
}

/// What the chosen of values come to.
pub fn gathered_in<'a>(values: &'a [Value], mask: &Mask) -> Gathered<'a>
    requires long { length mask.now ≡ length values.now }
    ensures { result ≡ fold with_value no_totals (chosen mask.now values.now) }
{
    let words = mask.words();
    let mut gathered = Gathered::none();
    for place in 0..words.len() {
        gathered.take_word(share(values, place), words[place]);
    }
    gathered
}
