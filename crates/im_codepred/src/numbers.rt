ghost use Rattle.std.specs.Prelude.{◌≡◌};
ghost use Rattle.std.specs.Option.{ForSome};
ghost use Rattle.std.specs.Ordering.{is_eq};
ghost use Rattle.im_values.specs.declared.content.Content.{Content as AnyValue};
ghost use Rattle.im_values.specs.declared.content.Content.TheVariants.{Int};
ghost use Rattle.im_values.specs.Order as values;
ghost use Rattle.im_codepred.specs.Asked.{is_met};
ghost use Rattle.im_codepred.specs.declared.asked.Asked.TheVariants as asked;
ghost use Rattle.im_codepred.specs.declared.asked.Wanted.TheVariants.{Held};
ghost use Rattle.im_codepred.specs.Asked.{met};
ghost use Rattle.im_codepred.specs.inner.Numbers.{has_number, passes, Holds, IsKnown, IsReady};

use crate::asked::{Asked, Wanted, asks};
use im_values::{Cmp, Seen, Truth, Value};

/// The whole numbers between two others, both ends in, or all but those.
#[derive(Clone, Copy)]
pub struct Numbers {
    low: i64,
    high: i64,
    inside: bool,
}

impl Numbers {
    /// Whether a number is one of them.
    #[inline(always)]
    fn has(self, number: i64) -> bool
        ensures { result ≡ has_number self number }
    {
        (self.low <= number && number <= self.high) == self.inside
    }
}

/// What is known of the values that are as they are wanted, before any is asked.
#[derive(Clone, Copy)]
enum Known<'a> {
    /// Those of the numbers.
    Numbers(Numbers),

    /// They are this one.
    Same(&'a Value),

    /// Nothing: each has to be asked.
    Nothing,
}

/// What is asked of many values, with what is found out once for all of them.
#[derive(Clone, Copy)]
pub struct Probe<'a> {
    wanted: Wanted,
    asked: &'a Asked<'a>,
    known: Known<'a>,
}

impl<'a> Probe<'a> {
    /// Makes ready to ask this.
    pub fn of(wanted: Wanted, asked: &'a Asked<'a>) -> Probe<'a>
        ensures ready { IsReady result }
        ensures same { (value : AnyValue) → passes result value ≡ is_met wanted asked.now value }
    {
        let known = known_of(wanted, asked);
        Probe {
            wanted,
            asked,
            known,
        }
    }

    /// Whether a value has the truth that is wanted.
    #[inline(always)]
    pub fn meets(&self, value: &Value) -> bool
        requires { IsReady self.now }
        ensures { result ≡ passes self.now value.now }
    {
        match (self.known, value.seen()) {
            (Known::Numbers(numbers), Seen::Int(number)) => numbers.has(number),
            (Known::Same(other), _) => is_same(value, other),
            _ => asks(self.wanted, self.asked, value),
        }
    }

    /// Which numbers have it, where that is known.
    pub fn numbers(&self) -> Option<Numbers>
        requires { IsReady self.now }
        ensures { ForSome result (λ numbers. Holds numbers (passes self.now)) }
    {
        match self.known {
            Known::Numbers(numbers) => Some(numbers),
            Known::Same(_) | Known::Nothing => None,
        }
    }

    /// Whether a value has it, where it is known which numbers do.
    #[inline(always)]
    pub fn meets_among(&self, numbers: Numbers, value: &Value) -> bool
        requires { Holds numbers (passes self.now) }
        ensures { result ≡ passes self.now value.now }
    {
        match value.seen() {
            Seen::Int(number) => numbers.has(number),
            _ => self.asks(value),
        }
    }

    /// The same of a value that is seldom met.
    #[cold]
    #[inline(never)]
    fn asks(&self, value: &Value) -> bool
        ensures { result ≡ passes self.now value.now }
    {
        asks(self.wanted, self.asked, value)
    }
}

/// Whether two values are the same.
#[inline(always)]
fn is_same(value: &Value, other: &Value) -> bool
    ensures { result ≡ is_eq (values.order value.now other.now) }
{
    *value == *other
}

/// What is known of the values of which the truth is the one that is wanted: something where numbers are compared with, or
/// where a text is looked for.
fn known_of<'a>(wanted: Wanted, asked: &Asked<'a>) -> Known<'a>
    ensures { IsKnown result (is_met wanted asked.now) }
{
    match asked {
        Asked::Compare(cmp, value) => compared(wanted.comparison(*cmp), value),
        Asked::Between(low, high) => between(wanted, low, high),
        _ => Known::Nothing,
    }
}

/// What is known of the values between two others, or of those that are not.
fn between<'a>(wanted: Wanted, low: &Value, high: &Value) -> Known<'a>
    ensures { IsKnown result (is_met wanted (asked.Between low.entry high.entry)) }
{
    match (low.seen(), high.seen()) {
        (Seen::Int(low), Seen::Int(high)) => Known::Numbers(Numbers {
            low,
            high,
            inside: wanted.met(Truth::Yes),
        }),
        _ => Known::Nothing,
    }
}

/// What is known of the values that stand so to one.
fn compared(cmp: Cmp, value: &Value) -> Known
    ensures { IsKnown result (λ other. met Held (values.compare other cmp value.now)) }
{
    match (cmp, value.seen()) {
        (_, Seen::Int(number)) => Known::Numbers(compared_with(cmp, number)),
        (Cmp::Eq, Seen::Text(_)) => Known::Same(value),
        _ => Known::Nothing,
    }
}

/// The numbers that stand so to one.
fn compared_with(cmp: Cmp, other: i64) -> Numbers
    ensures { Holds result (λ value. met Held (values.compare value cmp (Int other))) }
{
    let (low, high, inside) = match cmp {
        Cmp::Eq => (other, other, true),
        Cmp::Ne => (other, other, false),
        Cmp::Lt => (other, i64::MAX, false),
        Cmp::Le => (i64::MIN, other, true),
        Cmp::Gt => (i64::MIN, other, false),
        Cmp::Ge => (other, i64::MAX, true),
    };
    Numbers { low, high, inside }
}
