ghost use Rattle.std.specs.Prelude.{◌≡◌};
ghost use Rattle.im_eval.specs.Holds as holds;
ghost use Rattle.im_codepred.specs.Asked as spec;
ghost use Rattle.im_codepred.specs.inner.Spans as span;

use im_eval::within;
use im_syntax::Choices;
use im_values::{Cmp, Seen, Truth, Value, compare};

/// Which truth is looked for: that a test holds, or that it fails. Of a test that is Unknown it is neither.
#[derive(Clone, Copy)]
pub enum Wanted {
    Held,
    Failed,
}

/// What a test asks of each value of its column.
#[derive(Clone, Copy)]
pub enum Asked<'a> {
    Compare(Cmp, &'a Value),
    IsNull,
    Between(&'a Value, &'a Value),
    Within(&'a Choices),
}

impl Wanted {
    /// What is wanted behind a NOT.
    pub fn swapped(self) -> Wanted
        ensures { result ≡ spec.swapped self }
    {
        match self {
            Wanted::Held => Wanted::Failed,
            Wanted::Failed => Wanted::Held,
        }
    }

    /// The same where no NOT is written.
    pub fn turned(self, negated: bool) -> Wanted
        ensures { result ≡ spec.turned negated self }
    {
        if negated { self.swapped() } else { self }
    }

    /// The comparison that holds where another is as it is wanted.
    pub fn comparison(self, cmp: Cmp) -> Cmp
        ensures { result ≡ span.comparison_of self cmp }
    {
        match self {
            Wanted::Held => cmp,
            Wanted::Failed => opposite(cmp),
        }
    }

    /// Whether a truth is the one that is wanted.
    pub fn met(self, truth: Truth) -> bool
        ensures { result ≡ spec.met self truth }
    {
        match self {
            Wanted::Held => matches!(truth, Truth::Yes),
            Wanted::Failed => matches!(truth, Truth::No),
        }
    }
}

/// The comparison that holds where another fails.
fn opposite(cmp: Cmp) -> Cmp
    ensures { result ≡ span.opposite cmp }
{
    match cmp {
        Cmp::Eq => Cmp::Ne,
        Cmp::Ne => Cmp::Eq,
        Cmp::Lt => Cmp::Ge,
        Cmp::Le => Cmp::Gt,
        Cmp::Gt => Cmp::Le,
        Cmp::Ge => Cmp::Lt,
    }
}

/// Whether a value has the truth that is wanted.
pub fn asks(wanted: Wanted, asked: &Asked, value: &Value) -> bool
    ensures { result ≡ spec.is_met wanted asked.now value.now }
{
    wanted.met(truth(asked, value))
}

/// The truth of what is asked, of a value.
fn truth(asked: &Asked, value: &Value) -> Truth
    ensures { result ≡ spec.truth_of asked.now value.now }
{
    match asked {
        Asked::Compare(cmp, other) => compare(value, *cmp, other),
        Asked::IsNull => null_truth(value),
        Asked::Between(low, high) => compare(value, Cmp::Ge, low).and(compare(
            value,
            Cmp::Le,
            high,
        )),
        Asked::Within(choices) => within(value, choices),
    }
}

fn null_truth(value: &Value) -> Truth
    ensures { result ≡ holds.null_truth value.now }
{
    match value.seen() {
        Seen::Null => Truth::Yes,
        _ => Truth::No,
    }
}
