ghost use Rattle.std.specs.Prelude.{◌≡◌};
ghost use Rattle.im_values.specs.Order as spec;

use crate::truth::Truth;
use crate::value::{Seen, Value};
use std::cmp::Ordering;

/// One of SQL's six comparisons.
#[derive(Clone, Copy)]
pub enum Cmp {
    Eq,
    Ne,
    Lt,
    Le,
    Gt,
    Ge,
}

impl Cmp {
    fn admits(self, ordering: Ordering) -> bool
        ensures { result ≡ spec.admits self ordering }
    {
        match self {
            Cmp::Eq => ordering.is_eq(),
            Cmp::Ne => ordering.is_ne(),
            Cmp::Lt => ordering.is_lt(),
            Cmp::Le => ordering.is_le(),
            Cmp::Gt => ordering.is_gt(),
            Cmp::Ge => ordering.is_ge(),
        }
    }
}

/// How two values stand to each other: numbers by size, texts by bytes, numbers before texts, NULL last.
pub fn order(a: &Value, b: &Value) -> Ordering
    ensures { result ≡ spec.order a.now b.now }
{
    a.cmp(b)
}

/// The truth of a comparison: Unknown where a side is NULL, and else by the order of the values.
///
/// A number and a text compare too, by that order. No condition of a query asks for it.
pub fn compare(a: &Value, cmp: Cmp, b: &Value) -> Truth
    ensures { result ≡ spec.compare a.now cmp b.now }
{
    match (a.seen(), b.seen()) {
        (Seen::Null, _) | (_, Seen::Null) => Truth::Unknown,
        _ if cmp.admits(order(a, b)) => Truth::Yes,
        _ => Truth::No,
    }
}
