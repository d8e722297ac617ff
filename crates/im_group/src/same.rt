ghost use Rattle.std.specs.Prelude.{◌≡◌, ◌+◌, ◌≤◌, length, nat_eq};
ghost use Rattle.std.specs.Option.{ForSome};
ghost use Rattle.std.specs.Cmp.Lexicographic.{pointwise};
ghost use Rattle.im_values.specs.contracts.value.ValuePartialEq.TheImpl as value_eq;
ghost use Rattle.im_group.specs.inner.Ends as spec;

use im_values::{Seen, Value};

/// Up to so many bytes are all told by the number of a text's ends.
const TOLD: usize = 8;

/// Four bytes from a place on, as one number.
#[inline(always)]
fn quad(bytes: &[u8], at: usize) -> u32
    requires { at + 4 ≤ length bytes.now }
    ensures { result ≡ spec.quad_at bytes.now at }
{
    u32::from_le_bytes([bytes[at], bytes[at + 1], bytes[at + 2], bytes[at + 3]])
}

/// The first bytes of a text and its last ones, as one number: of a text of up to 8 bytes these are all.
#[inline(always)]
pub fn ends(text: &[u8]) -> u64
    ensures { result ≡ spec.ends_of text.now }
{
    let count = text.len();
    if count >= 4 {
        u64::from(quad(text, 0)) + u64::from(quad(text, count - 4)) * 0x1_0000_0000
    } else if count > 0 {
        u64::from(text[0])
            + u64::from(text[count / 2]) * 0x100
            + u64::from(text[count - 1]) * 0x1_0000
    } else {
        0
    }
}

/// Whether two texts are the same, by all their bytes.
#[inline(never)]
fn same_far(text: &[u8], other: &[u8]) -> bool
    ensures { result ≡ pointwise nat_eq text.now other.now }
{
    text == other
}

/// Whether two texts are the same, as far as their lengths and their ends tell it. The ends of one are told.
#[inline(always)]
fn told_same(text: &[u8], told: u64, other: &[u8]) -> Option<bool>
    requires { told ≡ spec.ends_of text.now }
    ensures { ForSome result (λ same. same ≡ pointwise nat_eq text.now other.now) }
{
    if text.len() != other.len() {
        return Some(false);
    }
    if told != ends(other) {
        return Some(false);
    }
    if text.len() <= TOLD {
        return Some(true);
    }
    None
}

/// Whether two texts are the same. Short ones are compared without a call.
#[inline(always)]
fn same_text(text: &[u8], told: u64, other: &[u8]) -> bool
    requires { told ≡ spec.ends_of text.now }
    ensures { result ≡ pointwise nat_eq text.now other.now }
{
    match told_same(text, told, other) {
        Some(same) => same,
        None => same_far(text, other),
    }
}

/// A value that is looked for among others. The ends of a text are told once.
#[derive(Clone, Copy)]
pub struct Sought<'a> {
    pub value: &'a Value,
    pub ends: u64,
}

impl<'a> Sought<'a> {
    /// This value.
    #[inline(always)]
    pub fn of(value: &'a Value) -> Sought<'a>
        ensures sought { spec.IsSought result }
        ensures value { result.value.now ≡ value.now }
    {
        let ends = match value.seen() {
            Seen::Text(text) => ends(text),
            Seen::Int(_) | Seen::Null => 0,
        };
        Sought { value, ends }
    }

    /// Whether it is another value.
    #[inline(always)]
    pub fn is(&self, other: &Value) -> bool
        requires { spec.IsSought self.now }
        ensures { result ≡ (value_eq.ghosts).eq self.now.value.now other.now }
    {
        match (self.value.seen(), other.seen()) {
            (Seen::Int(number), Seen::Int(other)) => number == other,
            (Seen::Text(text), Seen::Text(other)) => same_text(text, self.ends, other),
            (Seen::Null, Seen::Null) => true,
            _ => false,
        }
    }
}

/// Whether two values are the same.
#[inline(always)]
pub fn same(value: &Value, other: &Value) -> bool
    ensures { result ≡ (value_eq.ghosts).eq value.now other.now }
{
    Sought::of(value).is(other)
}
