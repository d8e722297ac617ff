ghost use Rattle.std.specs.Prelude.{◌≡◌, IfOk};
ghost use Rattle.im_values.specs.declared.content.Content.TheVariants.{Int, Text, Null};
ghost use Rattle.im_values.specs.Contents.{content_seen};

use crate::content::Content;
use crate::name::{Form, IN_PLACE, Name};
use crate::no_memory::NoMemory;
use std::alloc::Global;
use std::cmp::Ordering;
use std::hash::{Hash, Hasher};
use std::marker::Model;
use std::sync::Arc;

/// How a value is kept.
#[derive(Drop)]
pub(crate) enum Kept {
    Int(i64),
    /// A text in place: the first so many bytes of the array.
    Short(u8, [u8; IN_PLACE]),
    /// A longer text, whose bytes copies share.
    Long(Arc<Vec<u8>>),
    Null,
}

/// One value of a row: NULL, a whole number or a text. It takes 16 bytes.
#[derive(Drop)]
pub struct Value {
    kept: Kept,
}

impl Model for Value {
    ghost use Rattle.im_values.specs.declared.content.Content.{Content as AnyContent};
    ghost use Rattle.im_values.specs.Contents.{content_of, IsInPlace};

    ghost Value = { AnyContent };

    ghost view = { λ v. content_of v.kept };

    ghost invariant = { λ v. IsInPlace v.kept };
}

/// A value that is looked at.
#[derive(Clone, Copy)]
pub enum Seen<'a> {
    Int(i64),
    Text(&'a [u8]),
    Null,
}

impl Value {
    /// A whole number.
    pub fn int(number: i64) -> Value
        ensures { result ≡ Int number }
    {
        Value {
            kept: Kept::Int(number),
        }
    }

    /// A text.
    pub fn text(text: Name) -> Value
        ensures { result ≡ Text text }
    {
        let kept = match text.into_form() {
            Form::Short(length, text) => Kept::Short(length, text),
            Form::Long(text) => Kept::Long(text),
        };
        Value { kept }
    }

    /// NULL.
    pub fn null() -> Value
        ensures { result ≡ Null }
    {
        Value { kept: Kept::Null }
    }

    /// What it is.
    #[inline(always)]
    pub fn seen(&self) -> Seen<'_>
        ensures { self.now ≡ content_seen result }
    {
        match &self.kept {
            Kept::Int(number) => Seen::Int(*number),
            Kept::Short(length, text) => Seen::Text(&text[..usize::from(*length)]),
            Kept::Long(text) => Seen::Text(text.as_slice()),
            Kept::Null => Seen::Null,
        }
    }

    /// What it is, with what it holds.
    pub fn into_content(self) -> Content
        ensures { result ≡ self }
    {
        match self.kept {
            Kept::Int(number) => Content::Int(number),
            Kept::Short(length, text) => Content::Text(Name::of_form(Form::Short(length, text))),
            Kept::Long(text) => Content::Text(Name::of_form(Form::Long(text))),
            Kept::Null => Content::Null,
        }
    }

    /// The same value once more. It takes no memory: a copy is refused only where as many share a long text as can.
    pub fn copy(&self, _alloc: Global) -> Result<Value, NoMemory>
        ensures { IfOk result (λ value. value ≡ self.now) }
    {
        let kept = match &self.kept {
            Kept::Int(number) => Kept::Int(*number),
            Kept::Short(length, text) => Kept::Short(*length, *text),
            Kept::Long(text) => Kept::Long(text.clone()?),
            Kept::Null => Kept::Null,
        };
        Ok(Value { kept })
    }
}

impl PartialEq for Value {
    ghost use Rattle.im_values.specs.contracts.content.ContentPartialEq.TheImpl.Laws as given;

    ghost eq = { ⟦<Content as PartialEq>⟧.eq };

    ghost laws = { given.laws-law };

    fn eq(&self, other: &Value) -> bool {
        match (self.seen(), other.seen()) {
            (Seen::Int(a), Seen::Int(b)) => a == b,
            (Seen::Text(a), Seen::Text(b)) => a == b,
            (Seen::Null, Seen::Null) => true,
            _ => false,
        }
    }
}

impl Eq for Value {
    ghost use Rattle.im_values.specs.contracts.content.ContentEq.TheImpl.Laws as given;

    ghost laws = { given.laws-law };
}

impl PartialOrd for Value {
    ghost use Rattle.im_values.specs.contracts.content.ContentPartialOrd.TheImpl.Laws as given;

    ghost partial_cmp = { ⟦<Content as PartialOrd>⟧.partial_cmp };

    ghost laws = { given.laws-law };

    fn partial_cmp(&self, other: &Value) -> Option<Ordering> {
        Some(self.cmp(other))
    }
}

impl Ord for Value {
    ghost use Rattle.im_values.specs.contracts.content.ContentOrd.TheImpl.Laws as given;

    ghost cmp = { ⟦<Content as Ord>⟧.cmp };

    ghost total = { given.total-law };

    ghost matches_partial_cmp = { given.matches_partial_cmp-law };

    ghost matches_eq = { given.matches_eq-law };

    fn cmp(&self, other: &Value) -> Ordering {
        match (self.seen(), other.seen()) {
            (Seen::Int(a), Seen::Int(b)) => a.cmp(&b),
            (Seen::Text(a), Seen::Text(b)) => a.cmp(b),
            (Seen::Null, Seen::Null) => Ordering::Equal,
            (Seen::Int(_), _) | (Seen::Text(_), Seen::Null) => Ordering::Less,
            (Seen::Text(_), _) | (Seen::Null, _) => Ordering::Greater,
        }
    }
}

impl Hash for Value {
    ghost use Rattle.im_values.specs.contracts.content.ContentHash.TheImpl.Laws as given;

    ghost hash_input = { ⟦<Content as Hash>⟧.hash_input };

    ghost respects_eq = { given.respects_eq-law };

    fn hash<S: Hasher>(&self, state: &mut S) {
        match self.seen() {
            Seen::Int(number) => {
                0isize.hash(state);
                number.hash(state);
            }
            Seen::Text(text) => {
                1isize.hash(state);
                text.hash(state);
            }
            Seen::Null => 2isize.hash(state),
        }
    }
}
