ghost use Rattle.std.specs.Prelude.{◌≡◌, ◌≤◌, IfOk, length};
ghost use Rattle.im_values.specs.Text.{text_of, IsInPlace};

use crate::no_memory::NoMemory;
use std::alloc::Global;
use std::cmp::Ordering;
use std::hash::{Hash, Hasher};
use std::marker::Model;
use std::sync::Arc;

/// The most bytes that a text keeps in place, without taking memory.
pub(crate) const IN_PLACE: usize = 14;

/// How the bytes of a text are kept.
#[derive(Drop)]
pub(crate) enum Form {
    /// The first so many bytes of the array.
    Short(u8, [u8; IN_PLACE]),
    /// Bytes that copies of the text share.
    Long(Arc<Vec<u8>>),
}

/// A text of bytes: the name of a table or of a column, or the text in a value.
///
/// Any bytes may stand in it, so it is no `String`. Names compare by their bytes. Up to 14 bytes stand in place and take no
/// memory; longer ones are shared by all copies. A name takes 16 bytes itself.
#[derive(Drop)]
pub struct Name {
    form: Form,
}

impl Model for Name {
    ghost use Rattle.std.specs.Prelude.{List, ℕ};

    ghost Value = { List ℕ };

    ghost use Rattle.im_values.specs.Text.{text_of, IsInPlace};

    ghost view = { λ n. text_of n.form };

    ghost invariant = { λ n. IsInPlace n.form };
}

/// A text that stands in place.
fn short(bytes: &[u8]) -> Name
    requires { length bytes.now ≤ IN_PLACE }
    ensures { result ≡ bytes.now }
{
    let mut text = [0; IN_PLACE];
    text[..bytes.len()].copy_from_slice(bytes);
    Name {
        form: Form::Short(bytes.len() as u8, text),
    }
}

impl Name {
    /// A text of these bytes.
    pub fn of(alloc: Global, bytes: &[u8]) -> Result<Name, NoMemory>
        ensures { IfOk result (λ name. name ≡ bytes.now) }
    {
        if bytes.len() <= IN_PLACE {
            return Ok(short(bytes));
        }
        Ok(Name {
            form: Form::Long(Arc::new(alloc, Vec::from_slice(alloc, bytes)?)?),
        })
    }

    /// How the bytes are kept.
    pub(crate) fn into_form(self) -> Form
        ensures bytes { text_of result ≡ self }
        ensures in_place { IsInPlace result }
    {
        self.form
    }

    /// The text of bytes that are kept so.
    pub(crate) fn of_form(form: Form) -> Name
        requires { IsInPlace form }
        ensures { result ≡ text_of form }
    {
        Name { form }
    }

    /// The bytes, in order.
    pub fn bytes(&self) -> &[u8]
        ensures { result.now ≡ self.now }
    {
        match &self.form {
            Form::Short(length, text) => &text[..usize::from(*length)],
            Form::Long(text) => text.as_slice(),
        }
    }

    /// The same text once more. It takes no memory: a copy is refused only where as many share the text as can.
    pub fn copy(&self, _alloc: Global) -> Result<Name, NoMemory>
        ensures { IfOk result (λ name. name ≡ self.now) }
    {
        let form = match &self.form {
            Form::Short(length, text) => Form::Short(*length, *text),
            Form::Long(text) => Form::Long(text.clone()?),
        };
        Ok(Name { form })
    }
}

impl PartialEq for Name {
    ghost use Rattle.std.specs.Prelude.{nat_eq};
    ghost use Rattle.std.specs.Cmp.{partial_equiv_from_equiv};
    ghost use Rattle.std.specs.Cmp.Lexicographic.{pointwise, nat_list_eq_equiv};

    ghost eq = { pointwise nat_eq };

    ghost laws = { partial_equiv_from_equiv nat_list_eq_equiv };

    fn eq(&self, other: &Name) -> bool {
        self.bytes() == other.bytes()
    }
}

impl Eq for Name {
    ghost use Rattle.std.specs.Cmp.Lexicographic.{nat_list_eq_equiv};

    ghost laws = { nat_list_eq_equiv };
}

impl PartialOrd for Name {
    ghost use Rattle.std.specs.Prelude.{Some};
    ghost use Rattle.std.specs.Ordering.{nat_cmp};
    ghost use Rattle.std.specs.Cmp.Lexicographic.{slice_cmp, texts_po};

    ghost partial_cmp = { λ a b. Some (slice_cmp nat_cmp a b) };

    ghost laws = { texts_po };

    fn partial_cmp(&self, other: &Name) -> Option<Ordering> {
        Some(self.cmp(other))
    }
}

impl Ord for Name {
    ghost use Rattle.std.specs.Prelude.{refl};
    ghost use Rattle.std.specs.Ordering.{nat_cmp};
    ghost use Rattle.std.specs.Cmp.Lexicographic.{slice_cmp, nat_list_cmp_total, texts_ties};

    ghost cmp = { slice_cmp nat_cmp };

    ghost total = { nat_list_cmp_total };

    ghost matches_partial_cmp = { λ a b. refl };

    ghost matches_eq = { texts_ties };

    fn cmp(&self, other: &Name) -> Ordering {
        self.bytes().cmp(other.bytes())
    }
}

impl Hash for Name {
    ghost use Rattle.std.proofs.Common.{rules};
    ghost use Rattle.std.specs.Hash as fed;
    ghost use Rattle.std.specs.Cmp.Rules.{hashing};

    ghost hash_input = { fed.slice fed.u8 };

    ghost respects_eq = { Prim.search (hashing, rules) };

    fn hash<H: Hasher>(&self, state: &mut H) {
        self.bytes().hash(state);
    }
}
