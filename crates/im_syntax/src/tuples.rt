ghost use Rattle.std.specs.Prelude.{◌≡◌};
ghost use Rattle.im_syntax.specs.Tuples as spec;
ghost use Rattle.im_syntax.specs.TuplesForms.{tuples_of};

use crate::even::EvenTuples;
use crate::literal::Lit;
use im_values::List;
use std::marker::Model;

/// How the tuples of an INSERT are kept.
#[derive(Drop)]
pub enum TuplesForm {
    /// As values: they are of one length, and no text in them is empty.
    Even(EvenTuples),
    /// As they are written.
    Listed(List<List<Lit>>),
}

/// The tuples of an INSERT. Contracts see the list of them, each a list of literals, however they are kept.
#[derive(Drop)]
pub struct Tuples {
    form: TuplesForm,
}

impl Model for Tuples {
    ghost use Rattle.std.specs.Prelude.{List as ListOf};
    ghost use Rattle.im_syntax.specs.declared.literal.Lit.{Lit as AnyLit};

    ghost Value = { ListOf (ListOf AnyLit) };

    ghost use Rattle.im_syntax.specs.TuplesForms.{tuples_of};

    ghost view = { λ t. tuples_of t.form };
}

impl Tuples {
    /// Tuples that are kept as they are written. It takes no memory.
    pub fn listed(tuples: Vec<List<Lit>>) -> Tuples
        ensures { result ≡ tuples.items }
    {
        Tuples {
            form: TuplesForm::Listed(List::of(tuples)),
        }
    }

    /// Tuples that are kept as values. It takes no memory.
    pub fn even(tuples: EvenTuples) -> Tuples
        ensures { result ≡ spec.written tuples }
    {
        Tuples {
            form: TuplesForm::Even(tuples),
        }
    }

    /// How they are kept.
    pub fn form(&self) -> &TuplesForm
        ensures { tuples_of result.now ≡ self.now }
    {
        &self.form
    }
}
