use crate::choices::Choices;
use crate::literal::Lit;
use im_values::{Cmp, List, Name, Value};
use std::marker::Model;

/// A condition as it is written: over names of columns, and literals.
pub type Cond = CondOf<Name, Lit, List<Lit>>;

pub type Conj = ConjOf<Name, Lit, List<Lit>>;

pub type Term = TermOf<Name, Lit, List<Lit>>;

pub type TermForm = FormOf<Name, Lit, List<Lit>>;

/// A condition whose names are resolved: over numbers of columns, and values.
pub type Filter = CondOf<u32, Value, Choices>;

pub type Tests = ConjOf<u32, Value, Choices>;

pub type Test = TermOf<u32, Value, Choices>;

pub type TestForm = FormOf<u32, Value, Choices>;

/// One term of a condition, over columns `C`, values `V` and lists of values `L`.
#[cycle(condition)]
#[derive(Drop)]
pub struct TermOf<C, V, L> {
    form: FormOf<C, V, L>,
}

/// What a term tests.
#[cycle(condition)]
#[derive(Drop)]
pub enum FormOf<C, V, L> {
    Not(Box<TermOf<C, V, L>>),
    /// A condition in parentheses.
    Nest(Box<CondOf<C, V, L>>),
    Compare {
        column: C,
        cmp: Cmp,
        value: V,
    },
    IsNull {
        column: C,
        negated: bool,
    },
    Between {
        column: C,
        negated: bool,
        low: V,
        high: V,
    },
    /// A column IN a list of values.
    Within {
        column: C,
        negated: bool,
        values: L,
    },
}

/// Terms with AND between them.
#[cycle(condition)]
#[derive(Drop)]
pub struct ConjOf<C, V, L> {
    terms: Vec<TermOf<C, V, L>>,
}

/// A condition: conjunctions with OR between them.
#[cycle(condition)]
#[derive(Drop)]
pub struct CondOf<C, V, L> {
    lists: Vec<ConjOf<C, V, L>>,
}

impl<C, V, L> Model for TermOf<C, V, L> {
    ghost use Rattle.im_syntax.specs.Condition.{TermTree, term_size};
    ghost use Rattle.im_syntax.specs.inner.ConditionCode.{coded_term};
    ghost use Rattle.im_values.specs.contracts.comparison.Cmp as cmp;

    ghost Value = { TermTree C V L };

    ghost coded = { coded_term C.code cmp.the_row.coded V.code L.code };

    ghost use Rattle.im_syntax.specs.Forms.{term_of_form};

    ghost view = { λ t. term_of_form t.form };

    ghost size = { term_size };

    ghost use Rattle.im_syntax.specs.inner.FormFalls.{form_falls};

    ghost size_decreases = { λ t h. form_falls t.form };
}

impl<C, V, L> Model for ConjOf<C, V, L> {
    ghost use Rattle.im_syntax.specs.Condition.{ConjTree, conj_of, conj_size};
    ghost use Rattle.im_syntax.specs.inner.ConditionCode.{coded_conj};
    ghost use Rattle.im_values.specs.contracts.comparison.Cmp as cmp;

    ghost Value = { ConjTree C V L };

    ghost coded = { coded_conj C.code cmp.the_row.coded V.code L.code };

    ghost view = { λ c. conj_of c.terms.items };

    ghost size = { conj_size };

    ghost use Rattle.im_syntax.specs.inner.ConditionFalls.{terms_fall};

    ghost size_decreases = { λ c h. terms_fall c.terms.items };
}

impl<C, V, L> Model for CondOf<C, V, L> {
    ghost use Rattle.im_syntax.specs.Condition.{CondTree, cond_of, cond_size};
    ghost use Rattle.im_syntax.specs.inner.ConditionCode.{coded_cond};
    ghost use Rattle.im_values.specs.contracts.comparison.Cmp as cmp;

    ghost Value = { CondTree C V L };

    ghost coded = { coded_cond C.code cmp.the_row.coded V.code L.code };

    ghost view = { λ c. cond_of c.lists.items };

    ghost size = { cond_size };

    ghost use Rattle.im_syntax.specs.inner.ConditionFalls.{conjs_fall};

    ghost size_decreases = { λ c h. conjs_fall c.lists.items };
}

impl<C, V, L> TermOf<C, V, L> {
    ghost use Rattle.std.specs.Prelude.{◌≡◌};
    ghost use Rattle.im_syntax.specs.Forms.{term_of_form};

    /// The term of this form. It takes no memory.
    pub fn of(form: FormOf<C, V, L>) -> TermOf<C, V, L>
        ensures { result ≡ term_of_form form }
    {
        TermOf { form }
    }

    /// What the term tests.
    pub fn form(&self) -> &FormOf<C, V, L>
        ensures { term_of_form result.now ≡ self.now }
    {
        &self.form
    }
}

impl<C, V, L> ConjOf<C, V, L> {
    ghost use Rattle.std.specs.Prelude.{◌≡◌};
    ghost use Rattle.im_syntax.specs.Condition.{conj_of};

    /// The conjunction of these terms. It takes no memory.
    pub fn of(terms: Vec<TermOf<C, V, L>>) -> ConjOf<C, V, L>
        ensures { result ≡ conj_of terms.items }
    {
        ConjOf { terms }
    }

    /// The terms, in order.
    pub fn terms(&self) -> &[TermOf<C, V, L>]
        ensures { conj_of result.now ≡ self.now }
    {
        self.terms.as_slice()
    }
}

impl<C, V, L> CondOf<C, V, L> {
    ghost use Rattle.std.specs.Prelude.{◌≡◌};
    ghost use Rattle.im_syntax.specs.Condition.{cond_of};

    /// The condition of these conjunctions. It takes no memory.
    pub fn of(lists: Vec<ConjOf<C, V, L>>) -> CondOf<C, V, L>
        ensures { result ≡ cond_of lists.items }
    {
        CondOf { lists }
    }

    /// The conjunctions, in order.
    pub fn lists(&self) -> &[ConjOf<C, V, L>]
        ensures { cond_of result.now ≡ self.now }
    {
        self.lists.as_slice()
    }
}
