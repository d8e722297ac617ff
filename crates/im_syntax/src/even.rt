ghost use Rattle.std.specs.Prelude.{◌≡◌, ◌<◌, ◌*◌, IfOk, length, map, slice_get, Some, true};
ghost use Rattle.std.specs.List.{list_all};
ghost use Rattle.im_values.specs.Stretches.{cut};
ghost use Rattle.im_syntax.specs.Tuples as spec;

use crate::literal::Lit;
use im_values::{Content, List, NoMemory, Rows, Value};
use std::alloc::Global;
use std::marker::Model;

/// Tuples of one length that are kept as rows. Contracts see the list of them, each a list of values.
///
/// None of the values is an empty text: one that is written means NULL, and is kept as it is written.
#[derive(Drop)]
pub struct EvenTuples {
    rows: Rows,
}

impl Model for EvenTuples {
    ghost use Rattle.std.specs.Prelude.{List};
    ghost use Rattle.im_values.specs.declared.content.Content.{Content as AnyValue};

    ghost Value = { List (List AnyValue) };

    ghost use Rattle.im_syntax.specs.Tuples.{AreProper};

    ghost view = { λ t. t.rows };

    ghost invariant = { λ t. AreProper t.rows };
}

/// The literal by which a value is written.
fn lit_of(alloc: Global, value: &Value) -> Result<Lit, NoMemory>
    ensures { IfOk result (λ lit. lit ≡ spec.lit_of value.now) }
{
    let copy = value.copy(alloc)?;
    match copy.into_content() {
        Content::Null => Ok(Lit::Null),
        Content::Int(number) => Ok(Lit::Int(number)),
        Content::Text(text) => Ok(Lit::Text(text)),
    }
}

/// A tuple as it is written.
fn tuple_of(alloc: Global, values: &[Value]) -> Result<List<Lit>, NoMemory>
    ensures { IfOk result (λ tuple. tuple ≡ map spec.lit_of values.now) }
{
    let mut lits = Vec::with_capacity(alloc, values.len())?;
    for value in values {
        lits.push(lit_of(alloc, value)?)?;
    }
    Ok(List::of(lits))
}

/// Rows as tuples that are written.
fn listed(alloc: Global, rows: &Rows) -> Result<Vec<List<Lit>>, NoMemory>
    ensures { IfOk result (λ tuples. tuples.items ≡ spec.written rows.now) }
{
    let mut tuples = Vec::with_capacity(alloc, rows.len())?;
    for at in 0..rows.len() {
        tuples.push(tuple_of(alloc, rows.values(at))?)?;
    }
    Ok(tuples)
}

impl EvenTuples {
    /// So many tuples of so many values each, which lie one behind another.
    #[tactic(auto, using(crate::proofs::EvenLemmas::cut_proper))]
    pub fn of(
        alloc: Global,
        values: Vec<Value>,
        width: usize,
        count: usize,
    ) -> Result<EvenTuples, NoMemory>
        requires long { length values.items ≡ count * width }
        requires proper { list_all spec.is_proper values.items ≡ true }
        ensures { IfOk result (λ tuples. tuples ≡ cut count width values.items) }
    {
        let rows = Rows::of(alloc, values, width, count)?;
        Ok(EvenTuples { rows })
    }

    /// How many tuples there are.
    pub fn len(&self) -> usize
        ensures { result ≡ length self.now }
    {
        self.rows.len()
    }

    /// The values of a tuple, from 0.
    pub fn values(&self, at: usize) -> &[Value]
        requires { at < length self.now }
        ensures { slice_get self.now at ≡ Some result.now }
    {
        self.rows.values(at)
    }

    /// The tuples as rows. They share the memory of their values.
    pub fn rows(&self) -> Result<Rows, NoMemory>
        ensures rows { IfOk result (λ rows. rows ≡ self.now) }
        ensures proper { spec.AreProper self.now }
    {
        self.rows.share()
    }

    /// The tuples as they are written.
    pub fn to_list(&self, alloc: Global) -> Result<Vec<List<Lit>>, NoMemory>
        ensures { IfOk result (λ tuples. tuples.items ≡ spec.written self.now) }
    {
        listed(alloc, &self.rows)
    }
}
