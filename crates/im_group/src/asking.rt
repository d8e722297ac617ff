ghost use Rattle.std.specs.Prelude.{◌≡◌, IfOk};
ghost use Rattle.im_group.specs.Tallies as spec;

use crate::asked::{Asked, asked_in};
use im_syntax::{Bound, Item};
use im_values::NoMemory;
use std::alloc::Global;
use std::marker::Model;

/// What a query wants of each group: its items, then those of its keys.
pub fn wanted(alloc: Global, bound: &Bound) -> Result<Vec<Item>, NoMemory>
    ensures { IfOk result (λ items. items.items ≡ spec.wanted bound.now) }
{
    let mut items = Vec::from_slice(alloc, bound.items.items())?;
    for key in bound.keys.items() {
        items.push(key.item)?;
    }
    Ok(items)
}

/// A query, and what it asks of the columns of each group, which is decided once for all of its rows.
#[derive(Drop)]
pub struct Asking<'a> {
    bound: &'a Bound,
    asked: Vec<Asked>,
}

impl<'a> Model for Asking<'a> {
    ghost use Rattle.std.specs.Prelude.{◌≡◌};
    ghost use Rattle.im_syntax.specs.contracts.bound.Bound as a_bound;
    ghost use Rattle.im_syntax.specs.declared.bound.Bound.{Bound as AnyBound};
    ghost use Rattle.im_group.specs.Tallies.{wanted as wanted_by, asked_in as asked_by};

    ghost Value = { AnyBound };

    ghost coded = { a_bound.the_row.coded };

    ghost view = { λ a. a.bound.now };

    ghost invariant = { λ a. a.asked.items ≡ asked_by (wanted_by a.bound.now) };
}

impl<'a> Asking<'a> {
    /// What this query asks.
    pub fn of(alloc: Global, bound: &'a Bound) -> Result<Asking<'a>, NoMemory>
        ensures { IfOk result (λ asking. asking ≡ bound.now) }
    {
        let wanted = wanted(alloc, bound)?;
        let asked = asked_in(alloc, wanted.as_slice())?;
        Ok(Asking { bound, asked })
    }

    /// The query.
    pub fn bound(&self) -> &Bound
        ensures { result.now ≡ self.now }
    {
        self.bound
    }

    /// What it asks of the columns of each group.
    pub fn asked(&self) -> &[Asked]
        ensures { result.now ≡ spec.asked_in (spec.wanted self.now) }
    {
        self.asked.as_slice()
    }
}
