ghost use Rattle.std.specs.Prelude.{◌≡◌, List, true, IfOk, OnOk};
ghost use Rattle.im_group.specs.MadeGroups.{AreGroupsOf, group_of, groups_in};
ghost use Rattle.im_group.specs.Partials.{Numbered, partial};
ghost use Rattle.im_group.specs.inner.Holding.{own};
ghost use Rattle.im_group.specs.inner.Steps.{all_placed, placed};

use crate::asking::Asking;
use crate::grouping::Groups;
use crate::partial::Partial;
use crate::sums::Sums;
use crate::tallies::Tallies;
use im_values::{NoMemory, Value};
use indexmap::IndexMap;
use std::alloc::Global;

/// A group that is made without its rows: its values in the columns of GROUP BY, how many rows it has, and a summary for each
/// column of [`Asking::asked`], in that order.
#[derive(Drop)]
pub struct Group {
    pub key: Vec<Value>,
    pub rows: u64,
    pub sums: Vec<Sums>,
}

/// Puts a group at its key.
fn put_made(groups: &mut Groups, group: Group) -> Result<(), NoMemory>
    ensures { OnOk result (own groups.new.entries ≡ placed (own groups.old.entries) (group_of group).0 (group_of group).1) }
{
    let Group { key, rows, sums } = group;
    groups.insert(key, Tallies::of(rows, sums))?;
    Ok(())
}

/// Groups, each at its key.
fn put_all(alloc: Global, made: Vec<Group>) -> Result<Groups, NoMemory>
    ensures { IfOk result (λ groups. own groups.entries ≡ all_placed (groups_in made.items)) }
{
    let mut groups = IndexMap::new(alloc);
    groups.reserve(made.len())?;
    for group in made {
        put_made(&mut groups, group)?;
    }
    Ok(groups)
}

impl Partial {
    /// What rows give to a query that is grouped, made of their groups without the rows.
    ///
    /// Without GROUP BY there is one group, whose key is empty, also over no row. The groups may come in any order. It costs
    /// one look-up a group, and copies none.
    pub fn of_groups(
        alloc: Global,
        _asking: &Asking<'_>,
        groups: Vec<Group>,
    ) -> Result<Partial, NoMemory>
        requires { _asking.now.grouped ≡ true }
        ensures { IfOk result (λ part. (rows : List Numbered) → AreGroupsOf _asking.now rows (groups_in groups.items) → part ≡ partial _asking.now rows) }
    {
        Ok(Partial::of_held(alloc, put_all(alloc, groups)?))
    }
}
