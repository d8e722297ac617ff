ghost use Rattle.std.specs.Prelude.{◌≡◌, List, true, IfOk, map};
ghost use Rattle.im_group.specs.Counts.{AreCountsOf, counted_of, counts_in};
ghost use Rattle.im_group.specs.MadeGroups.{group_of, groups_in};
ghost use Rattle.im_group.specs.Partials.{Numbered, partial};
ghost use Rattle.im_group.specs.inner.Narrowing as spec;

use crate::asked::Asked;
use crate::asking::Asking;
use crate::made_groups::Group;
use crate::partial::Partial;
use crate::sums::Sums;
use im_syntax::Bound;
use im_values::{NoMemory, Value, copied};
use std::alloc::Global;

/// The counts of a group: its values in the columns of GROUP BY, how many rows it has, and a summary for each column of the
/// table, with both of its ends.
#[derive(Drop)]
pub struct Counted {
    pub key: Vec<Value>,
    pub rows: u64,
    pub sums: Vec<Sums>,
}

/// Of the summaries of all columns that of one, as far as it is asked for.
fn pick(alloc: Global, sums: &[Sums], asked: Asked) -> Result<Sums, NoMemory>
    ensures { IfOk result (λ picked. picked ≡ spec.picked sums.now asked) }
{
    match sums.get(asked.column as usize) {
        Some(whole) => whole.narrowed(alloc, asked),
        None => Ok(Sums::new(asked)),
    }
}

/// A group with the summaries of the columns that are asked for.
fn narrowed(alloc: Global, asked: &[Asked], counted: &Counted) -> Result<Group, NoMemory>
    ensures { IfOk result (λ group. group_of group ≡ spec.narrowed_group asked.now (counted_of counted.now)) }
{
    let mut sums = Vec::with_capacity(alloc, asked.len())?;
    for one in asked {
        sums.push(pick(alloc, counted.sums.as_slice(), *one)?)?;
    }
    Ok(Group {
        key: copied(alloc, counted.key.as_slice())?,
        rows: counted.rows,
        sums,
    })
}

/// Groups with the summaries of the columns that are asked for.
fn narrowed_all(alloc: Global, asked: &[Asked], counts: &[Counted]) -> Result<Vec<Group>, NoMemory>
    ensures { IfOk result (λ groups. groups_in groups.items ≡ map (spec.narrowed_group asked.now) (counts_in counts.now)) }
{
    let mut groups = Vec::with_capacity(alloc, counts.len())?;
    for counted in counts {
        groups.push(narrowed(alloc, asked, counted)?)?;
    }
    Ok(groups)
}

impl Partial {
    /// What rows give to a query that is grouped, made of the counts of their groups.
    ///
    /// It copies of each group its key and the ends that the query asks for, and costs one look-up a group. Where the counts
    /// of the asked columns alone are at hand, [`Partial::of_groups`] costs less.
    pub fn of_counts(alloc: Global, bound: &Bound, counts: &[Counted]) -> Result<Partial, NoMemory>
        requires { bound.now.grouped ≡ true }
        ensures { IfOk result (λ part. (rows : List Numbered) → AreCountsOf bound.now rows (counts_in counts.now) → part ≡ partial bound.now rows) }
    {
        let asking = Asking::of(alloc, bound)?;
        let groups = narrowed_all(alloc, asking.asked(), counts)?;
        Partial::of_groups(alloc, &asking, groups)
    }
}
