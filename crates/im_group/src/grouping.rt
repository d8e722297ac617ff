ghost use Rattle.std.specs.Prelude.{◌≡◌, ◌+◌, ◌<◌, ◌≤◌, ◌++◌, ◌∷◌, [], None, true, IfOk, OnOk, OnErr, map, length};
ghost use Rattle.std.specs.List.{AllByRecursion};
ghost use Rattle.std.specs.Option.{ForSome};
ghost use Rattle.indexmap.specs.IndexMap.{spare};
ghost use Rattle.im_syntax.specs.BoundFits.{BoundFits, FilterFits};
ghost use Rattle.im_group.specs.inner.Holding.{CanJoinGroups, CanTake, as_groups, asked_by, own, with_first, with_group, with_taken};
ghost use Rattle.im_group.specs.MadeGroups.{with_sums};
ghost use Rattle.im_group.specs.Partials as spec;
ghost use Rattle.im_group.specs.inner.Steps.{stands_at, tallies_at, first_groups, one_group};
ghost use Rattle.im_group.specs.Tallies.{CanJoin, tallied};

use crate::asked::Asked;
use crate::hints::{Hints, SLOTS, slot_of, slot_of_one};
use crate::near::{near, near_one};
use crate::row_value::value_in;
use crate::same::Sought;
use crate::sums::Sums;
use crate::tallies::Tallies;
use im_eval::holds;
use im_syntax::{Bound, Filter};
use im_values::{NoMemory, RowValues, Truth, Value, copied};
use indexmap::IndexMap;
use std::alloc::Global;

/// The groups of a query, by the values in the columns of GROUP BY.
pub type Groups = IndexMap<Vec<Value>, Tallies>;

/// What is kept from row to row: where groups stood, and room for the key of a row.
#[derive(Drop)]
pub struct Room {
    hints: Hints,
    key: Vec<Value>,
}

impl Room {
    /// Room before the first row. It takes no memory.
    pub fn new(alloc: Global) -> Room {
        Room {
            hints: Hints::new(),
            key: Vec::new(alloc),
        }
    }
}

/// Whether a query keeps a row: its condition is Yes, or it has none. It takes no memory.
pub fn keeps(filter: &Option<Filter>, row: &RowValues<'_>) -> bool
    requires { ForSome filter.now (FilterFits row.now) }
    ensures { result ≡ spec.keeps filter.now row.now }
{
    match filter {
        Some(filter) => holds(filter, row) == Truth::Yes,
        None => true,
    }
}

/// The key of a row: copies of its values in the columns of GROUP BY.
fn write_key(
    alloc: Global,
    columns: &[u32],
    row: &RowValues<'_>,
    key: &mut Vec<Value>,
) -> Result<(), NoMemory>
    requires { AllByRecursion (λ column. column < length row.now) columns.now }
    ensures { OnOk result (key.new.items ≡ spec.key_of columns.now row.now) }
{
    key.clear();
    for column in columns {
        key.push(value_in(row, *column).copy(alloc)?)?;
    }
    Ok(())
}

/// Puts a group with a new key behind the others.
fn put_new(groups: &mut Groups, key: Vec<Value>, tallies: Tallies) -> Result<(), NoMemory>
    requires { tallies_at (own groups.old.entries) key.items ≡ None }
    ensures { OnOk result (own groups.new.entries ≡ own groups.old.entries ++ (key.items, tallies) ∷ []) }
{
    groups.insert(key, tallies)?;
    Ok(())
}

/// A group of a key that is new takes its first row.
fn put_group(
    alloc: Global,
    asked: &[Asked],
    key: &[Value],
    row: &RowValues<'_>,
    groups: &mut Groups,
) -> Result<(), NoMemory>
    requires fits { AllByRecursion (λ a. a.column < length row.now) asked.now }
    ensures { OnOk result (own groups.new.entries ≡ with_first asked.now (own groups.old.entries) key.now row.now) }
{
    let mut tallies = Tallies::new(alloc, asked)?;
    tallies.take(alloc, asked, row)?;
    groups.insert(copied(alloc, key)?, tallies)?;
    Ok(())
}

/// The group at a place, which has the key of a row, takes the row. No key is looked at.
#[inline(always)]
fn take_there(
    alloc: Global,
    _columns: &[u32],
    asked: &[Asked],
    place: usize,
    row: &RowValues<'_>,
    groups: &mut Groups,
) -> Result<(), NoMemory>
    requires fits { AllByRecursion (λ a. a.column < length row.now) asked.now }
    requires there { stands_at (own groups.old.entries) (spec.key_of _columns.now row.now) place ≡ true }
    requires few { CanTake asked.now (own groups.old.entries) (spec.key_of _columns.now row.now) }
    ensures { OnOk result (own groups.new.entries ≡ with_taken asked.now (own groups.old.entries) (spec.key_of _columns.now row.now) row.now) }
{
    match groups.get_index_mut(place) {
        Some(tallies) => tallies.take(alloc, asked, row),
        None => Ok(()),
    }
}

/// The group of the key of a row takes the row: the key is looked up once, and copied where it is new.
fn take_looked_up(
    alloc: Global,
    columns: &[u32],
    asked: &[Asked],
    key: &[Value],
    row: &RowValues<'_>,
    found: &mut usize,
    groups: &mut Groups,
) -> Result<(), NoMemory>
    requires fits { AllByRecursion (λ a. a.column < length row.now) asked.now }
    requires key { key.now ≡ spec.key_of columns.now row.now }
    requires few { CanTake asked.now (own groups.old.entries) (spec.key_of columns.now row.now) }
    ensures { OnOk result (own groups.new.entries ≡ with_taken asked.now (own groups.old.entries) (spec.key_of columns.now row.now) row.now) }
{
    match groups.get_index_of(key) {
        Some(place) => {
            *found = place;
            take_there(alloc, columns, asked, place, row, groups)
        }
        None => {
            *found = groups.len();
            put_group(alloc, asked, key, row, groups)
        }
    }
}

/// The group of the key of a row takes the row: the key is looked up, and the slot then points to its group.
#[inline(never)]
fn take_far(
    alloc: Global,
    columns: &[u32],
    asked: &[Asked],
    row: &RowValues<'_>,
    slot: usize,
    room: &mut Room,
    groups: &mut Groups,
) -> Result<(), NoMemory>
    requires slot { slot < SLOTS }
    requires keyed { AllByRecursion (λ column. column < length row.now) columns.now }
    requires fits { AllByRecursion (λ a. a.column < length row.now) asked.now }
    requires few { CanTake asked.now (own groups.old.entries) (spec.key_of columns.now row.now) }
    ensures { OnOk result (own groups.new.entries ≡ with_taken asked.now (own groups.old.entries) (spec.key_of columns.now row.now) row.now) }
{
    write_key(alloc, columns, row, &mut room.key)?;
    let key = room.key.as_slice();
    let mut found = 0;
    take_looked_up(alloc, columns, asked, key, row, &mut found, groups)?;
    room.hints.point(slot, found);
    Ok(())
}

/// The group of the key of a row takes the row. The key is looked up where the group is not near.
#[inline(always)]
fn take_by_many(
    alloc: Global,
    columns: &[u32],
    asked: &[Asked],
    row: &RowValues<'_>,
    room: &mut Room,
    groups: &mut Groups,
) -> Result<(), NoMemory>
    requires keyed { AllByRecursion (λ column. column < length row.now) columns.now }
    requires fits { AllByRecursion (λ a. a.column < length row.now) asked.now }
    requires few { CanTake asked.now (own groups.old.entries) (spec.key_of columns.now row.now) }
    ensures { OnOk result (own groups.new.entries ≡ with_taken asked.now (own groups.old.entries) (spec.key_of columns.now row.now) row.now) }
{
    let slot = slot_of(columns, row);
    match near(columns, row, groups, room.hints.place(slot)) {
        Some(place) => take_there(alloc, columns, asked, place, row, groups),
        None => take_far(alloc, columns, asked, row, slot, room, groups),
    }
}

/// The same where the key is of one column: its value is told once.
#[inline(always)]
fn take_by_one(
    alloc: Global,
    columns: &[u32],
    asked: &[Asked],
    row: &RowValues<'_>,
    room: &mut Room,
    groups: &mut Groups,
) -> Result<(), NoMemory>
    requires one { length columns.now ≡ 1 }
    requires keyed { AllByRecursion (λ column. column < length row.now) columns.now }
    requires fits { AllByRecursion (λ a. a.column < length row.now) asked.now }
    requires few { CanTake asked.now (own groups.old.entries) (spec.key_of columns.now row.now) }
    ensures { OnOk result (own groups.new.entries ≡ with_taken asked.now (own groups.old.entries) (spec.key_of columns.now row.now) row.now) }
{
    let sought = Sought::of(value_in(row, columns[0]));
    let slot = slot_of_one(sought);
    match near_one(columns, row, sought, groups, room.hints.place(slot)) {
        Some(place) => take_there(alloc, columns, asked, place, row, groups),
        None => take_far(alloc, columns, asked, row, slot, room, groups),
    }
}

/// The group of the key of a row takes the row.
#[inline(always)]
pub fn take_grouped(
    alloc: Global,
    columns: &[u32],
    asked: &[Asked],
    row: &RowValues<'_>,
    room: &mut Room,
    groups: &mut Groups,
) -> Result<(), NoMemory>
    requires keyed { AllByRecursion (λ column. column < length row.now) columns.now }
    requires fits { AllByRecursion (λ a. a.column < length row.now) asked.now }
    requires few { CanTake asked.now (own groups.old.entries) (spec.key_of columns.now row.now) }
    ensures { OnOk result (own groups.new.entries ≡ with_taken asked.now (own groups.old.entries) (spec.key_of columns.now row.now) row.now) }
{
    if columns.len() == 1 {
        take_by_one(alloc, columns, asked, row, room, groups)
    } else {
        take_by_many(alloc, columns, asked, row, room, groups)
    }
}

/// The groups take a row that the query keeps.
pub fn take_row(
    alloc: Global,
    bound: &Bound,
    asked: &[Asked],
    row: &RowValues<'_>,
    room: &mut Room,
    groups: &mut Groups,
) -> Result<(), NoMemory>
    requires asked { asked.now ≡ asked_by bound.now }
    requires fits { BoundFits row.now bound.now }
    requires few { CanTake asked.now (own groups.old.entries) (spec.key_of bound.now.groups row.now) }
    ensures { OnOk result (own groups.new.entries ≡ with_taken asked.now (own groups.old.entries) (spec.key_of bound.now.groups row.now) row.now) }
{
    take_grouped(alloc, bound.groups.items(), asked, row, room, groups)
}

/// The one group of a query without GROUP BY, over no row.
fn whole_group(alloc: Global, asked: &[Asked]) -> Result<Groups, NoMemory>
    ensures { IfOk result (λ groups. own groups.entries ≡ one_group (tallied asked.now [])) }
{
    let tallies = Tallies::new(alloc, asked)?;
    let mut groups = IndexMap::new(alloc);
    put_new(&mut groups, Vec::new(alloc), tallies)?;
    Ok(groups)
}

/// The groups of no row: without GROUP BY there is one.
pub fn no_groups(alloc: Global, bound: &Bound, asked: &[Asked]) -> Result<Groups, NoMemory>
    ensures { IfOk result (λ groups. own groups.entries ≡ first_groups bound.now.groups asked.now) }
{
    if bound.groups.items().is_empty() {
        whole_group(alloc, asked)
    } else {
        Ok(IndexMap::new(alloc))
    }
}

/// The same groups once more.
pub fn copy_groups(alloc: Global, groups: &Groups) -> Result<Groups, NoMemory>
    ensures { IfOk result (λ copies. as_groups copies.entries ≡ as_groups groups.now.entries) }
{
    let mut copies = IndexMap::new(alloc);
    copies.reserve(groups.len())?;
    for (key, tallies) in groups.iter() {
        put_new(
            &mut copies,
            copied(alloc, key.as_slice())?,
            tallies.copy(alloc)?,
        )?;
    }
    Ok(copies)
}

/// A group of another part joins that of the same key, or is put behind the groups. There is room for it.
fn join_group(groups: &mut Groups, key: Vec<Value>, tallies: Tallies)
    requires room { 0 < spare groups.old }
    requires few { ForSome (tallies_at (own groups.old.entries) key.items) (λ old. CanJoin old tallies) }
    ensures groups { own groups.new.entries ≡ with_group (own groups.old.entries) key.items tallies }
    ensures room { spare groups.old ≤ spare groups.new + 1 }
{
    match groups.get_mut(&key) {
        Some(old) => old.join(tallies),
        None => {
            groups.insert(key, tallies).unwrap();
        }
    }
}

/// The group at the first place, which is that of the empty key, takes so many rows with these summaries.
pub fn join_first(groups: &mut Groups, rows: u64, sums: Vec<Sums>)
    requires there { stands_at (own groups.old.entries) [] 0 ≡ true }
    requires few { ForSome (tallies_at (own groups.old.entries) []) (λ old. CanJoin old (with_sums rows sums.items)) }
    ensures { own groups.new.entries ≡ with_group (own groups.old.entries) [] (with_sums rows sums.items) }
{
    match groups.get_index_mut(0) {
        Some(tallies) => tallies.join(Tallies::of(rows, sums)),
        None => {}
    }
}

/// The groups of another part join these. Where memory is out, these are as before.
pub fn join_groups(groups: &mut Groups, others: Groups) -> Result<(), NoMemory>
    requires few { CanJoinGroups (own groups.old.entries) (own others.entries) }
    ensures ok { OnOk result (as_groups groups.new.entries ≡ spec.joined_groups (as_groups groups.old.entries) (as_groups others.entries)) }
    ensures err { OnErr result (as_groups groups.new.entries ≡ as_groups groups.old.entries) }
{
    groups.reserve(others.len())?;
    for (key, tallies) in others {
        join_group(groups, key, tallies);
    }
    Ok(())
}
