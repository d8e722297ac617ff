ghost use Rattle.std.specs.Prelude.{◌≡◌, ℕ, ◌++◌, [], true, IfOk, OnOk, OnErr, length, map};
ghost use Rattle.std.specs.List.{AllByRecursion};
ghost use Rattle.im_syntax.specs.BoundFits.{BoundFits};
ghost use Rattle.im_syntax.specs.BoundQuery.{IsOfGroup, IsQuery};
ghost use Rattle.im_group.specs.inner.Holding.{AreKeyed, as_groups, entry_order, held_records};
ghost use Rattle.im_group.specs.MadeGroups.{GoesOnTogether, HasRoomTogether};
ghost use Rattle.im_group.specs.Partials as spec;
ghost use Rattle.im_group.specs.Tallies as group;
ghost use Rattle.im_group.specs.Answers.{finished, group_records, in_order, part_records};

use crate::asked::{Asked, asked_in};
use crate::asking::{Asking, wanted};
use crate::cell::Cell;
use crate::chosen::take_run;
use crate::grouping::{
    Groups, Room, copy_groups, join_first, join_groups, keeps, no_groups, take_row,
};
use crate::places::Places;
use crate::record::Record;
use crate::records::{group_record, projected, put_in_order, row_records};
use crate::sums::Sums;
use im_lanes::Mask;
use im_syntax::{Bound, Item};
use im_values::{NoMemory, Row, RowValues, Value, WideRun, clone_row};
use indexmap::IndexMap;
use std::alloc::Global;
use std::cmp::Ordering;
use std::marker::Model;

/// What some rows give to a query: the kept rows where it is not grouped, and the groups where it is.
#[derive(Drop)]
pub struct Partial {
    rows: Vec<(u64, Row)>,
    groups: Groups,
    room: Room,
}

impl Model for Partial {
    ghost use Rattle.im_group.specs.Partials.{Parts, held};
    ghost use Rattle.im_group.specs.inner.PartialCode.{coded_parts};

    ghost Value = { Parts };

    ghost coded = { coded_parts };

    ghost view = { λ p. record { rows = p.rows.items; groups = held (λ k. k.items) p.groups.entries } };
}

/// Lends rows, each with its number.
fn lend<'a>(alloc: Global, rows: &'a [(u64, Row)]) -> Result<Vec<(u64, &'a Row)>, NoMemory>
    ensures { IfOk result (λ lent. spec.lent_rows lent.items ≡ rows.now) }
{
    let mut lent = Vec::with_capacity(alloc, rows.len())?;
    for (number, row) in rows {
        lent.push((*number, row))?;
    }
    Ok(lent)
}

/// What some rows give to a query, taken one by one.
fn part_of(alloc: Global, bound: &Bound, rows: &[(u64, &Row)]) -> Result<Partial, NoMemory>
    requires { AllByRecursion (λ r. BoundFits r.1.now bound.now) rows.now }
    ensures { IfOk result (λ partial. partial ≡ spec.partial bound.now (spec.lent_rows rows.now)) }
{
    let asking = Asking::of(alloc, bound)?;
    let mut partial = Partial::new(alloc, &asking)?;
    for (number, row) in rows {
        partial.take_shared(alloc, &asking, *number, *row)?;
    }
    Ok(partial)
}

fn copy_rows(alloc: Global, rows: &[(u64, Row)]) -> Result<Vec<(u64, Row)>, NoMemory>
    ensures { IfOk result (λ copies. copies.items ≡ rows.now) }
{
    let mut copies = Vec::with_capacity(alloc, rows.len())?;
    for (number, row) in rows {
        copies.push((*number, clone_row(alloc, row)?))?;
    }
    Ok(copies)
}

/// How the keys of two groups stand to each other: from left to right, NULL last.
fn order_keys(left: &[Value], right: &[Value]) -> Ordering
    ensures { result ≡ spec.key_order left.now right.now }
{
    left.cmp(right)
}

/// Puts groups in the order of their keys, NULL last.
fn sort_groups(groups: &mut Groups) -> Result<(), NoMemory>
    ensures { OnOk result (groups.new.entries ≡ in_order entry_order groups.old.entries) }
{
    groups.sort_by(|left, _, right, _| order_keys(left.as_slice(), right.as_slice()))?;
    Ok(())
}

/// Puts a record for each group behind the others, in the order of the groups.
fn put_records(
    alloc: Global,
    bound: &Bound,
    asked: &[Asked],
    wanted: &[Item],
    groups: Groups,
    records: &mut Vec<Record>,
) -> Result<(), NoMemory>
    requires listed { AllByRecursion (IsOfGroup bound.now.groups) wanted.now }
    requires keyed { AreKeyed (length bound.now.groups) groups.entries }
    ensures { OnOk result (records.new.items ≡ records.old.items ++ held_records bound.now.groups asked.now wanted.now groups.entries) }
{
    let columns = bound.groups.items();
    let places = Places::of(alloc, columns)?;
    for (key, tallies) in groups {
        records.push(group_record(
            alloc,
            columns,
            &places,
            asked,
            wanted,
            key.as_slice(),
            &tallies,
        )?)?;
    }
    Ok(())
}

/// A record for each group, in the order of the keys, NULL last.
fn group_records(
    alloc: Global,
    bound: &Bound,
    wanted: &[Item],
    mut groups: Groups,
) -> Result<Vec<Record>, NoMemory>
    requires listed { AllByRecursion (IsOfGroup bound.now.groups) wanted.now }
    requires keyed { AreKeyed (length bound.now.groups) groups.entries }
    ensures { IfOk result (λ records. records.items ≡ group_records bound.now.groups wanted.now (as_groups groups.entries)) }
{
    let mut records = Vec::with_capacity(alloc, groups.len())?;
    let asked = asked_in(alloc, wanted)?;
    sort_groups(&mut groups)?;
    put_records(alloc, bound, asked.as_slice(), wanted, groups, &mut records)?;
    Ok(records)
}

/// The records of an answer, not in the order of ORDER BY yet.
fn records_of(
    alloc: Global,
    bound: &Bound,
    wanted: &[Item],
    rows: &[(u64, Row)],
    groups: Groups,
) -> Result<Vec<Record>, NoMemory>
    requires wanted { wanted.now ≡ group.wanted bound.now }
    requires query { IsQuery bound.now }
    requires keyed { AreKeyed (length bound.now.groups) groups.entries }
    ensures { IfOk result (λ made. made.items ≡ part_records bound.now (record { rows = rows.now; groups = as_groups groups.entries })) }
{
    if bound.grouped {
        group_records(alloc, bound, wanted, groups)
    } else {
        row_records(alloc, wanted, rows)
    }
}

impl Partial {
    /// What no row gives to a query.
    pub fn new(alloc: Global, asking: &Asking<'_>) -> Result<Partial, NoMemory>
        ensures { IfOk result (λ partial. partial ≡ spec.partial asking.now []) }
    {
        let bound = asking.bound();
        if bound.grouped {
            let groups = no_groups(alloc, bound, asking.asked())?;
            Ok(Partial::of_held(alloc, groups))
        } else {
            Ok(Partial::of_held(alloc, IndexMap::new(alloc)))
        }
    }

    /// The part of a query that is grouped, or of no row of another, whose groups are held.
    pub(crate) fn of_held(alloc: Global, groups: Groups) -> Partial
        ensures { result ≡ record { rows = []; groups = as_groups groups.entries } }
    {
        Partial {
            rows: Vec::new(alloc),
            groups,
            room: Room::new(alloc),
        }
    }

    /// Takes one row more, of a number above those of the rows so far. The row stays where it is.
    ///
    /// The condition is asked once. A query that is grouped costs one look-up of the row's key, and copies a key once for each
    /// group; one that is not copies the rows that it keeps. Where memory is out, what the part is then is not said.
    pub fn take(
        &mut self,
        alloc: Global,
        asking: &Asking<'_>,
        number: u64,
        row: &RowValues<'_>,
    ) -> Result<(), NoMemory>
        requires fits { BoundFits row.now asking.now }
        requires few { spec.IsPartOfFew asking.now self.old }
        ensures { OnOk result (spec.GoesOn asking.now self.old (number, row.now) self.new) }
    {
        if keeps(&asking.bound().filter, row) {
            self.take_kept(alloc, asking, number, row)
        } else {
            Ok(())
        }
    }

    /// Takes one row more, as [`Partial::take`] does. A row that is kept shares its values.
    pub fn take_shared(
        &mut self,
        alloc: Global,
        asking: &Asking<'_>,
        number: u64,
        row: &Row,
    ) -> Result<(), NoMemory>
        requires fits { BoundFits row.now asking.now }
        requires few { spec.IsPartOfFew asking.now self.old }
        ensures { OnOk result (spec.GoesOn asking.now self.old (number, row.now) self.new) }
    {
        let bound = asking.bound();
        let values = RowValues::of(row.values());
        if !keeps(&bound.filter, &values) {
            Ok(())
        } else if bound.grouped {
            self.group_kept(alloc, asking, &values)
        } else {
            self.take_made(alloc, asking, number, clone_row(alloc, row)?)
        }
    }

    /// Takes one row more that the query keeps, as [`Partial::take`] does. The condition is not asked.
    pub fn take_kept(
        &mut self,
        alloc: Global,
        asking: &Asking<'_>,
        number: u64,
        row: &RowValues<'_>,
    ) -> Result<(), NoMemory>
        requires fits { BoundFits row.now asking.now }
        requires kept { spec.keeps asking.now.filter row.now ≡ true }
        requires few { spec.IsPartOfFew asking.now self.old }
        ensures { OnOk result (spec.GoesOn asking.now self.old (number, row.now) self.new) }
    {
        if asking.bound().grouped {
            self.group_kept(alloc, asking, row)
        } else {
            self.take_made(alloc, asking, number, row.copied(alloc)?)
        }
    }

    /// Takes one row more that the query keeps and that is handed over, as [`Partial::take_kept`] does. A query that is not
    /// grouped copies nothing.
    pub fn take_made(
        &mut self,
        alloc: Global,
        asking: &Asking<'_>,
        number: u64,
        row: Row,
    ) -> Result<(), NoMemory>
        requires fits { BoundFits row asking.now }
        requires kept { spec.keeps asking.now.filter row ≡ true }
        requires few { spec.IsPartOfFew asking.now self.old }
        ensures { OnOk result (spec.GoesOn asking.now self.old (number, row) self.new) }
    {
        if asking.bound().grouped {
            self.group_kept(alloc, asking, &RowValues::of(row.values()))
        } else {
            self.rows.push((number, row))?;
            Ok(())
        }
    }

    /// Takes those rows of a run that a mask chooses, which are those that the query keeps, for a query that is grouped.
    ///
    /// Each costs less than by [`Partial::take_kept`], and the numbers of the rows are not asked: a group has none. Where memory is
    /// out, what the part is then is not said.
    pub fn take_chosen(
        &mut self,
        alloc: Global,
        asking: &Asking<'_>,
        rows: &WideRun<'_>,
        mask: &Mask,
    ) -> Result<(), NoMemory>
        requires grouped { asking.now.grouped ≡ true }
        requires mask { mask.now ≡ map (spec.keeps asking.now.filter) rows.now }
        requires fits { AllByRecursion (λ row. BoundFits row asking.now) rows.now }
        requires few { spec.IsPartOfSoFew asking.now (length rows.now) self.old }
        ensures { OnOk result (spec.GoesOnWith asking.now self.old rows.now self.new) }
    {
        take_run(alloc, asking, rows, mask, &mut self.room, &mut self.groups)
    }

    /// Takes rows that follow those so far all together, and without a row: how many of them the query keeps, and a summary of
    /// each column of [`Asking::asked`], in that order, NULL in place of an end that is not asked for.
    ///
    /// The one group takes them. Nothing is looked up, and it takes no memory.
    pub fn take_together(&mut self, _asking: &Asking<'_>, rows: u64, sums: Vec<Sums>)
        requires grouped { _asking.now.grouped ≡ true }
        requires whole { _asking.now.groups ≡ [] }
        requires few { HasRoomTogether _asking.now self.old rows sums.items }
        ensures { GoesOnTogether _asking.now self.old rows sums.items self.new }
    {
        join_first(&mut self.groups, rows, sums);
    }

    /// The group of a row that a grouped query keeps takes it.
    fn group_kept(
        &mut self,
        alloc: Global,
        asking: &Asking<'_>,
        row: &RowValues<'_>,
    ) -> Result<(), NoMemory>
        requires grouped { asking.now.grouped ≡ true }
        requires fits { BoundFits row.now asking.now }
        requires kept { spec.keeps asking.now.filter row.now ≡ true }
        requires few { spec.IsPartOfFew asking.now self.old }
        ensures { OnOk result ((number : ℕ) → spec.GoesOn asking.now self.old (number, row.now) self.new) }
    {
        take_row(
            alloc,
            asking.bound(),
            asking.asked(),
            row,
            &mut self.room,
            &mut self.groups,
        )
    }

    /// What some rows, each with its row number, give to a query. The rows stay where they are, and those that are kept are shared.
    pub fn of_lent(alloc: Global, bound: &Bound, rows: &[(u64, &Row)]) -> Result<Partial, NoMemory>
        requires fits { AllByRecursion (λ r. BoundFits r.1 bound.now) (spec.lent_rows rows.now) }
        ensures { IfOk result (λ partial. partial ≡ spec.partial bound.now (spec.lent_rows rows.now)) }
    {
        part_of(alloc, bound, rows)
    }

    /// What some rows, each with its row number, give to a query, as [`Partial::of_lent`] says.
    pub fn of_rows(alloc: Global, bound: &Bound, rows: &[(u64, Row)]) -> Result<Partial, NoMemory>
        requires fits { AllByRecursion (λ r. BoundFits r.1 bound.now) rows.now }
        ensures { IfOk result (λ partial. partial ≡ spec.partial bound.now rows.now) }
    {
        let lent = lend(alloc, rows)?;
        Partial::of_lent(alloc, bound, lent.as_slice())
    }

    /// The same once more.
    pub fn copy(&self, alloc: Global) -> Result<Partial, NoMemory>
        ensures { IfOk result (λ partial. partial ≡ self.now) }
    {
        Ok(Partial {
            rows: copy_rows(alloc, self.rows.as_slice())?,
            groups: copy_groups(alloc, &self.groups)?,
            room: Room::new(alloc),
        })
    }

    /// Takes what later rows give to the same query.
    ///
    /// Where memory is out, this one is as before and the other is dropped. It costs the rows or the groups of the
    /// other.
    pub fn merge(&mut self, other: Partial) -> Result<(), NoMemory>
        requires few { spec.CanMerge self.old other }
        ensures merged { OnOk result (self.new ≡ spec.merged self.old other) }
        ensures parts { OnOk result (spec.IsPartOfBoth self.old other self.new) }
        ensures err { OnErr result (self.new ≡ self.old) }
    {
        let Partial {
            mut rows,
            groups,
            ..
        } = other;
        self.rows.reserve(rows.len())?;
        join_groups(&mut self.groups, groups)?;
        self.rows.append(&mut rows).unwrap();
        Ok(())
    }

    /// The kept rows of a query that is not grouped, in rising order of row numbers. It takes no memory.
    pub fn into_rows(self) -> Vec<(u64, Row)>
        ensures { result.items ≡ self.rows }
    {
        let Partial { rows, .. } = self;
        rows
    }

    /// The answer: the records in order, each with what the list of the query asks for.
    ///
    /// Each cell is an item of a row or of a group: an aggregate where rows are grouped, and a column where they are not
    /// or where GROUP BY names it.
    ///
    /// It costs a sort of the records by the keys of ORDER BY, and one of the groups by their own.
    pub fn finish(self, alloc: Global, bound: &Bound) -> Result<Vec<Vec<Cell>>, NoMemory>
        requires query { IsQuery bound.now }
        requires part { spec.IsPart bound.now self }
        ensures { IfOk result (λ records. map (λ cells. cells.items) records.items ≡ finished bound.now self) }
    {
        let Partial { rows, groups, .. } = self;
        let wanted = wanted(alloc, bound)?;
        let mut records = records_of(alloc, bound, wanted.as_slice(), rows.as_slice(), groups)?;
        let count = bound.items.items().len();
        put_in_order(count, bound.keys.items(), &mut records)?;
        projected(alloc, count, records)
    }
}
