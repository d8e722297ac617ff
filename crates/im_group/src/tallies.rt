ghost use Rattle.std.specs.Prelude.{◌≡◌, ◌+◌, ◌<◌, ◌^◌, [], IfOk, OnOk, pos, length, get_or};
ghost use Rattle.std.specs.List.{AllByRecursion};
ghost use Rattle.im_group.specs.declared.cell.Cell.TheVariants.{Int};
ghost use Rattle.im_group.specs.Sums.{joined, reading};
ghost use Rattle.im_group.specs.Tallies as spec;
ghost use Rattle.im_group.specs.inner.Steps.{joined_at, next_place};

use crate::asked::{Asked, place_of};
use crate::cell::Cell;
use crate::sums::Sums;
use im_syntax::Function;
use im_values::{NoMemory, RowValues};
use std::alloc::Global;
use std::marker::Model;

/// What a group has taken of its rows: how many there are, and a summary of each column that the query aggregates.
#[derive(Drop)]
pub struct Tallies {
    rows: u64,
    sums: Vec<Sums>,
}

impl Model for Tallies {
    ghost use Rattle.im_group.specs.Tallies.{Tallied};

    ghost Value = { Tallied };

    ghost view = { λ t. record { rows = t.rows; sums = t.sums.items } };
}

/// Joins a summary to that at a place, unless the place is past the end, and answers the next place.
fn join_at(sums: &mut Vec<Sums>, place: usize, other: Sums) -> usize
    requires { place < length sums.old.items → (get_or sums.old.items place other).values + other.values < 2 ^ 64 }
    ensures items { sums.new.items ≡ joined_at sums.old.items place other }
    ensures next { result ≡ next_place (length sums.old.items) place }
{
    if place < sums.len() {
        sums[place].join(other);
        place + 1
    } else {
        place
    }
}

/// Summaries of the same columns join these, one by one. It takes no memory.
fn join_each(sums: &mut Vec<Sums>, others: Vec<Sums>)
    requires { spec.CanJoinEach sums.old.items others.items }
    ensures { sums.new.items ≡ spec.each_joined sums.old.items others.items }
{
    let mut place = 0;
    for other in others {
        place = join_at(sums, place, other);
    }
}

/// The summaries take one row more, each its column.
#[inline(always)]
fn take_each(
    alloc: Global,
    asked: &[Asked],
    row: &RowValues<'_>,
    sums: &mut Vec<Sums>,
) -> Result<(), NoMemory>
    requires fits { AllByRecursion (λ a. a.column < length row.now) asked.now }
    requires few { AllByRecursion (λ s. s.values + 1 < 2 ^ 64) sums.old.items }
    ensures { OnOk result (sums.new.items ≡ spec.each_taken asked.now sums.old.items row.now) }
{
    for i in 0..asked.len().min(sums.len()) {
        sums[i].take(alloc, &asked[i], row)?;
    }
    Ok(())
}

fn copy_each(alloc: Global, sums: &[Sums]) -> Result<Vec<Sums>, NoMemory>
    ensures { IfOk result (λ copies. copies.items ≡ sums.now) }
{
    let mut copies = Vec::with_capacity(alloc, sums.len())?;
    for one in sums {
        copies.push(one.copy(alloc)?)?;
    }
    Ok(copies)
}

impl Tallies {
    /// The tallies of no row.
    pub fn new(alloc: Global, asked: &[Asked]) -> Result<Tallies, NoMemory>
        ensures { IfOk result (λ tallies. tallies ≡ spec.tallied asked.now []) }
    {
        let mut sums = Vec::with_capacity(alloc, asked.len())?;
        for one in asked {
            sums.push(Sums::new(*one))?;
        }
        Ok(Tallies { rows: 0, sums })
    }

    /// Tallies of so many rows, with these summaries.
    pub fn of(rows: u64, sums: Vec<Sums>) -> Tallies
        ensures { result ≡ record { rows = rows; sums = sums.items } }
    {
        Tallies { rows, sums }
    }

    /// The same tallies once more.
    pub fn copy(&self, alloc: Global) -> Result<Tallies, NoMemory>
        ensures { IfOk result (λ tallies. tallies ≡ self.now) }
    {
        let sums = copy_each(alloc, self.sums.as_slice())?;
        Ok(Tallies {
            rows: self.rows,
            sums,
        })
    }

    /// Takes one row more. Where memory is out, what the tallies are then is not said.
    #[inline(always)]
    pub fn take(
        &mut self,
        alloc: Global,
        asked: &[Asked],
        row: &RowValues<'_>,
    ) -> Result<(), NoMemory>
        requires fits { AllByRecursion (λ a. a.column < length row.now) asked.now }
        requires few { spec.HasRoom self.old }
        ensures { OnOk result (self.new ≡ spec.row_taken asked.now self.old row.now) }
    {
        self.rows += 1;
        take_each(alloc, asked, row, &mut self.sums)
    }

    /// Takes what other tallies of the same columns have taken. It takes no memory.
    pub fn join(&mut self, other: Tallies)
        requires { spec.CanJoin self.old other }
        ensures { self.new ≡ spec.all_joined self.old other }
    {
        let Tallies { rows, sums } = other;
        self.rows += rows;
        join_each(&mut self.sums, sums);
    }

    /// How many rows the group has.
    pub fn count(&self) -> Cell
        ensures { result ≡ Int (pos self.now.rows) }
    {
        Cell::Int(i128::from(self.rows))
    }

    /// An aggregate over a column.
    pub fn read(
        &self,
        alloc: Global,
        asked: &[Asked],
        function: Function,
        column: u32,
    ) -> Result<Cell, NoMemory>
        ensures { IfOk result (λ cell. cell ≡ reading function (spec.sums_at asked.now self.now.sums column)) }
    {
        let place = place_of(asked, column);
        if place < self.sums.len() {
            self.sums[place].read(alloc, function)
        } else {
            Sums::none().read(alloc, function)
        }
    }
}
