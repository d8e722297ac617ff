ghost use Rattle.std.specs.Prelude.{◌≡◌, length, map, slice_get, IfOk};
ghost use Rattle.std.specs.List.{range_with_len};
ghost use Rattle.im_names.specs.Lookups.{number_of as number};
ghost use Rattle.im_names.specs.Rows as spec;
ghost use Rattle.im_names.specs.inner.TargetNumbers.{numbers_of};

use crate::columns::{number_of, width_of};
use im_values::{Name, NoMemory, Schema};
use std::alloc::Global;

/// The columns that the values of a tuple are for.
#[derive(Drop)]
pub enum Targets {
    /// Each column of a table that has so many, in order.
    Whole(u32),
    /// Those of these numbers.
    Listed(Vec<u32>),
}

fn listed(alloc: Global, schema: &Schema, names: &[Name]) -> Result<Vec<u32>, NoMemory>
    ensures { IfOk result (λ numbers. numbers.items ≡ map (number schema.now) names.now) }
{
    let mut numbers = Vec::with_capacity(alloc, names.len())?;
    for name in names {
        numbers.push(number_of(schema, name))?;
    }
    Ok(numbers)
}

/// Where among these numbers that of a column stands.
fn place_among(numbers: &[u32], column: u32) -> Option<usize>
    ensures { result ≡ spec.source numbers.now column }
{
    for (i, number) in numbers.iter().enumerate() {
        if column == *number {
            return Some(i);
        }
    }
    None
}

impl Targets {
    /// The columns that the values of a tuple are for. Without names they are all, and it takes no memory.
    pub fn of(alloc: Global, schema: &Schema, names: &[Name]) -> Result<Targets, NoMemory>
        ensures { IfOk result (λ targets. numbers_of targets ≡ spec.targets schema.now names.now) }
    {
        match names {
            [] => Ok(Targets::Whole(width_of(schema))),
            [_, ..] => Ok(Targets::Listed(listed(alloc, schema, names)?)),
        }
    }

    /// How many values a tuple has.
    #[tactic(auto, using(crate::proofs::TargetLemmas::count_of_all))]
    pub fn count(&self) -> usize
        ensures { result ≡ length (numbers_of self.now) }
    {
        match self {
            Targets::Whole(width) => *width as usize,
            Targets::Listed(numbers) => numbers.len(),
        }
    }

    /// The number of the column that the value at a place of a tuple is for.
    #[tactic(auto, using(crate::proofs::TargetLemmas::number_inside, crate::proofs::TargetLemmas::number_past))]
    pub fn number_at(&self, i: usize) -> Option<u32>
        ensures { result ≡ slice_get (numbers_of self.now) i }
    {
        match self {
            Targets::Whole(width) => {
                if i < *width as usize {
                    Some(i as u32)
                } else {
                    None
                }
            }
            Targets::Listed(numbers) => numbers.get(i).copied(),
        }
    }

    /// The place in a tuple of the value for a column.
    #[tactic(auto, using(crate::proofs::TargetLemmas::source_inside, crate::proofs::TargetLemmas::source_past))]
    pub fn source_of(&self, column: u32) -> Option<usize>
        ensures { result ≡ spec.source (numbers_of self.now) column }
    {
        match self {
            Targets::Whole(width) => {
                if column < *width {
                    Some(column as usize)
                } else {
                    None
                }
            }
            Targets::Listed(numbers) => place_among(numbers, column),
        }
    }
}
