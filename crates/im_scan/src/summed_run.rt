ghost use Rattle.std.specs.Prelude.{◌≡◌, All, IfOk, length, map};
ghost use Rattle.std.specs.List.{AllByRecursion};
ghost use Rattle.std.specs.Option.{ForSome};
ghost use Rattle.im_syntax.specs.BoundFits.{BoundFits, HasColumn};
ghost use Rattle.im_codepred.specs.Tallies.{chosen};
ghost use Rattle.im_group.specs.Partials as group;
ghost use Rattle.im_group.specs.Sums as sums;
ghost use Rattle.im_unit.specs.Holding.{values_in};
ghost use Rattle.im_scan.specs.inner.Pieces.{AreOfRun};

use crate::summed::{sums_by, takes_together};
use im_codepred::tally_rows;
use im_group::{Asked, Asking, Sums};
use im_lanes::Mask;
use im_values::{NoMemory, WideRun};
use std::alloc::Global;

/// As few rows as this are taken one by one: to sum them up and to join the sums would cost more.
const FEW: usize = 16;

/// The summary of the chosen values of one column of a run, of what a query asks of it.
fn run_sum(
    alloc: Global,
    asked: Asked,
    rows: &WideRun<'_>,
    mask: &Mask,
) -> Result<Option<Sums>, NoMemory>
    requires long { length mask.now ≡ length rows.now }
    requires inside { All (λ row. HasColumn row asked.column) rows.now }
    ensures { IfOk result (λ found. ForSome found (λ found.
        found ≡ sums.sums_of asked (chosen mask.now (values_in asked.column rows.now)))) }
{
    sums_by(alloc, asked, tally_rows(rows, asked.column, mask))
}

/// The summaries of the chosen values of a run, one for each column of which a query asks one.
fn run_sums(
    alloc: Global,
    asked: &[Asked],
    rows: &WideRun<'_>,
    mask: &Mask,
) -> Result<Option<Vec<Sums>>, NoMemory>
    requires long { length mask.now ≡ length rows.now }
    requires inside { All (λ a. All (λ row. HasColumn row a.column) rows.now) asked.now }
    ensures { IfOk result (λ found. ForSome found (λ found.
        found.items ≡ map (λ a. sums.sums_of a (chosen mask.now (values_in a.column rows.now))) asked.now)) }
{
    let mut all = Vec::with_capacity(alloc, asked.len())?;
    for one in asked {
        match run_sum(alloc, *one, rows, mask)? {
            Some(found) => all.push(found)?,
            None => return Ok(None),
        }
    }
    Ok(Some(all))
}

/// The summaries of the chosen rows of a run for a query that takes its rows together. None for any other query, and where there
/// are few rows.
pub fn sums_together(
    alloc: Global,
    asking: &Asking<'_>,
    rows: &WideRun<'_>,
    mask: &Mask,
) -> Result<Option<Vec<Sums>>, NoMemory>
    requires mask { mask.now ≡ map (group.keeps asking.now.filter) rows.now }
    requires fits { AllByRecursion (λ row. BoundFits row asking.now) rows.now }
    ensures { IfOk result (λ found. ForSome found (λ found. AreOfRun asking.now rows.now mask.now found.items)) }
{
    if rows.len() <= FEW || !takes_together(asking.bound()) {
        return Ok(None);
    }
    let found = run_sums(alloc, asking.asked(), rows, mask)?;
    Ok(found)
}
