ghost use Rattle.std.specs.Prelude.{◌≡◌, ℕ, ◌^◌, ◌<◌, ◌≤◌, All, option_copied, IfOk, IfSome};
ghost use Rattle.im_versions.specs.Versions as versions;
ghost use Rattle.im_blocks.specs.Chains.{newest_scn, run_at, run_versions};
ghost use Rattle.im_blocks.specs.inner.Seen.{AreSeen};

use crate::run::{Held, Run};
use im_values::{NoMemory, Row, Rows, Value};
use im_versions::Chain;
use std::alloc::Global;

/// The run of a number, if it holds the row number.
pub fn at(runs: &[Run], number: u32, table: u32, rid: u64) -> Option<&Run>
    ensures { option_copied result ≡ run_at runs.now number table rid }
{
    let run = runs.get(number as usize)?;
    if run.holds(table, rid) {
        Some(run)
    } else {
        None
    }
}

/// Rows of a run, lent.
#[derive(Clone, Copy)]
pub struct LentRows<'a> {
    /// The row number of the first of them.
    pub first: u64,
    /// The rows.
    pub rows: &'a Rows,
}

/// The rows of a run of more than one, where it is of a commit at or below an SCN.
pub fn rows_seen(run: Option<&Run>, scn: u64) -> Option<LentRows<'_>>
    ensures { IfSome result (λ lent. AreSeen (option_copied run.entry) lent.first lent.rows.now scn) }
{
    let run = run?;
    match &run.rows {
        Held::Many(rows) if run.scn <= scn && rows.len() > 1 => Some(LentRows {
            first: run.first,
            rows,
        }),
        _ => None,
    }
}

/// The values of a row number at an SCN, by its run.
pub fn values_at(run: Option<&Run>, rid: u64, scn: u64) -> Option<&[Value]>
    ensures { option_copied result ≡ versions.row_at (run_versions rid (option_copied run.entry)) scn }
{
    let run = run?;
    if run.scn > scn {
        return None;
    }
    run.values(rid)
}

/// The values of the row of a row number, by its run.
pub fn newest_values(run: Option<&Run>, rid: u64) -> Option<&[Value]>
    ensures { option_copied result ≡ versions.newest_row (run_versions rid (option_copied run.entry)) }
{
    run?.values(rid)
}

/// The SCN of the newest version of each row number that a run holds.
pub fn newest(run: Option<&Run>) -> u64
    ensures { (rid : ℕ) → result ≡ newest_scn (run_versions rid (option_copied run.entry)) }
{
    match run {
        Some(run) => run.scn,
        None => 0,
    }
}

/// A chain of what a run has of a row number.
pub fn chain_of(alloc: Global, run: Option<&Run>, rid: u64) -> Result<Chain, NoMemory>
    ensures { IfOk result (λ chain. chain.versions ≡ run_versions rid (option_copied run.entry)) }
{
    let mut chain = Chain::new(alloc);
    let Some(run) = run else {
        return Ok(chain);
    };
    chain.reserve()?;
    chain.push(run.scn, run.row(alloc, rid)?);
    Ok(chain)
}

/// A number past those of the tables that the runs are of.
pub fn tables_end(runs: &[Run]) -> u64
    ensures few { result ≤ 2 ^ 32 }
    ensures past { All (λ run. run.table < result) runs.now }
{
    let mut end: u64 = 0;
    for run in runs {
        end = end.max(u64::from(run.table) + 1);
    }
    end
}
