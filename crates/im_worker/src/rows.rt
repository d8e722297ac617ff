ghost use Rattle.std.specs.Prelude.{◌≡◌, All, ◌+◌, ◌-◌, ◌*◌, ◌<◌, ◌≤◌, ◌^◌, ◌++◌, map, length, nat_le, IfOk, OnOk, IfSome, Some};
ghost use Rattle.im_history.specs.Fetched.{HasNumbers, in_piece, in_pieces};
ghost use Rattle.im_unit.specs.Holding.{AreShort, HaveWidth, lent_slots, wide_slots};
ghost use Rattle.im_unit.specs.Rebuilt.{RiseWithin, fetched_rows, rebuilt};
ghost use Rattle.im_values.specs.declared.limits.TheConstants.{MOST_COLUMNS};
ghost use Rattle.im_worker.specs.inner.Built as spec;

use im_core::ShownRows;
use im_history::{Piece, Task, lent_values};
use im_unit::ColumnUnit;
use im_values::limits::MOST_COLUMNS;
use im_values::{NoMemory, Rows, Value};
use std::alloc::Global;

/// The first row number of a build's extent, where a unit of so many rows from there on can be made.
fn first_of(task: &Task, rows: usize) -> Option<u64>
    ensures first { IfSome result (λ first. first ≡ task.now.extent * task.now.per) }
    ensures within { IfSome result (λ first. first + rows < 2 ^ 64) }
    ensures few { IfSome result (λ first. rows < 2 ^ 31) }
    ensures columns { IfSome result (λ first. task.now.columns ≤ MOST_COLUMNS) }
{
    let first = task.extent.checked_mul(task.per)?;
    first.checked_add(rows as u64)?;
    if rows < 2_147_483_648 && task.columns as usize <= MOST_COLUMNS {
        Some(first)
    } else {
        None
    }
}

/// The unit of a build whose extent has these rows, each with these defaults from its length on. Where they are more than those of any unit, which does not come, it counts as
/// out of memory.
pub fn unit_of_rows(
    alloc: Global,
    task: &Task,
    rows: &[Option<&[Value]>],
    defaults: &[Value],
) -> Result<ColumnUnit, NoMemory>
    requires width { HaveWidth task.now.columns (wide_slots defaults.now rows.now) }
    requires short { AreShort (wide_slots defaults.now rows.now) }
    ensures { IfOk result (λ unit. unit ≡ record {
      scn = task.now.scn;
      first = task.now.extent * task.now.per;
      columns = task.now.columns;
      rows = wide_slots defaults.now rows.now;
    }) }
{
    let Some(first) = first_of(task, rows.len()) else {
        return Err(NoMemory);
    };
    ColumnUnit::build_lent(alloc, task.scn, first, task.columns, rows, defaults)
}

/// The unit of a build, made anew of the one that was lent to it and of the rows that were fetched beside that.
pub fn unit_again(
    alloc: Global,
    task: &Task,
    old: &ColumnUnit,
    fetched: &ShownRows,
) -> Result<ColumnUnit, NoMemory>
    requires columns { old.now.columns ≡ task.now.columns }
    requires rise { RiseWithin old.now.first (old.now.first + length old.now.rows) fetched.now }
    requires taken { spec.AreTaken task.now fetched.now }
    ensures { IfOk result (λ unit. unit ≡ rebuilt old.now task.now.scn fetched.now) }
{
    let lent = fetched.lent(alloc)?;
    ColumnUnit::rebuild(alloc, old, task.scn, lent.as_slice())
}

/// Puts the rows of a run behind others, lent.
fn put_run<'a>(slots: &mut Vec<Option<&'a [Value]>>, run: &'a Rows) -> Result<(), NoMemory>
    ensures { OnOk result (lent_slots slots.new.items ≡ lent_slots slots.old.items ++ map (λ row. Some row) run.now) }
{
    slots.reserve(run.len())?;
    for at in 0..run.len() {
        slots.push_reserved(Some(run.values(at)));
    }
    Ok(())
}

/// Puts the rows of a piece, or none, behind others, lent and without their numbers.
fn put_piece<'a>(slots: &mut Vec<Option<&'a [Value]>>, piece: &'a Piece) -> Result<(), NoMemory>
    requires { HasNumbers piece.now }
    ensures { OnOk result (lent_slots slots.new.items ≡ lent_slots slots.old.items ++ fetched_rows (in_piece piece.now)) }
{
    match piece {
        Piece::Run(_, run) => put_run(slots, run),
        Piece::Each(_, block) => put_run(slots, block),
        Piece::One(_, row) => {
            slots.push(lent_values(row))?;
            Ok(())
        }
    }
}

/// Puts so many row numbers without a row behind others.
fn pad(slots: &mut Vec<Option<&[Value]>>, count: u64) -> Result<(), NoMemory>
    ensures { OnOk result (lent_slots slots.new.items ≡ lent_slots slots.old.items ++ spec.nones count) }
{
    for _ in 0..count {
        slots.push(None)?;
    }
    Ok(())
}

/// The rows of an extent of so many row numbers, lent as they were written: so many that were fetched, which lie in these pieces, and
/// none at the row numbers behind them.
pub fn padded<'a>(
    alloc: Global,
    pieces: &'a [Piece],
    len: u64,
    per: u64,
) -> Result<Vec<Option<&'a [Value]>>, NoMemory>
    requires { All HasNumbers pieces.now }
    ensures { IfOk result (λ slots. lent_slots slots.items ≡ fetched_rows (in_pieces pieces.now) ++ spec.nones (per - len)) }
{
    let mut slots = Vec::with_capacity(alloc, len as usize)?;
    for piece in pieces {
        put_piece(&mut slots, piece)?;
    }
    pad(&mut slots, per.saturating_sub(len))?;
    Ok(slots)
}
