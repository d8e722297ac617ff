ghost use Rattle.std.specs.Prelude.{◌≡◌, ℕ, ◌+◌, ◌^◌, ◌<◌, ◌≤◌, length, option_copied, IfOk, OnOk};
ghost use Rattle.im_blocks.specs.Chains.{newest_scn, versions_at};
ghost use Rattle.im_blocks.specs.inner.Images.{Draws, DrawsRow, IsImageOf, IsWhole};

use crate::gathered::put_values;
use crate::image::Image;
use crate::version_table::VersionTable;
use im_values::{NoMemory, Rows, Value};
use std::alloc::Global;

/// An image that is being made.
#[derive(Drop)]
pub struct Draft {
    /// How many values each row has.
    pub width: usize,
    /// The values of the rows so far, one row behind another.
    pub values: Vec<Value>,
    /// Of each row whether it is the one that its row number has.
    pub fresh: Vec<bool>,
}

/// Puts a row behind the others.
fn draw_row(alloc: Global, draft: &mut Draft, row: &[Value], fresh: bool) -> Result<(), NoMemory>
    requires whole { IsWhole draft.old }
    requires wide { length row.now ≡ draft.old.width }
    ensures { OnOk result (DrawsRow draft.old draft.new row.now fresh) }
{
    put_values(alloc, &mut draft.values, row)?;
    draft.fresh.push(fresh)?;
    Ok(())
}

/// Puts the row of a row number behind the others, or NULLs that are not shown, where it has none of this width.
fn draw(
    alloc: Global,
    draft: &mut Draft,
    nulls: &[Value],
    row: Option<&[Value]>,
) -> Result<(), NoMemory>
    requires whole { IsWhole draft.old }
    requires wide { length nulls.now ≡ draft.old.width }
    ensures { OnOk result (Draws draft.old draft.new (option_copied row.entry)) }
{
    match row {
        Some(row) if row.len() == draft.width => draw_row(alloc, draft, row, true),
        _ => draw_row(alloc, draft, nulls, false),
    }
}

/// So many NULLs.
fn nulls_of(alloc: Global, count: usize) -> Result<Vec<Value>, NoMemory>
    ensures { IfOk result (λ nulls. length nulls.items ≡ count) }
{
    let mut nulls = Vec::with_capacity(alloc, count)?;
    for _ in 0..count {
        nulls.push(Value::null())?;
    }
    Ok(nulls)
}

/// How many values the first row at these row numbers has.
fn width_at(versions: &VersionTable, table: u32, first: u64, count: u64) -> usize
    requires { first + count < 2 ^ 64 }
{
    for at in 0..count {
        if let Some(row) = versions.newest(table, first + at) {
            return row.len();
        }
    }
    0
}

/// The SCN of the newest version at these row numbers, 0 where there is none.
fn newest_among(versions: &VersionTable, table: u32, first: u64, count: u64) -> u64
    requires { first + count < 2 ^ 64 }
    ensures { (i : ℕ) → i < count → newest_scn (versions_at versions.now table (first + i)) ≤ result }
{
    let mut scn = 0;
    for at in 0..count {
        scn = scn.max(versions.latest(table, first + at));
    }
    scn
}

/// The image of the rows that so many row numbers have from the first on.
pub fn image_of(
    alloc: Global,
    versions: &VersionTable,
    table: u32,
    first: u64,
    count: u64,
) -> Result<Image, NoMemory>
    requires { first + count < 2 ^ 64 }
    ensures { IfOk result (λ image. IsImageOf versions.now table first image) }
{
    let width = width_at(versions, table, first, count);
    let nulls = nulls_of(alloc, width)?;
    let mut draft = Draft {
        width,
        values: Vec::new(alloc),
        fresh: Vec::with_capacity(alloc, count as usize)?,
    };
    for at in 0..count {
        let row = versions.newest(table, first + at);
        draw(alloc, &mut draft, nulls.as_slice(), row)?;
    }
    let Draft {
        width,
        values,
        fresh,
    } = draft;
    let rows = Rows::of(alloc, values, width, fresh.len())?;
    Ok(Image {
        scn: newest_among(versions, table, first, count),
        rows,
        fresh,
    })
}
