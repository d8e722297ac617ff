ghost use Rattle.std.specs.Prelude.{◌≡◌, ◌+◌, ◌<◌, ◌^◌, IfOk};
ghost use Rattle.im_scan.specs.Faces.{unit_of};
ghost use Rattle.im_unit.specs.Holding as holding;
ghost use Rattle.im_scan.specs.Parts.{row_in_unit};
ghost use Rattle.im_scan.specs.inner.Steps.{AreRowsOf, put_at, unit_rows, with_fetched};

use crate::faces::Face;
use crate::pieces::values_again;
use im_history::LentRow;
use im_unit::ColumnUnit;
use im_values::{NoMemory, Row, RowValues};
use std::alloc::Global;

/// The rows that a unit holds, read back from its columns. Without a unit there is none, and of a pruned one none is read.
pub fn rows_of(alloc: Global, face: Face<'_>) -> Result<Vec<Option<Row>>, NoMemory>
    ensures { IfOk result (λ rows. AreRowsOf face.entry rows.items) }
{
    match face {
        Face::Whole(unit) => unit.rows(alloc),
        Face::Edges(_) | Face::Bare => Ok(Vec::new(alloc)),
    }
}

/// The values of a row, or none, lent.
fn lent(row: &Option<Row>) -> Option<RowValues<'_>>
    ensures { result ≡ row.now }
{
    match row {
        Some(row) => Some(RowValues::of(row.values())),
        None => None,
    }
}

/// The row that a unit has at a row number, among the rows that it holds.
fn row_of<'a>(unit: &ColumnUnit, held: &'a [Option<Row>], rid: u64) -> Option<RowValues<'a>>
    requires { held.now ≡ unit.now.rows }
    ensures { result ≡ holding.row_of unit.now rid }
{
    if rid < unit.first() || rid - unit.first() >= held.len() as u64 {
        return None;
    }
    lent(&held[(rid - unit.first()) as usize])
}

/// The row that a face shows at a row number.
fn shown<'a>(face: Face<'_>, held: &'a [Option<Row>], rid: u64) -> Option<RowValues<'a>>
    requires { AreRowsOf face held.now }
    ensures { result ≡ row_in_unit (unit_of face.entry) rid }
{
    match face {
        Face::Whole(unit) => row_of(unit, held, rid),
        Face::Edges(_) | Face::Bare => None,
    }
}

/// The rows that a face shows at so many row numbers from the first on.
fn shown_rows<'a>(
    alloc: Global,
    face: Face<'_>,
    held: &'a [Option<Row>],
    first: u64,
    count: u64,
) -> Result<Vec<Option<RowValues<'a>>>, NoMemory>
    requires within { first + count < 2 ^ 64 }
    requires held { AreRowsOf face held.now }
    ensures { IfOk result (λ slots. slots.items ≡ unit_rows (unit_of face.entry) first count) }
{
    let mut slots = Vec::with_capacity(alloc, count as usize)?;
    for rid in first..first + count {
        slots.push(shown(face, held, rid))?;
    }
    Ok(slots)
}

/// Puts a row at a row number, if it is among those from the first on.
fn put<'a>(slots: &mut [Option<RowValues<'a>>], first: u64, rid: u64, row: &Option<RowValues<'a>>)
    ensures { slots.new ≡ put_at first slots.old rid row.now }
{
    if rid >= first && rid - first < slots.len() as u64 {
        slots[(rid - first) as usize] = values_again(row);
    }
}

/// Puts what was fetched in place of what stands there.
fn put_fetched<'a>(slots: &mut [Option<RowValues<'a>>], first: u64, fetched: &[LentRow<'a>])
    ensures { slots.new ≡ with_fetched first slots.old fetched.now }
{
    for (rid, row) in fetched {
        put(slots, first, *rid, row);
    }
}

/// The rows that a face shows at so many row numbers from the first on, with others in the place of those of their row numbers. They
/// stay where they are.
///
/// It costs the row numbers and the others.
pub fn gather<'a>(
    alloc: Global,
    face: Face<'_>,
    held: &'a [Option<Row>],
    others: &[LentRow<'a>],
    first: u64,
    count: u64,
) -> Result<Vec<Option<RowValues<'a>>>, NoMemory>
    requires within { first + count < 2 ^ 64 }
    requires held { AreRowsOf face held.now }
    ensures { IfOk result (λ slots. slots.items ≡ with_fetched first (unit_rows (unit_of face.entry) first count) others.now) }
{
    let mut slots = shown_rows(alloc, face, held, first, count)?;
    put_fetched(slots.as_mut_slice(), first, others);
    Ok(slots)
}
