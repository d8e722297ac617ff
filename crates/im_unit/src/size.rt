ghost use Rattle.std.specs.Prelude.{◌≡◌, ◌≤◌, ◌<◌, ◌^◌, length, IfOk};
ghost use Rattle.im_unit.specs.Holding.{AreShort, HaveWidth, unit_bytes};

use crate::unit::ColumnUnit;
use im_history::UnitLike;
use im_values::limits::MOST_COLUMNS;
use im_values::{NoMemory, Row};
use std::alloc::Global;

/// The bytes that a unit of these rows counts for, whatever its SCN and its first row number. It builds the unit, and is the
/// plain way to learn a unit's size beforehand.
///
/// It costs and takes what [`ColumnUnit::build`] does, and lets the unit go.
pub fn unit_bytes(alloc: Global, columns: u32, rows: &[Option<Row>]) -> Result<u64, NoMemory>
    requires width { HaveWidth columns rows.now }
    requires short { AreShort rows.now }
    requires few_columns { columns ≤ MOST_COLUMNS }
    requires few_rows { length rows.now < 2 ^ 31 }
    ensures { IfOk result (λ bytes.
        bytes ≡ unit_bytes (record { scn = 0; first = 0; columns = columns; rows = rows.now })) }
{
    let unit = ColumnUnit::build(alloc, 0, 0, columns, rows)?;
    Ok(unit.bytes())
}
