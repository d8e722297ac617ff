ghost use Rattle.std.specs.Prelude.{◌≡◌, ◌<◌, length};
ghost use Rattle.im_syntax.specs.BoundFits.{value_at};

use im_values::{RowValues, Value};

/// The value of a row in a column, lent.
#[inline(always)]
pub fn value_in<'a>(row: &RowValues<'a>, column: u32) -> &'a Value
    requires { column < length row.now }
    ensures { result.now ≡ value_at row.now column }
{
    row.at(column as usize)
}
