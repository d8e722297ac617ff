ghost use Rattle.std.specs.Prelude.{◌≡◌};
ghost use Rattle.std.specs.List.{list_all};
ghost use Rattle.im_values.specs.Fits.{fits};

use im_syntax::EvenTuples;
use im_values::{Column, Schema, Value};

/// Whether a tuple has a value for each of these columns, and each may stand in its own.
fn tuple_fits(values: &[Value], columns: &[Column]) -> bool
    ensures { result ≡ fits values.now columns.now }
{
    let mut left = columns;
    for value in values {
        let [column, others @ ..] = left else {
            return false;
        };
        if !column.kind.holds(value) {
            return false;
        }
        left = others;
    }
    left.is_empty()
}

/// Whether each tuple may stand in the table as a row.
pub fn all_fit(tuples: &EvenTuples, schema: &Schema) -> bool
    ensures { result ≡ list_all (λ row. fits row schema.now) tuples.now }
{
    for at in 0..tuples.len() {
        if !tuple_fits(tuples.values(at), schema.columns()) {
            return false;
        }
    }
    true
}
