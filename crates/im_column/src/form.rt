use im_bits::Bits;
use im_codes::{Dict, Runs};
use im_values::Value;

/// The form of a column, lent.
pub enum Form<'a> {
    /// The values, one beside another.
    Plain(&'a [Value]),

    /// The distinct values, and the code of each value.
    Coded(&'a Dict, &'a Bits),

    /// The distinct values, and the runs of equal codes.
    Runs(&'a Dict, &'a Runs),
}

/// The form of a column.
#[derive(Drop)]
pub enum Kept {
    Plain(Vec<Value>),
    Coded(Dict, Bits),
    Runs(Dict, Runs),
}
