//! The storage index: what the bounds of columns say of a condition without a look at a row.
//!
//! [`Bounds`] are the least and the greatest value of a column and its number of NULLs. From them alone a condition may be
//! excluded, so that no row of those columns has the truth Yes by it: `excludes`, in `specs/Excludes.antt`, is the table by
//! which that is decided, and [`pruned`] computes it. [`excluded_rows_are_not_kept`] says what it is good for.
//!
//! Start with `specs/Bounds.antt` and `specs/Excludes.antt`, then `pruning.rt`.
#![tactic(auto)]

mod bounds;
mod laws;
mod pruning;

pub use bounds::{Bounds, may_match};
pub use laws::excluded_rows_are_not_kept;
pub use pruning::pruned;
