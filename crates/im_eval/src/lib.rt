//! The truth of a condition on a row.
//!
//! A condition is Yes, No or Unknown of a row, by SQL's three-valued logic: a comparison with NULL is Unknown, and AND, OR
//! and NOT go by the tables of `im_values`. [`holds`] computes it; what it computes is `truth_of`, in
//! `specs/Holds.antt`, by recursion over the condition. It may be asked where the condition fits the row: its columns
//! stand in the row, and what it compares is NULL or of one kind (`FilterFits`, of `im_syntax`).
//!
//! Start with `specs/Holds.antt`, then `truth.rt`.
#![tactic(auto)]

mod truth;

pub use truth::{holds, within};
