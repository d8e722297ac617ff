//! A column of values, kept in the form that takes the least bytes.
//!
//! Contracts see a [`Column`] as the list of its values. [`Column::form`] lends the form that it is kept in: the values
//! one beside another, codes of a dictionary, or runs of codes. Which one that is follows from the values alone, by the
//! sizes of `im_values/specs/Sizes.antt`, and so do [`Column::bytes`], the sum and the [`Bounds`], which are those of `im_index`.
//!
//! [`Column::build_lent`] makes one of values that stay where they are, and [`Column::of_numbers`] one of whole numbers alone, in
//! less time. [`Column::picked`] makes a column of values of an old one and fresh ones, and keeps the dictionary where it can.
//!
//! A column never changes, and costs nothing to share behind an `Arc` of its user's.
//!
//! Start with `specs/Forms.antt` and `column.rt`, then `specs/Summaries.antt` and `summary.rt`.
#![tactic(auto)]

mod column;
mod form;
mod numbers;
mod picking;
mod repeated;
mod sizes;
mod summary;

pub use column::Column;
pub use form::Form;
pub use im_index::{Bounds, may_match};
