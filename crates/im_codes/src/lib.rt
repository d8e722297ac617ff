//! Dictionaries of values, codes, and runs of codes.
//!
//! A [`Dict`] numbers the distinct values of a column in their order: code 0 is NULL, and code `c` the `c`-th value.
//! Contracts see it as the list of its values (`specs/Dictionary.antt`). A [`Coding`] is the dictionary of a list and the
//! code of each of its values. [`Runs`] keeps a list of codes as runs of equal ones, each as long as it can be. Contracts
//! see it as the list of codes (`specs/Runs.antt`).
//!
//! Start with `specs/Dictionary.antt`, `dict.rt` and `coding.rt`, then `specs/Runs.antt` and `runs.rt`.
#![tactic(auto)]

mod coding;
mod dict;
mod lending;
mod numbering;
mod numbers;
mod picking;
mod range;
mod run;
mod runs;

pub use coding::Coding;
pub use dict::Dict;
pub use lending::{copy_values, lend_values, whole_values};
pub use numbers::numbers_rise;
pub use run::Run;
pub use runs::Runs;
