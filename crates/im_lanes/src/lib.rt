//! Masks of truth values over the positions of a list, and kernels that compare many packed codes at once.
//!
//! Contracts see a [`Mask`] as a list of truth values; it is kept in words of 64 bits, and bits past its end are 0, so that equal
//! masks have equal words. [`mask_between`] chooses the codes of a list between two others, [`mask_by_flags`] those whose flag is
//! set; [`mask_and`], [`mask_or`] and [`mask_not`] put masks together, and [`count`] says how many positions are chosen. Each is
//! what a plain filter of the list gives (`specs/Masks.antt`), at every width and length.
//!
//! Start with `specs/Masks.antt` and `mask.rt`, then `between.rt`. `proofs/ForCallers.antt` has the laws for those who make words
//! of their own.
#![tactic(auto)]

mod between;
mod flags;
mod lanes;
mod logic;
mod mask;
mod words;

pub use between::{mask_between, mask_within};
pub use flags::mask_by_flags;
pub use logic::{count, count_within, mask_and, mask_not, mask_or};
pub use mask::{Mask, word_count};
pub use words::{first_bits, with_bit};
