//! The versions of one row: what each commit that touched it left, oldest first.
//!
//! Contracts see a [`Chain`] as its list of versions and its spare room. A version has the SCN of the commit that made
//! it, and the row that this commit left, or none where it took the row away. [`Chain::at`] is the row at an SCN: that
//! of the last version at or below it (`specs/Versions.antt`). It is one step of [`im_values::Steps`].
//!
//! Start with `version.rt`, then `specs/Versions.antt` and `chain.rt`.
#![tactic(auto)]

mod chain;
mod version;

pub use chain::Chain;
pub use version::Version;
