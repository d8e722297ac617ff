//! The versions of every row of every table.
//!
//! Contracts see [`Blocks`] as where the versions of each row number are kept, the runs and the chains, and read them through
//! one function, `versions_at` of `specs/Chains.antt`, which answers none past the ends. So growth is never seen.
//! [`Blocks::reserve`] makes the changes of a commit [`Ready`], with room for each (`specs/Readied.antt`), and
//! [`Blocks::apply`] puts them in without taking memory; `specs/Transitions.antt` says what each does to the versions.
//! [`Blocks::at`] is the row at an SCN. [`Blocks::purge`] lets go of the versions that nobody asks for who reads at a floor or
//! above it, and [`Blocks::versions`] counts those that stand (`specs/Standing.antt`).
//!
//! The main promise is `IsKept` of `specs/Kept.antt`: where the blocks keep a history, the row at each SCN from its horizon on
//! is the row committed at that SCN. `proofs/ForCallers.antt` has its law for each kind of entry.
//!
//! Start with `specs/VersionsOf.antt`, then `run.rt` and `blocks.rt`.
#![tactic(auto)]

mod blocks;
mod chains;
mod drawing;
mod entering;
mod gathered;
mod image;
mod joining;
mod pages;
mod picking;
mod ready;
mod run;
mod runs;
mod scattered;
mod slot;
mod touched;
mod version_table;

pub use blocks::Blocks;
pub use ready::Ready;
