//! The column units of every extent: the current one, the one that is being built, and what is stale of each.
//!
//! A commit notes the rows that it touches in the journal of the extent's current unit and in that of its living build.
//! So a unit that was built while rows changed comes with the journal of exactly those changes. Contracts see a
//! [`Directory`] as the slots of each table by extent and the held builds by number, and read them through functions of
//! `specs/Slots.antt` that answer nothing past the ends, so that growth is never seen.
//!
//! Lists of flags say which extents are taken, due, stale, and waiting, so that the first extent that a build may be chosen
//! for is found at once.
//!
//! The main promise is `Agrees` of `specs/Agrees.antt`: where the directory agrees with a history, what is stale of a unit
//! at an SCN is exactly what commits behind the unit's SCN and up to that one touched. `proofs/ForCallers.antt` has its
//! law for each kind of entry.
//!
//! Start with `specs/Slots.antt`, then `directory.rt`, `specs/Effects.antt`, `specs/Lists.antt` and `specs/Agrees.antt`.
#![tactic(auto)]

mod builds;
mod directory;
mod journals;
mod laws;
mod lists;
mod marks;
mod noting;
mod range;
mod shelves;
mod slot;

pub use directory::Directory;
pub use laws::agreement_is_kept;
