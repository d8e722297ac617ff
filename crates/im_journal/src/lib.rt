//! The journal of a column unit: which rows commits have touched since the unit's SCN.
//!
//! A commit notes each row number that it touches with its SCN. A row is stale at an SCN where it was noted at or below
//! it. So only the first note of a row number changes an answer, and contracts see a [`Journal`] as the list of these
//! first notes and its spare room. `specs/Stale.antt` says what is stale for any list of notes, and
//! [`first_notes_suffice`] that the first notes give the same answers as all notes.
//!
//! Start with `specs/Stale.antt` and then `journal.rt`.
#![tactic(auto)]

mod journal;
mod laws;
mod rising;

pub use journal::Journal;
pub use laws::first_notes_suffice;
