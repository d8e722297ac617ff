//! The store: tables of versioned rows, sessions with their transactions, locks and cursors, and one recorded history.
//!
//! Contracts see a [`Core`] as its limits and its history, and nothing else (`specs/Seen.antt`). Each call adds exactly the
//! entry that it names, or none, and what it answers is read from the history: the definitions are those of `im_history`.
//! A refusal has exactly its cause (`specs/Refusals.antt` there), and leaves the store as it was; out of memory any call
//! may be refused whose answer can say so. [`Core::shut`] and [`Core::rollback`] are never refused: what they need was
//! reserved when the cursor was opened and the transaction began.
//!
//! The main promise is that the history is legal: no write is lost, since a row that another session has changed, or that
//! was committed after the writer's snapshot, is refused at once. [`pins_of_a_cursor_are_one`] is the law that a cursor sees the
//! same rows of an extent at any two moments, whichever units it was lent. [`a_lent_unit_is_mended`] is the law that a build needs of
//! its extent no more than the unit that it is lent and the rows that are stale beside that (`specs/Tasks.antt`).
//!
//! A cursor may ask for an SCN, from the horizon on. [`Core::purge`] moves the horizon, and lets go of the versions that only older
//! SCNs show; nobody reads below it (`nobody_reads_below_the_horizon` of `im_history`).
//!
//! Start with `specs/Seen.antt` and `store.rt`; `specs/inner/Holds.antt` says how what is kept agrees with the history.
#![tactic(auto)]

mod answers;
mod chronicle;
mod cursors;
mod last_columns;
mod laws;
mod members;
mod purges;
mod refusals;
mod store;
mod tables;
mod transactions;
mod units;
mod weights;
mod writes;

pub use answers::{
    AddedColumn, Begun, Committed, Evicted, Made, Offer, Pin, Purged, Sent, Switched, Wrote,
};
pub use im_history::ShownRows;
pub use laws::{a_lent_unit_is_mended, pins_of_a_cursor_are_one};
pub use store::Core;
