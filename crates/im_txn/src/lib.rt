//! What each session and worker has going on: its pending changes, its transaction, its cursors and its row locks.
//!
//! Contracts see [`Sessions`] as `specs/Standing.antt` says: the activity of each caller, the lock cells of
//! each table by row number, and how many entries are owed. Each is read by a function that answers nothing past the
//! ends, so room that was made is not seen.
//!
//! `specs/Agrees.antt` says what it is for them to agree with a history. [`agreement_is_kept`] says that each call
//! keeps this together with the entry that it goes with; callers cite `proofs/ForCallers.antt` for it. No call looks at
//! all sessions, rows or tables. What is pending is kept as each write wrote it, so rows put together cost as one.
//!
//! Start with `specs/Activity.antt`, then `session.rt`, `specs/Standing.antt`, `specs/Effects.antt` and `sessions.rt`.
#![tactic(auto)]

mod cursor;
mod lasts;
mod laws;
mod locks;
mod session;
mod sessions;

pub use cursor::Cursor;
pub use laws::agreement_is_kept;
pub use sessions::Sessions;
