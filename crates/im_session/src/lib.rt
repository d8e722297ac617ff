//! The statements of a session, played over a store that several sessions may share.
//!
//! A statement goes by its plan (`im_statements`): each call of the store is one turn of it, others may come between two
//! calls, and the reply is what the plan says of the history at that turn. So one body serves a store that nobody else has
//! and one that is shared: it is written over `Reach` of `im_reach`.
//!
//! [`Session::execute`] plays one statement: it goes by its plan, or runs out of memory on the way and is amended, and what the
//! session keeps of its cursors agrees with the history before and after (`specs/Sessions.antt`, `specs/Cursors.antt`).
//!
//! The contract of each inner function says what is left of its line (`specs/inner/Rests.antt`). A statement that scans opens
//! a cursor of its own and serves its extents each at a turn of its own (`specs/inner/Scans.antt`). What they give is made of what was
//! read of them, and many of them are gone over in chunks, on threads of their own (`specs/inner/Pins.antt`).
//!
//! Start with `session.rt` and `playing.rt`, then `transaction.rt`, whose statements make one call each, then `cursor.rt`,
//! `serving.rt`, `parts.rt` and `scan.rt`.
#![tactic(auto)]

mod changes;
mod context;
mod cursor;
mod definition;
mod ending;
mod inserts;
mod parts;
mod playing;
mod refusals;
mod rewriting;
mod scan;
mod serving;
mod session;
mod statement;
mod transaction;

pub use cursor::Cursor;
pub use session::Session;
