//! The build that comes next, found at once.
//!
//! Which build comes next is said of the history alone: the most urgent extent that is to be populated, then the most urgent
//! one whose unit is past the threshold, then, while credits are left, the most urgent one whose unit has a stale row. A
//! [`Demand`] counts what of this the entries say, [`next_task`] reads the rest where it is kept: the tables, the row numbers
//! given, and the first extent of a table that the directory of units knows for each of the three lists.
//!
//! Start with `specs/Demand.antt`, then `demand.rt`, `specs/Queues.antt` and `next.rt`.
#![tactic(auto)]

mod demand;
mod next;
mod rank;
mod reason;
mod sources;

pub use demand::Demand;
pub use next::next_task;
