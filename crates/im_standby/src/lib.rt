//! A second store in the same process: it has no clients that write, and shows the rows of a store by that store's members.
//!
//! A [`Standby`] applies members (`im_history`) one after the other, and shows what they make: the tables with the columns that they
//! got, and of each table the rows, by row number. It keeps no member. Contracts say what it shows by the members that it has applied
//! (`IsOf` of `specs/Standing.antt`, `specs/Members.antt`). A [`Follower`] is a standby that takes its members from a feed (`im_feed`),
//! and keeps the one that it could not apply for want of memory.
//!
//! The main promise is [`a_standby_has_the_rows_of_the_store`]: where the members are the first of a history, each row, each table and
//! each column is the one that was committed at the SCN of their number (`specs/Store.antt`).
//!
//! Start with `specs/Members.antt` and `specs/Standing.antt`, then read `standby.rt` and `follower.rt`.
#![tactic(auto)]

mod ends;
mod follower;
mod laws;
mod standby;

pub use follower::{Drained, Follower};
pub use laws::a_standby_has_the_rows_of_the_store;
pub use standby::Standby;
