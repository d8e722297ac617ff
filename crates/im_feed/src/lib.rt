//! The commits of a store on their way to a second one in the same process.
//!
//! A [`Feed`] is a queue of [`Member`](im_history::Member)s with two ends. The sender reads the members of a store in order and pushes
//! them ([`feed`]); the standby pops them ([`next`]). Each end has a [`FeedPass`], which has no bytes: it is what its thread knows of
//! the feed. Once both threads have ended, the passes [`meet`].
//!
//! The main promise is that what was popped is what was pushed, in order and with nothing left out, and that it begins the members
//! of a lawful history.
//!
//! Start with `specs/Lawful.antt` and `specs/Passes.antt`, then read `queue.rt`, `specs/Sent.antt` and `sending.rt`.
#![tactic(auto)]

mod laws;
mod queue;
mod rule;
mod sending;

pub use laws::what_was_popped_was_committed;
pub use queue::{Feed, FeedPass, ROOM, make_feed, meet, next};
pub use sending::{Fed, feed};
