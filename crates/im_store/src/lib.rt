//! One store that sessions and workers share, each in a thread of its own.
//!
//! A [`Store`] hands its core round in a turn (`im_turn`). Each thread has a [`Pass`] with a number of its own, and calls the store
//! by a [`Shared`], which is a `Reach` (`im_reach`): each call takes the core, calls it, and gives it back. So whoever has the core has it for one call
//! alone: a scan reads an extent in one turn, and makes its part of the answer outside.
//!
//! What a side knows is the history as its pass has seen it last. The main promise is that of `Reach`: each call goes on from there,
//! behind entries of others alone. When all passes have joined, the history has the entries of each, once and in order, and no others.
//!
//! Start with `specs/Sides.antt`, then `store.rt` and `shared.rt`.
#![tactic(auto)]

mod calls;
mod handed;
mod laws;
mod shared;
mod store;

pub use handed::Handed;
pub use laws::{columns_come_from_others, no_side_falls_back};
pub use shared::Shared;
pub use store::{Pass, Store};
