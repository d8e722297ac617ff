//! The calls of a store that several sides may share.
//!
//! [`Reach`] has the calls of the store. What a side knows is the history as it last saw it: each call goes on from there,
//! behind whatever entries others have added meanwhile, and its answer is a fact of the history at that moment. Others
//! never add an entry of a number that this side speaks for. [`Sole`] is a store that nobody else has: it speaks for every
//! number, and nobody adds an entry between its calls.
//!
//! Start with `specs/Sides.antt`, then `reach.rt`. What is left of a line that is played over a side is said in
//! `specs/Rests.antt`, for sessions and the background alike.
#![tactic(auto)]

mod reach;
mod sole;

pub use reach::Reach;
pub use sole::Sole;
