//! What replies say.
//!
//! A [`Reply`] is what a line of a script is answered with: a [`Body`], the place in the history at which it was settled,
//! and one mark for each extent that a scan served. Each refusal is a [`Fault`] of its own, with the values that say why.
//! The faults that a statement's names have become faults by `From`, and the causes for which a call is refused by `Fault::of`, which
//! takes what the call was to do, its [`Aim`]. `specs/Causes.antt` says which.
//!
//! Contracts see [`Records`] as the list of the records, each the list of its cells, so two replies are equal in a contract
//! exactly where they say the same.
//!
//! Start with `body.rt`, then `fault.rt`.
#![tactic(auto)]

mod aim;
mod body;
mod causes;
mod fault;
mod records;
mod reply;
mod served;
mod task;

pub use aim::Aim;
pub use body::Body;
pub use fault::Fault;
pub use records::Records;
pub use reply::Reply;
pub use served::{How, Served};
pub use task::{Built, Ending};
