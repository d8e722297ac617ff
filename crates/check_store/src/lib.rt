//! What no script shows of a store: what a small one refuses, since the program gives its stores the limits of the engine; and a build
//! whose rows are read behind a commit to its extent, or behind the evict of its unit and another build, since BEGIN reads them at once;
//! what the turns of a sender of its commits come to; and a second store that takes these.
//!
//! Nothing here is for callers.
#![tactic(auto)]

#[cfg(test)]
mod builds;
#[cfg(test)]
mod feeds;
#[cfg(test)]
mod limits;
#[cfg(test)]
mod lines;
#[cfg(test)]
mod standby;
