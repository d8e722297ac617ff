//! The lines of a script, played one after the other over a store that nobody else has.
//!
//! [`Players`] are the sessions of a script and its background. Contracts see what they keep, and `specs/Machine.antt` has the
//! reference machine: what happened so far, and what each session and the background keep.
//!
//! The main promise is the clause `answers` of [`play_line`]: what the line asks for (`specs/Requests.antt`) is what the machine
//! plays, and the reply is the machine's; [`settled`] answers the lines that no player is asked for. [`play_lines`] plays many, and
//! [`Players::drop_held`] ends the builds that are held. [`nobody_leaves`] is the law that no line makes a session leave.
//! Start with `specs/Requests.antt`, then `players.rt`.
#![tactic(auto)]

mod laws;
mod lines;
mod players;
mod store;
mod told;

pub use laws::nobody_leaves;
pub use lines::read_line;
pub use players::{BACKGROUND, Players, play_line, play_lines};
pub use store::empty_store;
pub use told::settled;
