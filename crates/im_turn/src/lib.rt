//! One value that is handed round between threads, with one history.
//!
//! A `Turn` keeps a value that has a log, such as a store with its history of changes. A `Pass` is the right to take the
//! value. Whoever takes it has it alone, may add entries of the pass's number to its log, and gives it back.
//!
//! Contracts see a pass as what it knows: its number, the log as it has seen it, its own entries, and the passes that
//! were joined into it (`specs/Passes.antt`). They see a turn as its identity (`specs/Turns.antt`).
//!
//! The main promise is that the log is one history. Each `take` finds what the pass had seen and then entries of others
//! alone, and when the turn is closed, the log has the entries of each pass, whole and in order, and no others.
//!
//! Start with `Logged`, then read `take` and `give` in `hold.rt`, and the rule that each step keeps in `specs/inner/Rule.antt`.
#![tactic(auto)]

mod hold;
mod logged;
mod pass;
mod rule;
mod share;
mod turn;
mod view;

pub use logged::Logged;
pub use pass::Pass;
pub use turn::Turn;
