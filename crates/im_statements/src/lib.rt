//! The plans of statements: what each reads, adds and answers, turn by turn, and what it does to what its session keeps.
//!
//! A statement of a session is a plan of `im_plan`, whose outcome is a reply and an effect on the session's cursors
//! (`specs/Outcomes.antt`). `specs/Turns.antt` has what plans are made of, `specs/Scans.antt` the scans, whose extents are served each at
//! a turn of its own, and `specs/Writes.antt`, `Cursors.antt` and `Definitions.antt` the statements. `specs/Statements.antt` puts names
//! before them.
//!
//! [`lines_keep_agreement`] is the law that what a session keeps agrees with its history (`specs/Agreement.antt`), and that replies say
//! whether a transaction is open (`specs/Transaction.antt`). [`lines_tell_of_columns`] is the law that a line is refused for other columns
//! of its table only where others added them meanwhile (`specs/Altered.antt`). [`rounds_do_not_matter`] is the law that a RUN comes to the same in all
//! numbers of rounds that are enough for it (`specs/Rounds.antt`). Beside these the crate has definitions, and the one enum that they
//! and the sessions share. Start with `specs/Turns.antt`, then `specs/Statements.antt`.
#![tactic(auto)]

mod laws;
mod rewriting;

pub use laws::{
    lines_keep_agreement, lines_tell_of_columns, own_cursors_are, rounds_do_not_matter,
};
pub use rewriting::Rewriting;
