//! A script to its lines: what each line is, whom it names, its statement, or the byte of its error.
//!
//! A script is cut at each LF; every line counts. A line is too long, nothing (blanks or a comment), the line that ends a
//! prelude, or a prefix with a statement behind it (`specs/Forms.antt`). What the statement part says is a relation over
//! the tokens and the statements of its side (`Says`, in `specs/Lines.antt`). [`lines`] gives the line of each piece, in
//! order; a caller that goes line by line cuts by [`first_line`] and reads by [`line_of`]. A line for which memory ran out
//! says so by its kind, which no line without a statement part does.
//!
//! [`generate`] makes a large script of a seed and a number of rows. `specs/Generated.antt` has its lines.
//!
//! Start with `line.rt`, then `specs/Forms.antt` and `specs/Lines.antt`.
#![tactic(auto)]

mod cut;
mod form;
mod forms;
mod generated;
mod laws;
mod line;
mod reading;
mod script;

pub use cut::first_line;
pub use generated::{generate, generated_sizes_are};
pub use laws::one_kind;
pub use line::{Line, LineKind};
pub use reading::line_of;
pub use script::lines;
