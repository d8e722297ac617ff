//! The program's one call, [`run`]: it takes a script, from a source or made, plays it line by line or as a race, and writes the
//! replies or the report to a sink.
//!
//! What must be believed is in `specs/`. The lines of a script are played by `im_play`, over a store that nobody else has, races are
//! held by `im_race`, and texts are those of `im_text`. `Play.antt` says what each mode comes to, `Reports.antt` has the text of a
//! report, and `Exits.antt` the exit statuses. What stands in `specs/inner/` is for the proofs alone.
//!
//! The main promise is the clause `done` of [`run`]. Start with `top.rt`, then `specs/Play.antt`, then `modes.rt`.
#![tactic(auto)]

mod ends;
mod modes;
mod play;
mod report;
mod shown;
mod status;
mod top;
mod writing;

pub use im_words::Word;
pub use status::Status;
pub use top::run;
