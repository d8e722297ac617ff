//! A race: the lines of a script's prelude, played one after the other, and those behind it, which sessions play beside each other
//! and beside workers, over one store.
//!
//! `specs/Lines.antt` says which lines are the prelude's and which are raced, and by whom. `specs/Jobs.antt` has what a session and a
//! worker do in a race, whatever others do meanwhile, and `specs/Race.antt` what the report of a whole race must show.
//!
//! The main promise is that of [`race`]: its report is that of a lawful race. It stands on
//! [`a_job_is_judged_by_the_whole_history`]: what a session did, as far as it knew the history when it left, holds of the whole one.
//! What a refused line tells of columns that others added meanwhile is [`a_race_tells_of_columns`].
//!
//! Start with `specs/Race.antt`, then `racing.rt` and `course.rt`.
#![tactic(auto)]

mod course;
mod job;
mod jobs;
mod laws;
mod lines;
mod lineup;
mod playing;
mod racing;
mod replies;
mod report;
mod sorting;

pub use course::RaceOptions;
pub use laws::{a_job_is_judged_by_the_whole_history, a_race_tells_of_columns};
pub use racing::race;
pub use report::Report;
