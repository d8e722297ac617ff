//! The exact text of replies, and of the report of a race.
//!
//! [`Waiting`] is the text that waits to be written, and [`Waiting::put`] puts a [`Passage`] behind it. `passage_text`, in
//! `specs/Passages.antt`, says what the text of each passage is, and exactly that is put.
//!
//! What a line of a script is answered with is records of fields with commas between them, each record on a line of its own behind
//! the number of the line that it answers. `records_of`, in `specs/Bodies.antt`, lists the records
//! of each body with their fields, `specs/Faults.antt` those of each refusal, and `record_text`, in `specs/Records.antt`,
//! says how fields are written. `reply_text`, in `specs/Replies.antt`, is the whole.
//!
//! The report of a race has more: its history, how its workers ended, and its lines with the places at which they were
//! answered and served. `specs/Entries.antt` lists the records of each kind of entry, and `specs/Report.antt` has the rest.
//!
//! Start with `specs/Bodies.antt` and `specs/Records.antt`, then `waiting.rt`, `passage.rt` and `page.rt`.
#![tactic(auto)]

mod bodies;
mod entries;
mod extents;
mod faults;
mod field;
mod page;
mod passage;
mod report;
mod rows;
mod tasks;
mod waiting;

pub use passage::Passage;
pub use waiting::Waiting;
