//! A plain, slow reader of the report of a race. It shares nothing with the engine: it cuts the text into records, and computes what it
//! compares by going through the whole history again and again.
//!
//! It reads races over tables of one column of numbers, so no field is quoted, and replays what their statements come to:
//!
//! - before the race CREATE TABLE, INSERT, COMMIT and PURGE alone
//! - in the race also UPDATE and DELETE with one condition `COLUMN = N`, sums and counts of a whole table by SELECT or by a cursor that
//!   is opened there, perhaps as of an SCN, COMMIT and ROLLBACK
//! - in the race also ALTER TABLE that adds a column of numbers, to tables that are only read in it from there on
//! - no EVICT, no TRICKLE, and no place in the column store that is left or of the priority `none`: it refuses a report of these
//!
//! It passes over the values of errors and whether they are due, the columns and the shape of a table that is created, the name of a column that is added, which of those
//! builds that may begin comes first, whether units fit into the area, and how many turns a worker has.
mod answers;
mod entry;
mod horizon;
mod record;
mod replies;
mod report;
mod rows;
mod rules;
mod script;
mod units;
mod writes;
mod wrong;

use answers::check_answers;
use replies::check_prelude;
use report::Report;
use rules::check_history;
use script::{Line, Script};
use std::alloc::Global;
use std::str;
pub use wrong::Wrong;
use wrong::check;

/// What the reader is told of a race.
#[derive(Clone, Copy)]
pub struct Race<'a> {
    pub script: &'a str,
    /// How many entries of the history the lines before the race made.
    pub prelude: usize,
    /// How many workers take part.
    pub workers: usize,
}

/// The lines that were answered are these, each once and in order.
fn check_lines(lines: &[Line<'_>], answered: &[usize]) -> Result<(), Wrong> {
    for (index, line) in lines.iter().enumerate() {
        let is_answered = answered.get(index).copied() == Some(line.number);
        check(is_answered, Wrong::Lines(line.number))?;
    }
    match answered.get(lines.len()) {
        Some(number) => Err(Wrong::Lines(*number)),
        None => Ok(()),
    }
}

/// The report has all its parts.
fn check_parts(
    alloc: Global,
    race: &Race<'_>,
    script: &Script<'_>,
    report: &Report<'_>,
) -> Result<(), Wrong> {
    let mut early = Vec::new(alloc);
    for reply in &report.prelude {
        early.push(reply.count(0)?)?;
    }
    let mut answered = Vec::new(alloc);
    for answer in &report.answers {
        answered.push(answer.line)?;
    }
    check_lines(script.prelude.as_slice(), early.as_slice())?;
    check(report.ends.len() == race.workers, Wrong::Workers)?;
    check_lines(script.race.as_slice(), answered.as_slice())
}

/// Reads the report of a race, and says what is wrong with it, if anything is.
pub fn read_report(alloc: Global, race: &Race<'_>, report: &[u8]) -> Result<(), Wrong> {
    let Ok(text) = str::from_utf8(report) else {
        return Err(Wrong::NoText);
    };
    let script = Script::read(alloc, race.script)?;
    let report = Report::read(alloc, text)?;
    check_parts(alloc, race, &script, &report)?;
    check_history(alloc, race, &script, &report)?;
    check_prelude(alloc, race, &script, &report)?;
    check_answers(alloc, race, &script, &report)
}
