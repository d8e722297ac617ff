// The texts of replies, and the lines before a race.
use super::Race;
use super::entry::{Entry, What};
use super::horizon::{horizon, kept};
use super::record::Record;
use super::report::Report;
use super::rows::{extents, scn, tables, view_of};
use super::script::{Line, Script};
use super::writes::is_written;
use super::wrong::{Wrong, check};
use std::alloc::Global;

/// Whether a reply is that of a line whose place is an entry that opened a cursor.
fn is_open_told(
    entries: &[Entry<'_>],
    place: usize,
    entry: &Entry<'_>,
    cursor: usize,
    reply: &Record<'_>,
) -> bool {
    let word = reply.field(1);
    if word == "updated" || word == "deleted" {
        return cursor == 0 && reply.says(word, &[0]);
    }
    if word == "answer" {
        return cursor == 0;
    }
    match view_of(entries, place.saturating_add(1), entry.who, cursor) {
        Some(view) => {
            let count = extents(entries, place, view.table);
            reply.says("opened", &[cursor, scn(entries, view.snapshot), count])
        }
        None => false,
    }
}

/// Whether a reply is that of a line whose place is an entry that writes.
fn is_write_told(entry: &Entry<'_>, reply: &Record<'_>) -> bool {
    let count = entry.changes.len();
    match entry.changes.first() {
        Some(first) => {
            reply.says("inserted", &[count, first.row])
                || reply.says("updated", &[count])
                || reply.says("deleted", &[count])
        }
        None => false,
    }
}

/// Whether a reply is that of a line which has the place of this entry. The records of an answer are compared elsewhere.
pub fn is_told(
    alloc: Global,
    entries: &[Entry<'_>],
    place: usize,
    entry: &Entry<'_>,
    reply: &Record<'_>,
) -> Result<bool, Wrong> {
    let behind = place.saturating_add(1);
    Ok(match entry.what {
        What::Create { .. } => reply.says(
            "created",
            &[tables(entries, behind), scn(entries, behind)],
        ),
        What::Add { table, .. } => reply.says("altered", &[table]),
        What::Open { cursor, .. } => is_open_told(entries, place, entry, cursor, reply),
        What::Shut { cursor } => reply.says("closed", &[cursor]),
        What::Write { .. } => is_write_told(entry, reply),
        What::Commit => reply.says("committed", &[scn(entries, behind)]),
        What::Purge => {
            let count = kept(alloc, entries, behind)?;
            reply.says("purged", &[horizon(entries, behind), count])
        }
        _ => false,
    })
}

/// The place behind the entries of a line before the race that begin at a place: a CREATE TABLE has one for the column store too.
fn behind(entries: &[Entry<'_>], place: usize) -> usize {
    let next = place.saturating_add(1);
    match entries.get(next) {
        Some(entry) if matches!(entry.what, What::Memory { .. }) => next.saturating_add(1),
        _ => next,
    }
}

/// Whether a line before the race is answered so as the entry at a place says.
fn is_early(
    alloc: Global,
    entries: &[Entry<'_>],
    line: &Line<'_>,
    place: usize,
    reply: &Record<'_>,
) -> Result<bool, Wrong> {
    let Some(entry) = entries.get(place) else {
        return Ok(false);
    };
    let is_reply = reply.field(1) == line.reply() && is_told(alloc, entries, place, entry, reply)?;
    Ok(is_reply && line.who == Some(entry.who) && is_written(alloc, entries, line, place, entry)?)
}

/// The lines before the race are answered so as their entries say, which stand one behind the other.
pub fn check_prelude(
    alloc: Global,
    race: &Race<'_>,
    script: &Script<'_>,
    report: &Report<'_>,
) -> Result<(), Wrong> {
    let entries = report.entries.as_slice();
    let mut place = 0;
    for (line, reply) in script.prelude.iter().zip(report.prelude.iter()) {
        let is_good = is_early(alloc, entries, line, place, reply)?;
        check(is_good, Wrong::Early(line.number))?;
        place = behind(entries, place);
    }
    check(place == race.prelude, Wrong::Early(0))
}
