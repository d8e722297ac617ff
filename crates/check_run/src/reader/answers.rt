// The answers to the lines of a race.
use super::Race;
use super::entry::{Entry, What};
use super::record::{Record, Value};
use super::replies::is_told;
use super::report::{Answer, Report};
use super::rows::{
    FIRST_COLUMN, Rows, View, column_called, extents, rows_seen, scn, table_called, view_of,
};
use super::script::{Line, Query, Script};
use super::units::unit_at;
use super::writes::{is_written, writes};
use super::wrong::{Wrong, check};
use std::alloc::Global;

/// Whether a reply has the place of an entry, and not that of a look.
fn has_entry(line: &Line<'_>, answer: &Answer<'_>) -> bool {
    match answer.field(1) {
        "error" | "rolled-back" | "served" | "end" => false,
        _ => line.verb() != "FETCH",
    }
}

/// Whether a reply has one record alone, which is that of the line's entry, where it has the place of one.
fn is_replied(line: &Line<'_>, answer: &Answer<'_>, reply: &Record<'_>) -> bool {
    match reply.field(1) {
        "error" => answer.records.len() == 1,
        "answer" => line.reply() == "answer",
        "rolled-back" => line.reply() == "rolled-back" && reply.says("rolled-back", &[]),
        "end" => line.reply() == "served" && reply.says("end", &[line.cursor()]),
        "served" => match answer.marks.first() {
            Some(mark) => line.reply() == "served" && mark.is_told(reply),
            None => false,
        },
        word => line.reply() == word && answer.records.len() == 1,
    }
}

/// The reply of a line is that of its statement and its entry, and the entry has what the statement comes to.
fn check_reply(
    alloc: Global,
    entries: &[Entry<'_>],
    line: &Line<'_>,
    answer: &Answer<'_>,
    who: usize,
    place: usize,
) -> Result<(), Wrong> {
    let wrong = Wrong::Reply(line.number);
    let reply = answer.records.first().ok_or(wrong)?;
    check(is_replied(line, answer, reply), wrong)?;
    if !has_entry(line, answer) {
        return check(place <= entries.len(), Wrong::Place(line.number));
    }
    let entry = entries.get(place).ok_or(Wrong::Place(line.number))?;
    check(entry.who == who, Wrong::Place(line.number))?;
    check(entry.asked() == line.scn(), wrong)?;
    check(is_told(alloc, entries, place, entry, reply)?, wrong)?;
    let is_good = is_written(alloc, entries, line, place, entry)?;
    check(is_good, Wrong::Write(line.number))
}

/// The greatest place of a line, and at least the place behind its entry, or 0.
fn last_place(line: &Line<'_>, answer: &Answer<'_>) -> usize {
    let behind = usize::from(answer.place.is_some() && has_entry(line, answer));
    let mut last = answer.place.unwrap_or(0).saturating_add(behind);
    for mark in &answer.marks {
        last = last.max(mark.place);
    }
    last
}

/// The greatest place of those lines of a session that come before a line.
fn last_before(script: &Script<'_>, report: &Report<'_>, line: usize, who: usize) -> usize {
    let mut last = 0;
    for (other, answer) in script.race.iter().zip(report.answers.iter()) {
        if other.number < line && other.who == Some(who) {
            last = last_place(other, answer).max(last);
        }
    }
    last
}

/// The places of a line are in order, and behind those of its session's earlier lines.
fn is_in_order(answer: &Answer<'_>, first: usize, length: usize) -> bool {
    let mut last = first;
    for mark in &answer.marks {
        if mark.place < last {
            return false;
        }
        last = mark.place;
    }
    let place = answer.place.unwrap_or(first);
    first <= place && last <= length
}

/// The places of a line are those that its reply wants.
fn check_places(
    script: &Script<'_>,
    report: &Report<'_>,
    line: &Line<'_>,
    answer: &Answer<'_>,
    who: usize,
    place: usize,
) -> Result<(), Wrong> {
    let entries = report.entries.as_slice();
    let first = last_before(script, report, line.number, who);
    let is_served = match answer.marks.first() {
        Some(mark) => answer.field(1) != "served" || mark.place == place,
        None => answer.field(1) != "served",
    };
    let is_good = is_in_order(answer, first, entries.len()) && is_served;
    check(is_good, Wrong::Place(line.number))
}

/// How many extents the steps of a cursor were served before a line.
fn steps_before(script: &Script<'_>, report: &Report<'_>, line: &Line<'_>, view: &View) -> usize {
    let mut steps: usize = 0;
    for (other, answer) in script.race.iter().zip(report.answers.iter()) {
        let is_before = other.number < line.number && other.who == Some(view.who);
        let is_step = other.verb() == "STEP" && other.cursor() == line.cursor();
        let is_served = answer.field(1) == "served" && answer.place > Some(view.place);
        if is_before && is_step && is_served {
            steps = steps.saturating_add(1);
        }
    }
    steps
}

/// The place of the entry that ends a scan: its write, or the entry that shuts its cursor.
fn scan_end(entries: &[Entry<'_>], view: &View, cursor: usize) -> usize {
    for (at, entry) in entries.iter().enumerate() {
        let is_end = match entry.what {
            What::Shut { cursor: shut } => shut == cursor,
            What::Write { .. } => cursor == 0,
            _ => false,
        };
        if is_end && at > view.place && entry.who == view.who {
            return at;
        }
    }
    entries.len()
}

/// Whether a line with this answer has as many marks as it should have, where so many extents are left.
fn is_counted(line: &Line<'_>, answer: &Answer<'_>, left: usize) -> bool {
    let count = answer.marks.len();
    match answer.field(1) {
        "answer" | "updated" | "deleted" => count == left,
        "served" => count == 1 && left > 0,
        "end" => count == 0 && left == 0,
        "error" => count == 0 || (line.asked().is_some() && count == left),
        _ => count == 0,
    }
}

/// A line was served those extents that were left for it, in order, while it scanned.
fn check_extents(
    script: &Script<'_>,
    report: &Report<'_>,
    line: &Line<'_>,
    answer: &Answer<'_>,
    view: &View,
) -> Result<(), Wrong> {
    let entries = report.entries.as_slice();
    let first = steps_before(script, report, line, view);
    let left = extents(entries, view.place, view.table).saturating_sub(first);
    let end = scan_end(entries, view, line.cursor());
    let mut is_good = is_counted(line, answer, left);
    for (index, mark) in answer.marks.iter().enumerate() {
        let is_next = mark.extent == first.saturating_add(index);
        is_good = is_good && is_next && mark.place > view.place && mark.place <= end;
    }
    check(is_good, Wrong::Extents(line.number))
}

/// Each extent was served so as the history says.
fn check_marks(
    alloc: Global,
    script: &Script<'_>,
    report: &Report<'_>,
    line: &Line<'_>,
    answer: &Answer<'_>,
    who: usize,
    place: usize,
) -> Result<(), Wrong> {
    let entries = report.entries.as_slice();
    let behind = place.saturating_add(usize::from(line.cursor() == 0));
    let Some(view) = view_of(entries, behind, who, line.cursor()) else {
        return check(answer.marks.is_empty(), Wrong::Extents(line.number));
    };
    check_extents(script, report, line, answer, &view)?;
    for mark in &answer.marks {
        let unit = unit_at(alloc, entries, &view, mark.place, mark.extent, line.asked())?;
        check(mark.unit == unit, Wrong::Mark(line.number))?;
    }
    Ok(())
}

/// What a query answers of rows.
fn result_of(
    alloc: Global,
    entries: &[Entry<'_>],
    view: &View,
    query: Query<'_>,
) -> Result<Option<Value>, Wrong> {
    let (name, column) = match query {
        Query::Count { table } => (table, None),
        Query::Sum { table, column } => (table, Some(column)),
    };
    let Some((table, created)) = table_called(entries, name) else {
        return Ok(None);
    };
    if table != view.table {
        return Ok(None);
    }
    let Some(column) = column else {
        let rows = rows_seen(alloc, entries, view, FIRST_COLUMN)?;
        return Ok(Some(i64::try_from(rows.len()).ok()));
    };
    let Some(column) = column_called(entries, table, created, column) else {
        return Ok(None);
    };
    let rows = rows_seen(alloc, entries, view, column)?;
    Ok(Some(sum(&rows)))
}

/// The sum of those values that are not NULL, if there are any.
fn sum(rows: &Rows) -> Value {
    let mut sum = None;
    for value in rows.values() {
        if let Some(value) = value {
            sum = Some(sum.unwrap_or(0i64).saturating_add(*value));
        }
    }
    sum
}

/// The answer to a query is what its snapshot gives.
fn check_answer(
    alloc: Global,
    script: &Script<'_>,
    entries: &[Entry<'_>],
    line: &Line<'_>,
    answer: &Answer<'_>,
    who: usize,
    place: usize,
) -> Result<(), Wrong> {
    let Some(query) = script.query(line, who) else {
        return Ok(());
    };
    let wrong = Wrong::Answer(line.number);
    let behind = place.saturating_add(usize::from(line.verb() != "FETCH"));
    let view = view_of(entries, behind, who, line.cursor()).ok_or(wrong)?;
    let [first, row] = answer.records.as_slice() else {
        return Err(wrong);
    };
    let is_good = first.count(2)? == scn(entries, view.snapshot)
        && first.field(3) == "1"
        && row.field(1) == "row"
        && Some(row.value(2)?) == result_of(alloc, entries, &view, query)?;
    check(is_good, wrong)
}

/// A line was settled at a place, unless it is refused before it is looked at.
fn check_line(
    alloc: Global,
    script: &Script<'_>,
    report: &Report<'_>,
    line: &Line<'_>,
    answer: &Answer<'_>,
) -> Result<(), Wrong> {
    let code = if answer.field(1) == "error" {
        answer.field(2)
    } else {
        ""
    };
    check(code != "99", Wrong::OutOfMemory(line.number))?;
    let is_refused = code == "01" || code == "02";
    check(
        answer.place.is_none() == is_refused,
        Wrong::Place(line.number),
    )?;
    let Some(place) = answer.place else {
        return Ok(());
    };
    let who = line.who.ok_or(Wrong::Place(line.number))?;
    let entries = report.entries.as_slice();
    check_places(script, report, line, answer, who, place)?;
    check_reply(alloc, entries, line, answer, who, place)?;
    check_marks(alloc, script, report, line, answer, who, place)?;
    if answer.field(1) == "answer" {
        check_answer(alloc, script, entries, line, answer, who, place)?;
    }
    Ok(())
}

/// Whether a line has a write.
fn has_write(answer: &Answer<'_>) -> bool {
    match answer.field(1) {
        "inserted" => true,
        "updated" | "deleted" => answer.field(2) != "0",
        _ => false,
    }
}

/// Each line of the race is answered so as the history says, and no other line wrote.
pub fn check_answers(
    alloc: Global,
    race: &Race<'_>,
    script: &Script<'_>,
    report: &Report<'_>,
) -> Result<(), Wrong> {
    let mut told: usize = 0;
    for (line, answer) in script.race.iter().zip(report.answers.iter()) {
        check_line(alloc, script, report, line, answer)?;
        told = told.saturating_add(usize::from(has_write(answer)));
    }
    let is_told = writes(report.entries.as_slice(), race.prelude) == told;
    check(is_told, Wrong::Writes)
}
