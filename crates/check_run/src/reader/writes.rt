// What the statements that write come to.
use super::entry::{Change, Entry, What};
use super::record::Value;
use super::rows::{FIRST_COLUMN, View, given, rows_seen, table_called, view_of};
use super::script::Line;
use super::wrong::Wrong;
use std::alloc::Global;

/// Whether a change puts a value into a row of a table, or takes the row away where there is none.
fn is_change(change: Option<&Change>, table: usize, row: usize, put: Option<Value>) -> bool {
    let Some(change) = change else {
        return false;
    };
    let is_put = match &change.values {
        Some(values) => values.len() == 1 && values.first().copied() == put,
        None => put.is_none(),
    };
    is_put && change.table == table && change.row == row
}

/// Whether these changes to a table are those of an INSERT at a place.
fn is_insert(
    entries: &[Entry<'_>],
    line: &Line<'_>,
    place: usize,
    table: usize,
    changes: &[Change],
) -> bool {
    let first = given(entries, place, table);
    let mut is_so = changes.len() == line.rows();
    for at in 0..line.rows() {
        let put = Some(line.inserted(at));
        is_so = is_so && is_change(changes.get(at), table, first.saturating_add(at), put);
    }
    is_so
}

/// Whether these changes are those of an UPDATE or a DELETE that has this view.
fn is_update(
    alloc: Global,
    entries: &[Entry<'_>],
    line: &Line<'_>,
    view: &View,
    changes: &[Change],
) -> Result<bool, Wrong> {
    let rows = rows_seen(alloc, entries, view, FIRST_COLUMN)?;
    let mut found: usize = 0;
    let mut is_so = true;
    for (row, value) in &rows {
        if value.is_some() && *value == line.asked() {
            is_so = is_so && is_change(changes.get(found), view.table, *row, line.put());
            found = found.saturating_add(1);
        }
    }
    Ok(is_so && found == changes.len())
}

/// Whether what a line wrote at a place is what its statement comes to. An UPDATE or a DELETE that found no row has no write.
pub fn is_written(
    alloc: Global,
    entries: &[Entry<'_>],
    line: &Line<'_>,
    place: usize,
    entry: &Entry<'_>,
) -> Result<bool, Wrong> {
    if line.verb() != "INSERT" && line.verb() != "UPDATE" && line.verb() != "DELETE" {
        return Ok(entry.changes.is_empty());
    }
    let Some((table, _)) = table_called(entries, line.written()) else {
        return Ok(false);
    };
    let changes = entry.changes.as_slice();
    if line.verb() == "INSERT" {
        return Ok(is_insert(entries, line, place, table, changes));
    }
    match view_of(entries, place.saturating_add(1), entry.who, 0) {
        Some(view) => {
            let may_write = view.table == table && view.shows_own;
            Ok(may_write && is_update(alloc, entries, line, &view, changes)?)
        }
        None => Ok(false),
    }
}

/// How many entries from a place on are writes.
pub fn writes(entries: &[Entry<'_>], place: usize) -> usize {
    entries
        .iter()
        .skip(place)
        .filter(|entry| matches!(entry.what, What::Write { .. }))
        .count()
}
