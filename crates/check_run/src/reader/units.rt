// The units of a history, and which builds may come next.
use super::entry::{Entry, What};
use super::record::Value;
use super::report::Unit;
use super::rows::{
    FIRST_COLUMN, View, committed, extent_rows, extents, rows_seen, scn, stale, tables,
};
use super::wrong::Wrong;
use std::alloc::Global;

/// The place at which the build began whose unit is in use for an extent at a place, if one is.
fn unit_begun(entries: &[Entry<'_>], place: usize, table: usize, extent: usize) -> Option<usize> {
    let mut found = None;
    for entry in entries.iter().take(place) {
        if let What::Switch { id } = entry.what {
            for (at, begun) in entries.iter().enumerate() {
                if begun.what == (What::Build { id, table, extent }) {
                    found = Some(at);
                }
            }
        }
    }
    found
}

/// The values of an extent that are committed at a place.
fn values_at(
    alloc: Global,
    entries: &[Entry<'_>],
    place: usize,
    table: usize,
    extent: usize,
) -> Result<Vec<Value>, Wrong> {
    let rows = rows_seen(alloc, entries, &committed(table, place), FIRST_COLUMN)?;
    let per = extent_rows(entries, table).unwrap_or(1);
    let mut values = Vec::new(alloc);
    for (row, value) in &rows {
        if row.checked_div(per) == Some(extent) {
            values.push(*value)?;
        }
    }
    Ok(values)
}

/// Whether a value lies outside the least and the greatest of these.
fn is_outside(values: &[Value], asked: i64) -> bool {
    let mut has_less = false;
    let mut has_greater = false;
    for value in values {
        if let Some(value) = value {
            has_less = has_less || *value <= asked;
            has_greater = has_greater || *value >= asked;
        }
    }
    !has_less || !has_greater
}

/// The unit that serves an extent of a view at a place: the one in use, unless it is newer than the snapshot.
pub fn unit_at(
    alloc: Global,
    entries: &[Entry<'_>],
    view: &View,
    place: usize,
    extent: usize,
    asked: Value,
) -> Result<Option<Unit>, Wrong> {
    let Some(begun) = unit_begun(entries, place, view.table, extent) else {
        return Ok(None);
    };
    let since = scn(entries, begun);
    if since > scn(entries, view.snapshot) {
        return Ok(None);
    }
    let stale = stale(alloc, entries, view, extent, since)?;
    let is_pruned = match asked {
        Some(asked) => {
            let values = values_at(alloc, entries, begun, view.table, extent)?;
            is_outside(values.as_slice(), asked)
        }
        None => false,
    };
    Ok(Some(Unit {
        is_pruned,
        scn: since,
        stale,
    }))
}

/// Whether a table is in the column store at a place.
fn is_member(entries: &[Entry<'_>], place: usize, table: usize) -> bool {
    entries
        .iter()
        .take(place)
        .any(|entry| entry.what == (What::Memory { table }))
}

/// Whether a build of an extent is held at a place, or the extent waits since its unit had no room.
fn is_taken(entries: &[Entry<'_>], place: usize, table: usize, extent: usize) -> bool {
    let mut last = None;
    let mut is_taken = false;
    for entry in entries.iter().take(place) {
        match entry.what {
            What::Build {
                id,
                table: other,
                extent: at,
            } if other == table && at == extent => {
                last = Some(id);
                is_taken = true;
            }
            What::Switch { id } | What::Cancel { id } if last == Some(id) => {
                is_taken = entry.record.field(5) == "1"
            }
            _ => {}
        }
    }
    is_taken
}

/// Whether a build of an extent may begin at a place: there is no unit, or a fifth of its rows is stale.
pub fn may_build(
    alloc: Global,
    entries: &[Entry<'_>],
    place: usize,
    table: usize,
    extent: usize,
) -> Result<bool, Wrong> {
    let is_there = is_member(entries, place, table) && extent < extents(entries, place, table);
    if !is_there || is_taken(entries, place, table, extent) {
        return Ok(false);
    }
    let Some(begun) = unit_begun(entries, place, table, extent) else {
        return Ok(true);
    };
    let view = committed(table, place);
    let stale = stale(alloc, entries, &view, extent, scn(entries, begun))?;
    let rows = values_at(alloc, entries, begun, table, extent)?.len();
    Ok(stale.saturating_mul(5) >= rows.max(1))
}

/// Whether any build may begin at a place.
pub fn has_build(alloc: Global, entries: &[Entry<'_>], place: usize) -> Result<bool, Wrong> {
    for before in 0..tables(entries, place) {
        let table = before.saturating_add(1);
        for extent in 0..extents(entries, place, table) {
            if may_build(alloc, entries, place, table, extent)? {
                return Ok(true);
            }
        }
    }
    Ok(false)
}
