// What is read at a place, and the horizon below which no SCN may be asked for.
use super::entry::{Entry, What};
use super::rows::{
    FIRST_COLUMN, committed, extents, reached, rows_seen, scn, snapshot, tables, touched, view_of,
};
use super::wrong::Wrong;
use std::alloc::Global;

/// Whether a number has a cursor open at a place.
pub fn is_cursor_open(entries: &[Entry<'_>], place: usize, who: usize, cursor: usize) -> bool {
    let mut is_open = false;
    for entry in entries.iter().take(place) {
        match entry.what {
            What::Open { cursor: other, .. } if entry.who == who && other == cursor => is_open =
                true,
            What::Shut { cursor: other } if entry.who == who && other == cursor => is_open = false,
            _ => {}
        }
    }
    is_open
}

/// Who holds a build at a place, if anybody does.
pub fn holder(entries: &[Entry<'_>], place: usize, id: usize) -> Option<usize> {
    let mut holder = None;
    for entry in entries.iter().take(place) {
        match entry.what {
            What::Build { id: other, .. } if other == id => holder = Some(entry.who),
            What::Switch { id: other } | What::Cancel { id: other } if other == id => holder = None,
            _ => {}
        }
    }
    holder
}

/// The SCN that a cursor of a number reads at which is open at a place, if it is.
fn cursor_scn(entries: &[Entry<'_>], place: usize, who: usize, cursor: usize) -> Option<usize> {
    if !is_cursor_open(entries, place, who, cursor) {
        return None;
    }
    let view = view_of(entries, place, who, cursor)?;
    Some(scn(entries, view.snapshot))
}

/// The least SCN that somebody may still read at, at a place: a statement, an open cursor or a build that is held.
fn keep(entries: &[Entry<'_>], place: usize) -> usize {
    let mut least = scn(entries, place);
    for (at, entry) in entries.iter().enumerate().take(place) {
        let read = match entry.what {
            What::Open { cursor, .. } => cursor_scn(entries, place, entry.who, cursor),
            What::Build { id, .. } if holder(entries, place, id).is_some() => Some(scn(
                entries, at,
            )),
            _ => None,
        };
        least = least.min(scn(entries, snapshot(entries, place, entry.who)));
        least = least.min(read.unwrap_or(least));
    }
    least
}

/// The least SCN that may be asked for at a place: what the last purge had to keep.
pub fn horizon(entries: &[Entry<'_>], place: usize) -> usize {
    let mut horizon = 0;
    for (at, entry) in entries.iter().enumerate().take(place) {
        if entry.what == What::Purge {
            horizon = keep(entries, at);
        }
    }
    horizon
}

/// Whether an opening at a place may ask for an SCN, if it asks for one.
pub fn may_ask(entries: &[Entry<'_>], place: usize, asked: Option<usize>) -> bool {
    match asked {
        Some(asked) => horizon(entries, place) <= asked && asked <= scn(entries, place),
        None => true,
    }
}

/// How many versions of a table are kept at a place: one for each row number and commit behind the horizon that touched it, and one
/// for each row at the horizon.
fn kept_of(
    alloc: Global,
    entries: &[Entry<'_>],
    place: usize,
    table: usize,
) -> Result<usize, Wrong> {
    let horizon = horizon(entries, place);
    let view = committed(table, reached(entries, horizon));
    let mut kept = rows_seen(alloc, entries, &view, FIRST_COLUMN)?.len();
    for (at, entry) in entries.iter().enumerate().take(place) {
        if entry.what == What::Commit && scn(entries, at) >= horizon {
            for extent in 0..extents(entries, at, table) {
                let rows = touched(alloc, entries, at, entry.who, table, extent)?;
                kept = kept.saturating_add(rows);
            }
        }
    }
    Ok(kept)
}

/// How many versions of all tables are kept at a place.
pub fn kept(alloc: Global, entries: &[Entry<'_>], place: usize) -> Result<usize, Wrong> {
    let mut kept: usize = 0;
    for before in 0..tables(entries, place) {
        let rows = kept_of(alloc, entries, place, before.saturating_add(1))?;
        kept = kept.saturating_add(rows);
    }
    Ok(kept)
}
