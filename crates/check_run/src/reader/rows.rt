// What a history says of rows, by replay.
use super::entry::{Change, Entry, What};
use super::record::Value;
use super::wrong::Wrong;
use std::alloc::Global;
use std::collections::{BTreeMap, BTreeSet};

/// What a cursor sees.
#[derive(Clone, Copy)]
pub struct View {
    pub who: usize,
    pub table: usize,
    /// The place at which the cursor was opened.
    pub place: usize,
    /// How many entries its snapshot has.
    pub snapshot: usize,
    /// Whether it shows what its session had pending: not where it asked for an SCN.
    pub shows_own: bool,
}

/// Whether an entry has an SCN of its own: a commit, a creation or a column that is added.
fn has_scn(entry: &Entry<'_>) -> bool {
    matches!(
        entry.what,
        What::Commit | What::Create { .. } | What::Add { .. }
    )
}

/// The SCN at a place: how many entries before it have one.
pub fn scn(entries: &[Entry<'_>], place: usize) -> usize {
    entries
        .iter()
        .take(place)
        .filter(|entry| has_scn(entry))
        .count()
}

/// The first place at which an SCN was reached, if it was.
pub fn reached(entries: &[Entry<'_>], asked: usize) -> usize {
    let mut place = 0;
    for (at, entry) in entries.iter().enumerate() {
        if has_scn(entry) && scn(entries, at) < asked {
            place = at.saturating_add(1);
        }
    }
    place
}

/// The place behind the last transaction of a number that ended before a place.
fn transaction_start(entries: &[Entry<'_>], place: usize, who: usize) -> usize {
    let mut start = 0;
    for (at, entry) in entries.iter().enumerate().take(place) {
        if entry.who == who && matches!(entry.what, What::Commit | What::Rollback) {
            start = at;
        }
    }
    start
}

/// Whether a transaction of a number is open at a place.
pub fn is_open(entries: &[Entry<'_>], place: usize, who: usize) -> bool {
    let start = transaction_start(entries, place, who);
    entries.iter().take(place).skip(start).any(|entry| {
        entry.who == who && matches!(entry.what, What::Begin { .. } | What::Write { .. })
    })
}

/// How many entries the snapshot of a statement has that a number began at a place.
pub fn snapshot(entries: &[Entry<'_>], place: usize, who: usize) -> usize {
    let start = transaction_start(entries, place, who);
    let mut snapshot = place;
    for (at, entry) in entries.iter().enumerate().take(place).skip(start) {
        if entry.who == who && entry.what == (What::Begin { keeps: true }) {
            snapshot = at;
        }
    }
    snapshot
}

/// What a cursor of a number sees that is open at a place.
pub fn view_of(entries: &[Entry<'_>], place: usize, who: usize, cursor: usize) -> Option<View> {
    let mut found = None;
    for (at, entry) in entries.iter().enumerate().take(place) {
        match entry.what {
            What::Open {
                cursor: opened,
                table,
                asked,
            } if entry.who == who && opened == cursor => {
                found = Some(View {
                    who,
                    table,
                    place: at,
                    snapshot: match asked {
                        Some(asked) => reached(entries, asked),
                        None => snapshot(entries, at, who),
                    },
                    shows_own: asked.is_none(),
                })
            }
            _ => {}
        }
    }
    found
}

/// What is committed of a table at a place.
pub fn committed(table: usize, place: usize) -> View {
    View {
        who: 0,
        table,
        place: 0,
        snapshot: place,
        shows_own: false,
    }
}

/// A column of a table.
#[derive(Clone, Copy)]
pub struct Column {
    /// Its place in a row, from 0.
    pub at: usize,
    /// What rows have in it that are too short for it.
    pub default: Value,
}

/// The first column of a table, which is there from its creation.
pub const FIRST_COLUMN: Column = Column {
    at: 0,
    default: None,
};

/// The column of a name that a table got behind its creation.
fn added_column(
    entries: &[Entry<'_>],
    table: usize,
    created: &Entry<'_>,
    name: &str,
) -> Option<Column> {
    let mut at = created.columns();
    for entry in entries {
        if let What::Add {
            table: other,
            default,
        } = entry.what
        {
            if other == table {
                if entry.record.field(5) == name {
                    return Some(Column { at, default });
                }
                at = at.saturating_add(1);
            }
        }
    }
    None
}

/// The column of a name of a table that an entry created.
pub fn column_called(
    entries: &[Entry<'_>],
    table: usize,
    created: &Entry<'_>,
    name: &str,
) -> Option<Column> {
    match created.column(name) {
        Some(at) => Some(Column { at, default: None }),
        None => added_column(entries, table, created, name),
    }
}

/// Rows by their numbers.
pub type Rows = BTreeMap<usize, Value>;

/// Makes a change to rows, of which a column is kept.
fn make(rows: &mut Rows, change: &Change, column: Column) -> Result<(), Wrong> {
    match &change.values {
        Some(values) => {
            let value = values.get(column.at).copied().unwrap_or(column.default);
            rows.insert(change.row, value)?;
        }
        None => {
            rows.remove(&change.row);
        }
    }
    Ok(())
}

/// Makes the changes to a table that a number's transaction made before a place at which it was open.
fn make_pending(
    rows: &mut Rows,
    entries: &[Entry<'_>],
    place: usize,
    who: usize,
    table: usize,
    column: Column,
) -> Result<(), Wrong> {
    let start = transaction_start(entries, place, who);
    for entry in entries.iter().take(place).skip(start) {
        if entry.who == who {
            for change in &entry.changes {
                if change.table == table {
                    make(rows, change, column)?;
                }
            }
        }
    }
    Ok(())
}

/// The rows that a view sees: those of its snapshot, with what its own session had pending put on top, if it shows that.
pub fn rows_seen(
    alloc: Global,
    entries: &[Entry<'_>],
    view: &View,
    column: Column,
) -> Result<Rows, Wrong> {
    let mut rows = BTreeMap::new(alloc);
    for (at, entry) in entries.iter().enumerate().take(view.snapshot) {
        if entry.what == What::Commit {
            make_pending(&mut rows, entries, at, entry.who, view.table, column)?;
        }
    }
    if view.shows_own {
        make_pending(&mut rows, entries, view.place, view.who, view.table, column)?;
    }
    Ok(rows)
}

/// The number of a table and the entry that created it.
pub fn table_called<'a, 'b>(
    entries: &'b [Entry<'a>],
    name: &str,
) -> Option<(usize, &'b Entry<'a>)> {
    let mut tables: usize = 0;
    for entry in entries {
        if matches!(entry.what, What::Create { .. }) {
            tables = tables.saturating_add(1);
            if entry.record.field(4) == name {
                return Some((tables, entry));
            }
        }
    }
    None
}

/// How many tables stand at a place.
pub fn tables(entries: &[Entry<'_>], place: usize) -> usize {
    entries
        .iter()
        .take(place)
        .filter(|entry| matches!(entry.what, What::Create { .. }))
        .count()
}

/// How many row numbers of a table are given at a place.
pub fn given(entries: &[Entry<'_>], place: usize, table: usize) -> usize {
    let mut given = 0;
    for entry in entries.iter().take(place) {
        for change in &entry.changes {
            if change.table == table {
                given = change.row.saturating_add(1).max(given);
            }
        }
    }
    given
}

/// How many extents of a table the row numbers fill that are given at a place.
pub fn extents(entries: &[Entry<'_>], place: usize, table: usize) -> usize {
    let per = extent_rows(entries, table).unwrap_or(1);
    let filled = given(entries, place, table).saturating_add(per.saturating_sub(1));
    filled.checked_div(per).unwrap_or(0)
}

/// How many row numbers make an extent of a table.
pub fn extent_rows(entries: &[Entry<'_>], table: usize) -> Option<usize> {
    let mut tables: usize = 0;
    for entry in entries {
        if let What::Create { extent } = entry.what {
            tables = tables.saturating_add(1);
            if tables == table {
                return Some(extent);
            }
        }
    }
    None
}

/// The row numbers of an extent that a number's transaction changed before a place at which it was open.
fn add_touched(
    rows: &mut BTreeSet<usize>,
    entries: &[Entry<'_>],
    place: usize,
    who: usize,
    table: usize,
    extent: usize,
) -> Result<(), Wrong> {
    let start = transaction_start(entries, place, who);
    let per = extent_rows(entries, table).unwrap_or(1);
    for entry in entries.iter().take(place).skip(start) {
        if entry.who == who {
            for change in &entry.changes {
                if change.table == table && change.row.checked_div(per) == Some(extent) {
                    rows.insert(change.row)?;
                }
            }
        }
    }
    Ok(())
}

/// How many row numbers of an extent a commit at a place touched.
pub fn touched(
    alloc: Global,
    entries: &[Entry<'_>],
    place: usize,
    who: usize,
    table: usize,
    extent: usize,
) -> Result<usize, Wrong> {
    let mut rows = BTreeSet::new(alloc);
    add_touched(&mut rows, entries, place, who, table, extent)?;
    Ok(rows.len())
}

/// How many row numbers of an extent the commits behind an SCN touched, up to the snapshot of a view.
pub fn stale(
    alloc: Global,
    entries: &[Entry<'_>],
    view: &View,
    extent: usize,
    since: usize,
) -> Result<usize, Wrong> {
    let mut rows = BTreeSet::new(alloc);
    for (at, entry) in entries.iter().enumerate().take(view.snapshot) {
        if entry.what == What::Commit && scn(entries, at) >= since {
            add_touched(&mut rows, entries, at, entry.who, view.table, extent)?;
        }
    }
    Ok(rows.len())
}
