// The rules that the history of a race keeps.
use super::Race;
use super::entry::{Entry, FIRST_WORKER, What};
use super::horizon::{holder, is_cursor_open, may_ask};
use super::report::{End, Report};
use super::rows::is_open;
use super::script::Script;
use super::units::{has_build, may_build};
use super::wrong::{Wrong, check};
use std::alloc::Global;

/// Whether a build was begun before a place.
fn is_begun(entries: &[Entry<'_>], place: usize, id: usize) -> bool {
    entries.iter().take(place).any(
        |entry| matches!(entry.what, What::Build { id: other, .. } if other == id),
    )
}

/// Whether a number is that of a worker of the race.
fn is_worker(race: &Race<'_>, who: usize) -> bool {
    who >= FIRST_WORKER && who < FIRST_WORKER.saturating_add(race.workers)
}

/// Whether a number may have an entry at a place.
fn takes_part(race: &Race<'_>, script: &Script<'_>, place: usize, who: usize) -> bool {
    if place < race.prelude {
        who < FIRST_WORKER
    } else {
        is_worker(race, who) || script.plays(who)
    }
}

/// Whether a number may begin a build at a place.
fn is_builder(race: &Race<'_>, place: usize, who: usize) -> bool {
    place < race.prelude || is_worker(race, who)
}

fn check_entry(
    race: &Race<'_>,
    entries: &[Entry<'_>],
    place: usize,
    entry: &Entry<'_>,
) -> Result<(), Wrong> {
    let who = entry.who;
    match entry.what {
        What::Open { cursor, asked, .. } => {
            let is_shut = !is_cursor_open(entries, place, who, cursor);
            check(is_shut, Wrong::Cursor(place))?;
            check(may_ask(entries, place, asked), Wrong::Asked(place))
        }
        What::Shut { cursor } => check(
            is_cursor_open(entries, place, who, cursor),
            Wrong::Cursor(place),
        ),
        What::Build { id, .. } => check(
            is_builder(race, place, who) && !is_begun(entries, place, id),
            Wrong::Begins(place),
        ),
        What::Switch { id } | What::Cancel { id } => check(
            holder(entries, place, id) == Some(who),
            Wrong::Ends(place),
        ),
        _ => Ok(()),
    }
}

/// No build of a worker is held at the end.
fn check_held(entries: &[Entry<'_>]) -> Result<(), Wrong> {
    for (place, entry) in entries.iter().enumerate() {
        if let What::Build { id, .. } = entry.what {
            let is_held = holder(entries, entries.len(), id).is_some();
            check(!is_held || entry.who < FIRST_WORKER, Wrong::Unended(place))?;
        }
    }
    Ok(())
}

/// Whether a number has a cursor open at a place.
fn has_cursor(entries: &[Entry<'_>], place: usize, who: usize) -> bool {
    entries.iter().take(place).any(|entry| {
        matches!(entry.what, What::Open { cursor, .. }
            if entry.who == who && is_cursor_open(entries, place, who, cursor))
    })
}

/// The place at which a number left first.
fn leaving(entries: &[Entry<'_>], who: usize) -> Option<usize> {
    entries
        .iter()
        .position(|entry| entry.who == who && entry.what == What::Leave)
}

/// How many have left before a place.
fn left(entries: &[Entry<'_>], place: usize) -> usize {
    entries
        .iter()
        .take(place)
        .filter(|entry| entry.what == What::Leave)
        .count()
}

/// A session that plays leaves once and last, with nothing open.
fn check_session(entries: &[Entry<'_>], who: usize) -> Result<(), Wrong> {
    let place = leaving(entries, who).ok_or(Wrong::Leaves(who))?;
    let goes_on = entries
        .iter()
        .skip(place)
        .skip(1)
        .any(|entry| entry.who == who);
    let has_open = has_cursor(entries, place, who) || is_open(entries, place, who);
    check(!goes_on && !has_open, Wrong::Leaves(who))
}

/// Whether a number holds a build at a place.
fn holds(entries: &[Entry<'_>], place: usize, who: usize) -> bool {
    entries.iter().take(place).any(|entry| {
        matches!(entry.what, What::Build { id, .. } if holder(entries, place, id) == Some(who))
    })
}

/// A worker that was over had nothing to do from there on, and all sessions had left.
fn check_over(
    entries: &[Entry<'_>],
    sessions: usize,
    who: usize,
    place: usize,
) -> Result<(), Wrong> {
    let goes_on = entries.iter().skip(place).any(|entry| entry.who == who);
    let is_over = place <= entries.len() && left(entries, place) == sessions;
    check(is_over && !goes_on, Wrong::Over(who))
}

/// A worker with nothing to do held no build, and none could begin.
fn check_end(
    alloc: Global,
    race: &Race<'_>,
    entries: &[Entry<'_>],
    sessions: usize,
    who: usize,
    end: End,
) -> Result<(), Wrong> {
    let place = match end {
        End::Over { place } => {
            check_over(entries, sessions, who, place)?;
            place
        }
        End::Spent { idle: Some(place) } => place,
        End::Spent { idle: None } => return Ok(()),
    };
    let is_there = race.prelude <= place && place <= entries.len();
    let is_idle = is_there && !holds(entries, place, who) && !has_build(alloc, entries, place)?;
    check(is_idle, Wrong::Idle(who))
}

/// Each build was of an extent that had to be built.
fn check_builds(alloc: Global, entries: &[Entry<'_>]) -> Result<(), Wrong> {
    for (place, entry) in entries.iter().enumerate() {
        if let What::Build { table, extent, .. } = entry.what {
            let is_due = may_build(alloc, entries, place, table, extent)?;
            check(is_due, Wrong::Begins(place))?;
        }
    }
    Ok(())
}

/// The history keeps the rules of a race.
pub fn check_history(
    alloc: Global,
    race: &Race<'_>,
    script: &Script<'_>,
    report: &Report<'_>,
) -> Result<(), Wrong> {
    let entries = report.entries.as_slice();
    for (place, entry) in entries.iter().enumerate() {
        check(
            takes_part(race, script, place, entry.who),
            Wrong::Stranger(place),
        )?;
        check_entry(race, entries, place, entry)?;
    }
    check_builds(alloc, entries)?;
    check_held(entries)?;
    for who in 1..FIRST_WORKER {
        if script.plays(who) {
            check_session(entries, who)?;
        } else {
            check(leaving(entries, who).is_none(), Wrong::Leaves(who))?;
        }
    }
    for (index, end) in report.ends.iter().enumerate() {
        check_end(
            alloc,
            race,
            entries,
            script.sessions(),
            index.saturating_add(FIRST_WORKER),
            *end,
        )?;
    }
    Ok(())
}
