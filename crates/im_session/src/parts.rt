// What extents that were pinned give to a query, made in one go or in chunks that may be gone over at once.
ghost use Rattle.std.specs.Prelude.{◌≡◌, ℕ, ◌+◌, ◌-◌, ◌*◌, ◌/◌, ◌%◌, ◌<◌, ◌≤◌, [], length, min, vec_len, IfOk};
ghost use Rattle.im_group.specs.Partials as group;
ghost use Rattle.im_history.specs.History.{History};
ghost use Rattle.im_scan.specs.Pinned.{seen_in};
ghost use Rattle.im_session.specs.inner.Pins.{AreChunkParts, AreLeftOf, ArePinsOf, GoesOnBy, IsAsked, IsBefore, IsPinOf};

use crate::cursor::Cursor;
use im_core::Pin;
use im_group::Partial;
use im_scan::{face, part};
use im_unit::ColumnUnit;
use im_values::NoMemory;
use std::alloc::Global;
use std::thread;
use std::thread::Threads;

/// From so many rows on that were fetched, parts are made in chunks, since threads cost too. What a unit has by its columns does not
/// count: it costs far less a row.
const ROWS_FOR_CHUNKS: u64 = 1 << 17;

/// The most chunks.
const MOST_CHUNKS: usize = 8;

/// What an extent that was pinned gives to the query of a cursor.
pub fn pinned_part(
    alloc: Global,
    cursor: &Cursor,
    extent: u64,
    pin: &Pin<ColumnUnit>,
) -> Result<Partial, NoMemory>
    requires asked { IsAsked cursor.now.bound cursor.now.view }
    requires within { extent < cursor.now.view.extents }
    requires pin { (opening : History) × IsPinOf cursor.now.bound cursor.now.view opening extent pin.now }
    ensures { IfOk result (λ part. (opening : History) → IsPinOf cursor.now.bound cursor.now.view opening extent pin.now →
        part ≡ group.partial cursor.now.bound (seen_in opening cursor.now.view extent)) }
{
    let (view, bound) = (&cursor.view, &cursor.bound);
    part(alloc, face(pin, bound), &pin.fetched, view, extent, bound)
}

/// Merges what extents give that were pinned one after the other, the first of this number, into what comes before them.
fn with_parts(
    alloc: Global,
    cursor: &Cursor,
    mut before: Partial,
    first: u64,
    pins: &[Pin<ColumnUnit>],
) -> Result<Partial, NoMemory>
    requires asked { IsAsked cursor.now.bound cursor.now.view }
    requires within { first + length pins.now ≤ cursor.now.view.extents }
    requires before { IsBefore cursor.now.bound cursor.now.view first before }
    requires pins { (opening : History) × ArePinsOf cursor.now.bound cursor.now.view opening first pins.now }
    ensures { IfOk result (GoesOnBy cursor.now.bound cursor.now.view first pins.now (length pins.now) before) }
{
    for (i, pin) in pins.iter().enumerate() {
        let Ok(more) = pinned_part(alloc, cursor, first + i as u64, pin) else {
            drop(before);
            return Err(NoMemory);
        };
        let Ok(()) = before.merge(more) else {
            drop(before);
            return Err(NoMemory);
        };
    }
    Ok(before)
}

/// What the extents of a chunk give, the first of this number.
fn chunk_part(
    alloc: Global,
    cursor: &Cursor,
    first: u64,
    chunk: &[Pin<ColumnUnit>],
) -> Result<Partial, NoMemory>
    requires asked { IsAsked cursor.now.bound cursor.now.view }
    requires within { first + length chunk.now ≤ cursor.now.view.extents }
    requires pins { (opening : History) × ArePinsOf cursor.now.bound cursor.now.view opening first chunk.now }
    ensures { IfOk result (GoesOnBy cursor.now.bound cursor.now.view first chunk.now (length chunk.now) (group.partial cursor.now.bound [])) }
{
    let none = Partial::of_lent(alloc, &cursor.bound, &[])?;
    with_parts(alloc, cursor, none, first, chunk)
}

/// What the extents of each chunk of so many pins give, the first of them the cursor's next one. Each chunk is gone over on a thread of
/// its own where one can be made.
fn chunk_parts<R: Threads + Sync>(
    rt: &R,
    alloc: Global,
    cursor: &Cursor,
    pins: &[Pin<ColumnUnit>],
    size: usize,
) -> Result<Vec<Result<Partial, NoMemory>>, NoMemory>
    requires size { 0 < size }
    requires asked { IsAsked cursor.now.bound cursor.now.view }
    requires within { cursor.now.next + length pins.now ≤ cursor.now.view.extents }
    requires pins { (opening : History) × ArePinsOf cursor.now.bound cursor.now.view opening cursor.now.next pins.now }
    ensures count { IfOk result (λ made. vec_len made ≡ length pins.now / size + min 1 (length pins.now % size)) }
    ensures parts { IfOk result (λ made. AreChunkParts cursor.now.bound cursor.now.view cursor.now.next size pins.now made.items) }
{
    let made = thread::map_chunks(
        rt,
        alloc,
        pins,
        size,
        &|start: usize, chunk: &[Pin<ColumnUnit>]| -> Result<Partial, NoMemory>
            requires asked { IsAsked cursor.now.bound cursor.now.view }
            requires within { cursor.now.next + start + length chunk.now ≤ cursor.now.view.extents }
            requires pins { (opening : History) × ArePinsOf cursor.now.bound cursor.now.view opening (cursor.now.next + start) chunk.now }
            ensures { IfOk result (GoesOnBy cursor.entry.now.bound cursor.entry.now.view (cursor.entry.now.next + start)
                chunk.entry.now (length chunk.entry.now) (group.partial cursor.entry.now.bound [])) }
        { chunk_part(alloc, cursor, cursor.next + start as u64, chunk) },
    )?;
    Ok(made)
}

/// How many extents are in a chunk of so many, if not in the last one.
fn chunk_size(extents: usize) -> usize
    ensures { 0 < result }
{
    extents.div_ceil(MOST_CHUNKS).max(1)
}

/// How many rows were fetched for extents.
fn rows_fetched(pins: &[Pin<ColumnUnit>]) -> u64 {
    let mut rows: u64 = 0;
    for pin in pins {
        rows = rows.saturating_add(pin.fetched.len());
    }
    rows
}

/// Merges what the chunks of extents give, in order, into what a cursor keeps of those before.
fn merged_chunks<R: Threads + Sync>(
    rt: &R,
    alloc: Global,
    cursor: &Cursor,
    pins: &[Pin<ColumnUnit>],
) -> Result<Partial, NoMemory>
    requires asked { IsAsked cursor.now.bound cursor.now.view }
    requires left { (opening : History) × AreLeftOf cursor.now opening pins.now }
    ensures { IfOk result (GoesOnBy cursor.now.bound cursor.now.view cursor.now.next pins.now (length pins.now) cursor.now.part) }
{
    let size = chunk_size(pins.len());
    let chunks = chunk_parts(rt, alloc, cursor, pins, size)?;
    let mut all = cursor.part.copy(alloc)?;
    for chunk in chunks {
        let Ok(more) = chunk else {
            drop(all);
            return Err(NoMemory);
        };
        let Ok(()) = all.merge(more) else {
            drop(all);
            return Err(NoMemory);
        };
    }
    Ok(all)
}

/// What all extents of a cursor give that were pinned from its next one on, behind what it keeps of those before.
///
/// Where many rows were fetched, extents are gone over in chunks at once, on as many threads as can be made, and what these give is
/// merged in the order of the extents. Few are gone over in place, and no thread is made.
pub fn parts_behind<R: Threads + Sync>(
    rt: &R,
    alloc: Global,
    cursor: &Cursor,
    pins: &[Pin<ColumnUnit>],
) -> Result<Partial, NoMemory>
    requires asked { IsAsked cursor.now.bound cursor.now.view }
    requires left { (opening : History) × AreLeftOf cursor.now opening pins.now }
    ensures { IfOk result (GoesOnBy cursor.now.bound cursor.now.view cursor.now.next pins.now (length pins.now) cursor.now.part) }
{
    if rows_fetched(pins) < ROWS_FOR_CHUNKS {
        let before = cursor.part.copy(alloc)?;
        return with_parts(alloc, cursor, before, cursor.next, pins);
    }
    merged_chunks(rt, alloc, cursor, pins)
}
