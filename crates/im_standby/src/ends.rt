ghost use Rattle.std.specs.Prelude.{◌≡◌, ℕ, ◌+◌, ◌<◌, ◌==◌, get_or, length, max, IfOk, OnOk, if◌then◌else◌};
ghost use Rattle.im_history.specs.Puts.{all_changes};
ghost use Rattle.im_standby.specs.inner.Applying.{IsNoted};
ghost use Rattle.im_tables.specs.Table.{IsPadded};

use im_history::Changes;
use im_values::NoMemory;
use std::alloc::Global;

/// How many row numbers of a table were given.
pub(crate) fn end_of(ends: &[u64], table: u32) -> u64
    ensures { result ≡ get_or ends.now table 0 }
{
    match ends.get(table as usize) {
        Some(end) => *end,
        None => 0,
    }
}

/// The row numbers given by table, the changes of these pieces noted. It costs a copy of one number for each table, and a look at
/// each change.
pub(crate) fn noted(alloc: Global, ends: &[u64], pieces: &[Changes]) -> Result<Vec<u64>, NoMemory>
    ensures { IfOk result (λ noted. IsNoted ends.now noted.items (all_changes pieces.now)) }
{
    let mut noted = copied(alloc, ends)?;
    for piece in pieces {
        note_piece(&mut noted, piece)?;
    }
    Ok(noted)
}

/// The same numbers once more.
fn copied(alloc: Global, ends: &[u64]) -> Result<Vec<u64>, NoMemory>
    ensures { IfOk result (λ copy. copy.items ≡ ends.now) }
{
    let mut copy = Vec::with_capacity(alloc, ends.len())?;
    for end in ends {
        copy.push(*end)?;
    }
    Ok(copy)
}

/// Notes the changes of a piece.
fn note_piece(ends: &mut Vec<u64>, piece: &Changes) -> Result<(), NoMemory>
    ensures { OnOk result (IsNoted ends.old.items ends.new.items piece.now) }
{
    for place in 0..piece.len() {
        let change = piece.at(place);
        note(ends, change.table, change.rid)?;
    }
    Ok(())
}

/// Notes a change to a row number of a table. More row numbers than 64 bits can count have no room in memory.
fn note(ends: &mut Vec<u64>, table: u32, rid: u64) -> Result<(), NoMemory>
    ensures { OnOk result ((t : ℕ) → get_or ends.new.items t 0
        ≡ (if table == t then max (get_or ends.old.items t 0) (rid + 1) else get_or ends.old.items t 0)) }
{
    let Some(end) = rid.checked_add(1) else {
        return Err(NoMemory);
    };
    grow(ends, table)?;
    let place = table as usize;
    ends[place] = ends[place].max(end);
    Ok(())
}

/// Adds tables of which no row number was given until there is one of this number.
fn grow(ends: &mut Vec<u64>, table: u32) -> Result<(), NoMemory>
    ensures same { IsPadded 0 ends.old.items ends.new.items }
    ensures there { OnOk result (table < length ends.new.items) }
{
    while ends.len() <= table as usize {
        ends.push(0)?;
    }
    Ok(())
}
