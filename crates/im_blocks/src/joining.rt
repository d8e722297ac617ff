ghost use Rattle.std.specs.Prelude.{◌≡◌, ◌+◌, ◌^◌, ◌≤◌, ◌++◌, All, length, true, IfOk, IfSome, OnOk};
ghost use Rattle.std.specs.Option.{ForSome};
ghost use Rattle.im_blocks.specs.inner.Joining.{AreLaid, IsWhole, changes_of};
ghost use Rattle.im_history.specs.Puts.{all_changes, put_from};

use crate::gathered::put_values;
use im_history::{Changes, LentPut};
use im_values::{NoMemory, Rows, Value};
use std::alloc::Global;

/// A piece of so many values or fewer is joined with the next one: copies of them take no more memory than a run does.
const MOST_VALUES: usize = 4;

/// Rows of a table at row numbers in a row, which are copied into one block piece by piece.
#[derive(Drop)]
pub struct Joint {
    /// The table's number.
    pub table: u32,
    /// The row number of the first of the rows.
    pub first: u64,
    /// How many values each row has.
    pub width: usize,
    /// How many rows there are.
    pub count: usize,
    /// Their values, one row behind another.
    pub values: Vec<Value>,
}

/// The same changes in the same order. Rows that were put few at a time, at row numbers in a row, lie in one block then; all others are
/// shared.
pub fn joined(alloc: Global, pieces: &[Changes]) -> Result<Vec<Changes>, NoMemory>
    ensures { IfOk result (λ joined. all_changes joined.items ≡ all_changes pieces.now) }
{
    let mut joined = Vec::new(alloc);
    let mut from = 0;
    while from < pieces.len() {
        let count = adjoining(&pieces[from..]);
        put_joined(alloc, &mut joined, &pieces[from..from + count])?;
        from += count;
    }
    Ok(joined)
}

/// The rows that a piece puts, where they are few.
fn few(piece: &Changes) -> Option<LentPut<'_>>
    ensures { IfSome result (λ put. put.first + length put.rows.now ≤ 2 ^ 63) }
{
    match piece.as_put() {
        Some(put) if put.rows.len().saturating_mul(put.rows.width()) <= MOST_VALUES => Some(put),
        _ => None,
    }
}

/// Whether rows are put right behind others, and have as many values.
fn adjoins(before: LentPut<'_>, next: LentPut<'_>) -> bool
    requires { before.first + length before.rows.now ≤ 2 ^ 63 }
{
    next.table == before.table
        && next.first == before.first + before.rows.len() as u64
        && next.rows.width() == before.rows.width()
}

/// Of how many pieces the few rows are of row numbers in a row, from the first piece on: one at least.
fn adjoining(pieces: &[Changes]) -> usize
    requires { 1 ≤ length pieces.now }
    ensures some { 1 ≤ result }
    ensures within { result ≤ length pieces.now }
{
    let Some(first) = few(&pieces[0]) else {
        return 1;
    };
    let mut last = first;
    for (place, piece) in pieces.iter().enumerate() {
        if place > 0 {
            let Some(next) = few(piece) else {
                return place;
            };
            if !adjoins(last, next) {
                return place;
            }
            last = next;
        }
    }
    pieces.len()
}

/// Puts pieces behind others: their rows in one block, where these are of row numbers in a row, and else each piece shared.
fn put_joined(alloc: Global, joined: &mut Vec<Changes>, pieces: &[Changes]) -> Result<(), NoMemory>
    ensures { OnOk result (all_changes joined.new.items ≡ all_changes joined.old.items ++ all_changes pieces.now) }
{
    match joint_of(alloc, pieces)? {
        Some(changes) => {
            joined.push(changes)?;
            Ok(())
        }
        None => put_shared(joined, alloc, pieces),
    }
}

/// Puts pieces behind others, each shared.
fn put_shared(joined: &mut Vec<Changes>, alloc: Global, pieces: &[Changes]) -> Result<(), NoMemory>
    ensures { OnOk result (all_changes joined.new.items ≡ all_changes joined.old.items ++ all_changes pieces.now) }
{
    for piece in pieces {
        joined.push(piece.share(alloc)?)?;
    }
    Ok(())
}

/// The changes of pieces, with their rows in one block. None where they do not put rows at row numbers in a row, or there are not two.
fn joint_of(alloc: Global, pieces: &[Changes]) -> Result<Option<Changes>, NoMemory>
    ensures { IfOk result (λ joint. ForSome joint (λ changes. changes ≡ all_changes pieces.now)) }
{
    if pieces.len() < 2 {
        return Ok(None);
    }
    let Some(put) = pieces[0].as_put() else {
        return Ok(None);
    };
    let width = put.rows.width();
    let mut joint = Joint {
        table: put.table,
        first: put.first,
        width,
        count: 0,
        values: Vec::with_capacity(alloc, pieces.len().saturating_mul(width))?,
    };
    for piece in pieces {
        if !add(alloc, &mut joint, piece)? {
            return Ok(None);
        }
    }
    let changes = finish(alloc, joint)?;
    Ok(Some(changes))
}

/// The changes that put the rows of a joint.
fn finish(alloc: Global, joint: Joint) -> Result<Changes, NoMemory>
    requires { IsWhole joint }
    ensures { IfOk result (λ changes. changes ≡ changes_of joint) }
{
    let Joint {
        table,
        first,
        width,
        count,
        values,
    } = joint;
    let rows = Rows::of(alloc, values, width, count)?;
    Ok(Changes::put(table, first, rows))
}

/// Puts the rows of a piece behind those of a joint: false where they do not belong there.
fn add(alloc: Global, joint: &mut Joint, piece: &Changes) -> Result<bool, NoMemory>
    requires { IsWhole joint.old }
    ensures whole { OnOk result (IsWhole joint.new) }
    ensures added { IfOk result (λ is. is ≡ true → changes_of joint.new ≡ changes_of joint.old ++ piece.now) }
{
    match piece.as_put() {
        Some(put) => add_rows(alloc, joint, put),
        None => Ok(false),
    }
}

/// The same of rows that a piece puts.
fn add_rows(alloc: Global, joint: &mut Joint, put: LentPut<'_>) -> Result<bool, NoMemory>
    requires whole { IsWhole joint.old }
    requires numbers { put.first + length put.rows.now ≤ 2 ^ 63 }
    ensures whole { OnOk result (IsWhole joint.new) }
    ensures added { IfOk result (λ is. is ≡ true →
        changes_of joint.new ≡ changes_of joint.old ++ put_from put.entry.table put.entry.first put.entry.rows.now) }
{
    let width = put.rows.width();
    if put.table != joint.table || width != joint.width {
        return Ok(false);
    }
    if put.first != joint.first + joint.count as u64 {
        return Ok(false);
    }
    lay(alloc, &mut joint.values, put.rows, width)?;
    joint.count += put.rows.len();
    Ok(true)
}

/// Puts copies of the values of rows behind others.
fn lay(alloc: Global, values: &mut Vec<Value>, rows: &Rows, width: usize) -> Result<(), NoMemory>
    requires { All (λ row. length row ≡ width) rows.now }
    ensures { OnOk result (AreLaid width values.old.items rows.now values.new.items) }
{
    for at in 0..rows.len() {
        put_values(alloc, values, rows.values(at))?;
    }
    Ok(())
}
