ghost use Rattle.std.specs.Prelude.{◌≡◌, ◌+◌, ◌-◌, ◌^◌, ◌≤◌, ◌<◌, ◌++◌, All, drop, false, length, map, take, true, None, IfOk, OnOk};
ghost use Rattle.std.specs.Option.{ForSome};
ghost use Rattle.im_history.specs.Fetched as kept;
ghost use Rattle.im_group.specs.Partials as group;
ghost use Rattle.im_history.specs.Rows.{present};
ghost use Rattle.im_scan.specs.inner.LentPieces.{HasLentNumbers, in_lent_piece, in_lent_pieces};
ghost use Rattle.im_scan.specs.inner.Overlaid.{IsChangedIn, changed_by, left_at};
ghost use Rattle.im_scan.specs.inner.Pieces.{AreInOrder};
ghost use Rattle.im_scan.specs.inner.Steps.{MayScan, as_shown, laid_row};

use crate::in_place::{are_in_order, part_of_lent};
use crate::own::shown;
use crate::pieces::{LentPiece, lent_pieces, values_again};
use im_group::{Asking, Partial};
use im_history::{ShownRows, View};
use im_values::{NoMemory, RowValues, WideRun};
use std::alloc::Global;

/// A place among the rows of pieces.
#[derive(Clone, Copy)]
pub struct Spot {
    /// Which piece.
    pub piece: usize,
    /// Which of its rows.
    pub row: usize,
}

/// Puts some rows of a run behind other pieces: those from a place on and before another, if there are any.
fn put_rows<'a>(
    pieces: &mut Vec<LentPiece<'a>>,
    first: u64,
    run: &WideRun<'a>,
    from: usize,
    to: usize,
) -> Result<(), NoMemory>
    requires within { to ≤ length run.now }
    requires fit { first + length run.now ≤ 2 ^ 63 }
    requires numbers { All HasLentNumbers pieces.old.items }
    ensures rows { OnOk result (in_lent_pieces pieces.new.items ≡
        in_lent_pieces pieces.old.items ++ kept.run_from (first + from) (take (to - from) (drop from run.now))) }
    ensures numbers { OnOk result (All HasLentNumbers pieces.new.items) }
{
    if from >= to {
        return Ok(());
    }
    let rows = run.part(from, to - from);
    pieces.push(LentPiece::Run(first + from as u64, rows))?;
    Ok(())
}

/// Puts the rows of a piece from a place on behind other pieces, where all its row numbers are below one: whether they are. Rows that
/// are scattered are not put.
fn put_below<'a>(
    pieces: &mut Vec<LentPiece<'a>>,
    piece: &LentPiece<'a>,
    from: usize,
    rid: u64,
) -> Result<bool, NoMemory>
    requires fit { HasLentNumbers piece.now }
    requires numbers { All HasLentNumbers pieces.old.items }
    ensures put { IfOk result (λ put. put ≡ true →
        in_lent_pieces pieces.new.items ≡ in_lent_pieces pieces.old.items ++ drop from (in_lent_piece piece.now)) }
    ensures left { IfOk result (λ put. put ≡ false → in_lent_pieces pieces.new.items ≡ in_lent_pieces pieces.old.items) }
    ensures numbers { IfOk result (λ _. All HasLentNumbers pieces.new.items) }
{
    match piece {
        LentPiece::Run(first, run) => {
            if *first + run.len() as u64 > rid {
                return Ok(false);
            }
            put_rows(pieces, *first, run, from, run.len())?;
            Ok(true)
        }
        LentPiece::Each(_, _) => Ok(false),
        LentPiece::One(number, row) => {
            if *number >= rid {
                return Ok(false);
            }
            if from > 0 {
                return Ok(true);
            }
            pieces.push(LentPiece::One(*number, values_again(row)))?;
            Ok(true)
        }
    }
}

/// Puts what is left of pieces behind other pieces, up to the first piece that is not put, with a row number that is not below one:
/// the place that this was left at.
fn pass_below<'a>(
    pieces: &mut Vec<LentPiece<'a>>,
    fetched: &[LentPiece<'a>],
    spot: Spot,
    rid: u64,
) -> Result<Spot, NoMemory>
    requires fit { All HasLentNumbers fetched.now }
    requires numbers { All HasLentNumbers pieces.old.items }
    ensures whole { IfOk result (λ next. in_lent_pieces pieces.new.items ++ left_at fetched.now next
        ≡ in_lent_pieces pieces.old.items ++ left_at fetched.now spot) }
    ensures numbers { IfOk result (λ _. All HasLentNumbers pieces.new.items) }
{
    let mut at = spot.piece;
    let mut from = spot.row;
    while at < fetched.len() {
        if !put_below(pieces, &fetched[at], from, rid)? {
            return Ok(Spot {
                piece: at,
                row: from,
            });
        }
        at += 1;
        from = 0;
    }
    Ok(Spot {
        piece: at,
        row: from,
    })
}

/// Puts the rows of a run from a place on and before a row number behind other pieces, and behind these what a change left at that
/// row number: the place behind it. None where the row number is not among those from the place on.
fn change_run<'a>(
    pieces: &mut Vec<LentPiece<'a>>,
    first: u64,
    run: &WideRun<'a>,
    from: usize,
    rid: u64,
    row: Option<RowValues<'a>>,
) -> Result<Option<usize>, NoMemory>
    requires fit { first + length run.now ≤ 2 ^ 63 }
    requires numbers { All HasLentNumbers pieces.old.items }
    ensures changed { IfOk result (λ next. ForSome next (λ next. IsChangedIn rid row.entry
        (in_lent_pieces pieces.old.items ++ drop from (kept.run_from first run.now))
        (in_lent_pieces pieces.new.items ++ drop next (kept.run_from first run.now)))) }
    ensures numbers { IfOk result (λ _. All HasLentNumbers pieces.new.items) }
{
    if rid < first || rid - first >= run.len() as u64 {
        return Ok(None);
    }
    let at = (rid - first) as usize;
    if at < from {
        return Ok(None);
    }
    put_rows(pieces, first, run, from, at)?;
    pieces.push(LentPiece::One(rid, row))?;
    Ok(Some(at + 1))
}

/// The same of any piece. None too where its rows are scattered.
fn change_piece<'a>(
    pieces: &mut Vec<LentPiece<'a>>,
    piece: &LentPiece<'a>,
    from: usize,
    rid: u64,
    row: Option<RowValues<'a>>,
) -> Result<Option<usize>, NoMemory>
    requires fit { HasLentNumbers piece.now }
    requires numbers { All HasLentNumbers pieces.old.items }
    ensures changed { IfOk result (λ next. ForSome next (λ next. IsChangedIn rid row.entry
        (in_lent_pieces pieces.old.items ++ drop from (in_lent_piece piece.now))
        (in_lent_pieces pieces.new.items ++ drop next (in_lent_piece piece.now)))) }
    ensures numbers { IfOk result (λ _. All HasLentNumbers pieces.new.items) }
{
    match piece {
        LentPiece::Run(first, run) => change_run(pieces, *first, run, from, rid, row),
        LentPiece::Each(_, _) => Ok(None),
        LentPiece::One(number, _) => {
            if *number != rid || from > 0 {
                return Ok(None);
            }
            pieces.push(LentPiece::One(rid, row))?;
            Ok(Some(1))
        }
    }
}

/// Puts what is left of pieces before a row number behind other pieces, and behind it what a change left at that row number: the
/// place behind it. None where it does not come.
fn change<'a>(
    pieces: &mut Vec<LentPiece<'a>>,
    fetched: &[LentPiece<'a>],
    spot: Spot,
    rid: u64,
    row: Option<RowValues<'a>>,
) -> Result<Option<Spot>, NoMemory>
    requires fit { All HasLentNumbers fetched.now }
    requires numbers { All HasLentNumbers pieces.old.items }
    ensures changed { IfOk result (λ next. ForSome next (λ next. IsChangedIn rid row.entry
        (in_lent_pieces pieces.old.items ++ left_at fetched.now spot)
        (in_lent_pieces pieces.new.items ++ left_at fetched.now next))) }
    ensures numbers { IfOk result (λ _. All HasLentNumbers pieces.new.items) }
{
    let here = pass_below(pieces, fetched, spot, rid)?;
    if here.piece >= fetched.len() {
        return Ok(None);
    }
    match change_piece(pieces, &fetched[here.piece], here.row, rid, row)? {
        Some(next) => Ok(Some(Spot {
            piece: here.piece,
            row: next,
        })),
        None => Ok(None),
    }
}

/// What was fetched, with what the view's own changes left, as the view shows it, in the place of the rows that they are to. A run stays
/// together before, between and behind these. None where rows are scattered, or a change is to a row number that was not fetched.
///
/// It costs the pieces, a search, and those of the row numbers that the view's own changes are to. No row is shared or copied.
fn overlaid<'a>(
    alloc: Global,
    fetched: &[LentPiece<'a>],
    view: &'a View,
    first: u64,
    count: u64,
) -> Result<Option<Vec<LentPiece<'a>>>, NoMemory>
    requires within { first + count < 2 ^ 64 }
    requires fit { All HasLentNumbers fetched.now }
    requires order { AreInOrder first (in_lent_pieces fetched.now) }
    requires long { length (in_lent_pieces fetched.now) ≡ count }
    ensures laid { IfOk result (λ pieces. ForSome pieces (λ pieces.
        in_lent_pieces pieces.items ≡ map (changed_by (as_shown view.now)) (in_lent_pieces fetched.now))) }
    ensures numbers { IfOk result (λ pieces. ForSome pieces (λ pieces. All HasLentNumbers pieces.items)) }
{
    let mut pieces = Vec::with_capacity(alloc, fetched.len())?;
    let mut spot = Spot { piece: 0, row: 0 };
    for (rid, row) in view.own.between(view.table, first, count) {
        let wide = shown(view, row);
        let Some(next) = change(&mut pieces, fetched, spot, *rid, wide)? else {
            return Ok(None);
        };
        spot = next;
    }
    let end = pass_below(&mut pieces, fetched, spot, first + count)?;
    if end.piece < fetched.len() {
        return Ok(None);
    }
    Ok(Some(pieces))
}

/// What rows that were fetched give, where these are of all row numbers of an extent, in order, and the view has changed some of them
/// itself: no row is shared or copied for it, and nothing is laid out.
pub fn own_part(
    alloc: Global,
    asking: &Asking<'_>,
    fetched: &ShownRows,
    view: &View,
    first: u64,
    count: u64,
) -> Result<Option<Partial>, NoMemory>
    requires within { first + count < 2 ^ 64 }
    requires long { length fetched.now ≡ count }
    requires fits { MayScan asking.now None fetched.now (as_shown view.now).own }
    ensures { IfOk result (λ part. ForSome part (λ part.
        part ≡ group.partial asking.now (present (laid_row None fetched.now (as_shown view.now)) first count))) }
{
    let lying = fetched.lying();
    if !are_in_order(first, lying) {
        return Ok(None);
    }
    let read = lent_pieces(alloc, lying)?;
    let Some(pieces) = overlaid(alloc, read.as_slice(), view, first, count)? else {
        return Ok(None);
    };
    let part = part_of_lent(alloc, asking, pieces.as_slice())?;
    Ok(Some(part))
}
