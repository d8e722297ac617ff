ghost use Rattle.std.specs.Prelude.{◌≡◌, ◌+◌, ◌^◌, ◌≤◌, ◌<◌, All, false, get_or, length, map, true, None, Some, IfOk, OnOk};
ghost use Rattle.std.specs.List.{AllByRecursion, range_with_len};
ghost use Rattle.std.specs.Option.{ForSome};
ghost use Rattle.im_history.specs.Fetched as kept;
ghost use Rattle.im_group.specs.Partials as group;
ghost use Rattle.im_syntax.specs.BoundFits.{BoundFits, FilterFits};
ghost use Rattle.im_scan.specs.Parts.{MayAsk};
ghost use Rattle.im_scan.specs.inner.LentPieces.{HasLentNumbers, in_lent_piece, in_lent_pieces, in_lying};
ghost use Rattle.im_scan.specs.inner.Pieces.{AreInOrder, HasRoomFor, TakesAt, numbered_all};
ghost use Rattle.im_scan.specs.inner.Steps.{GoesOnBy, numbered_from, unit_rows, with_fetched};

use crate::every_row::EveryRow;
use crate::kept::next_chosen;
use crate::parts::take_row;
use crate::pieces::{LentPiece, lent_piece};
use crate::summed_run::sums_together;
use im_codepred::select_rows;
use im_group::{Asking, Partial};
use im_history::{Lying, Piece, ShownRows};
use im_lanes::{Mask, count};
use im_syntax::Filter;
use im_values::{NoMemory, WideRun};
use std::alloc::Global;

/// As few rows of a run as this are each asked the condition: a mask would cost more.
const FEW: usize = 3;

/// The row numbers of a piece, where they stand in a row: the first, and how many there are.
fn span(piece: &Piece) -> Option<(u64, u64)>
    ensures { ForSome result (λ span. map (λ f. f.0) (kept.in_piece piece.now) ≡ range_with_len span.0 span.1) }
{
    match piece {
        Piece::Run(first, rows) => Some((*first, rows.len() as u64)),
        Piece::Each(_, _) => None,
        Piece::One(rid, _) => Some((*rid, 1)),
    }
}

/// Whether what was read is of all row numbers from the first on, in order.
pub fn are_in_order(first: u64, lying: Lying<'_>) -> bool
    requires { first + length (in_lying lying) < 2 ^ 64 }
    ensures { result ≡ true → AreInOrder first (in_lying lying.entry) }
{
    let mut next = first;
    for piece in lying.pieces {
        let Some((rid, count)) = span(piece) else {
            return false;
        };
        if rid != next {
            return false;
        }
        next += count;
    }
    true
}

/// The part takes a row of a run. The row stays where it is, and is shared where the query keeps it and it lacks no column.
fn take_at(
    alloc: Global,
    asking: &Asking<'_>,
    rid: u64,
    rows: &WideRun<'_>,
    at: usize,
    part: &mut Partial,
) -> Result<(), NoMemory>
    requires within { at < length rows.now }
    requires fits { AllByRecursion (λ row. BoundFits row asking.now) rows.now }
    requires few { group.IsPartOfFew asking.now part.old }
    ensures { OnOk result (TakesAt asking.now rid rows.now at part.old part.new) }
{
    if rows.is_whole() && !asking.bound().grouped {
        let row = rows.row(alloc, at)?;
        part.take_shared(alloc, asking, rid, &row)
    } else {
        part.take(alloc, asking, rid, &rows.values(at))
    }
}

/// The part takes rows at row numbers from the first on, in order. The condition is asked of each.
fn take_each(
    alloc: Global,
    asking: &Asking<'_>,
    first: u64,
    rows: &WideRun<'_>,
    part: &mut Partial,
) -> Result<(), NoMemory>
    requires numbers { first + length rows.now ≤ 2 ^ 63 }
    requires fits { AllByRecursion (λ row. BoundFits row asking.now) rows.now }
    requires few { HasRoomFor asking.now (length rows.now) part.old }
    ensures { OnOk result (GoesOnBy asking.now part.old (numbered_all (kept.run_from first rows.now)) part.new) }
{
    for at in 0..rows.len() {
        take_at(alloc, asking, first + at as u64, rows, at, part)?;
    }
    Ok(())
}

/// The part takes rows, each at its own row number, in order. The condition is asked of each.
fn take_apart(
    alloc: Global,
    asking: &Asking<'_>,
    rids: &[u64],
    rows: &WideRun<'_>,
    part: &mut Partial,
) -> Result<(), NoMemory>
    requires long { length rids.now ≡ length rows.now }
    requires fits { AllByRecursion (λ row. BoundFits row asking.now) rows.now }
    requires few { HasRoomFor asking.now (length rows.now) part.old }
    ensures { OnOk result (GoesOnBy asking.now part.old (numbered_all (kept.each_at rids.now rows.now)) part.new) }
{
    for at in 0..rows.len() {
        take_at(alloc, asking, rids[at], rows, at, part)?;
    }
    Ok(())
}

/// The part takes a row of a run that is kept, and is handed over. The condition is not asked again.
fn take_chosen(
    alloc: Global,
    asking: &Asking<'_>,
    rid: u64,
    rows: &WideRun<'_>,
    at: usize,
    part: &mut Partial,
) -> Result<(), NoMemory>
    requires within { at < length rows.now }
    requires kept { get_or (map (group.keeps asking.now.filter) rows.now) at false ≡ true }
    requires fits { AllByRecursion (λ row. BoundFits row asking.now) rows.now }
    requires few { group.IsPartOfFew asking.now part.old }
    ensures { OnOk result (TakesAt asking.now rid rows.now at part.old part.new) }
{
    let row = rows.row(alloc, at)?;
    part.take_made(alloc, asking, rid, row)
}

/// The part takes those rows that a mask chooses, at row numbers from the first on, one by one.
fn take_handed(
    alloc: Global,
    asking: &Asking<'_>,
    first: u64,
    rows: &WideRun<'_>,
    mask: &Mask,
    part: &mut Partial,
) -> Result<(), NoMemory>
    requires numbers { first + length rows.now ≤ 2 ^ 63 }
    requires mask { mask.now ≡ map (group.keeps asking.now.filter) rows.now }
    requires fits { AllByRecursion (λ row. BoundFits row asking.now) rows.now }
    requires few { HasRoomFor asking.now (length rows.now) part.old }
    ensures { OnOk result (GoesOnBy asking.now part.old (numbered_all (kept.run_from first rows.now)) part.new) }
{
    let mut at = 0;
    while let Some(place) = next_chosen(mask, at, rows.len() as u64) {
        take_chosen(alloc, asking, first + place, rows, place as usize, part)?;
        at = place + 1;
    }
    Ok(())
}

/// The part takes those rows that a mask chooses: into its groups where it stands, and else each is handed over.
fn take_masked(
    alloc: Global,
    asking: &Asking<'_>,
    first: u64,
    rows: &WideRun<'_>,
    mask: &Mask,
    part: &mut Partial,
) -> Result<(), NoMemory>
    requires numbers { first + length rows.now ≤ 2 ^ 63 }
    requires mask { mask.now ≡ map (group.keeps asking.now.filter) rows.now }
    requires fits { AllByRecursion (λ row. BoundFits row asking.now) rows.now }
    requires few { HasRoomFor asking.now (length rows.now) part.old }
    ensures { OnOk result (GoesOnBy asking.now part.old (numbered_all (kept.run_from first rows.now)) part.new) }
{
    if asking.bound().grouped {
        part.take_chosen(alloc, asking, rows, mask)
    } else {
        take_handed(alloc, asking, first, rows, mask, part)
    }
}

/// The part takes those rows that a mask chooses: together, where the query takes its rows together, and else one by one.
fn take_kept(
    alloc: Global,
    asking: &Asking<'_>,
    first: u64,
    rows: &WideRun<'_>,
    mask: &Mask,
    part: &mut Partial,
) -> Result<(), NoMemory>
    requires numbers { first + length rows.now ≤ 2 ^ 63 }
    requires mask { mask.now ≡ map (group.keeps asking.now.filter) rows.now }
    requires fits { AllByRecursion (λ row. BoundFits row asking.now) rows.now }
    requires few { HasRoomFor asking.now (length rows.now) part.old }
    ensures { OnOk result (GoesOnBy asking.now part.old (numbered_all (kept.run_from first rows.now)) part.new) }
{
    match sums_together(alloc, asking, rows, mask)? {
        Some(sums) => {
            part.take_together(asking, count(mask), sums);
            Ok(())
        }
        None => take_masked(alloc, asking, first, rows, mask, part),
    }
}

/// Of which rows of a run a condition is true.
fn chosen(alloc: Global, filter: &Filter, rows: &WideRun<'_>) -> Result<Mask, NoMemory>
    requires few { length rows.now < 2 ^ 31 }
    requires fits { All (λ row. FilterFits row filter.now) rows.now }
    ensures { IfOk result (λ mask. mask ≡ map (group.keeps (Some filter.now)) rows.now) }
{
    Ok(select_rows(alloc, filter, rows)?)
}

/// The part takes those rows of a run that a condition keeps. It is asked of their columns.
fn take_where(
    alloc: Global,
    asking: &Asking<'_>,
    filter: &Filter,
    first: u64,
    rows: &WideRun<'_>,
    part: &mut Partial,
) -> Result<(), NoMemory>
    requires filter { asking.now.filter ≡ Some filter.now }
    requires short { length rows.now < 2 ^ 31 }
    requires numbers { first + length rows.now ≤ 2 ^ 63 }
    requires fits { AllByRecursion (λ row. BoundFits row asking.now) rows.now }
    requires few { HasRoomFor asking.now (length rows.now) part.old }
    ensures { OnOk result (GoesOnBy asking.now part.old (numbered_all (kept.run_from first rows.now)) part.new) }
{
    let mask = chosen(alloc, filter, rows)?;
    take_kept(alloc, asking, first, rows, &mask, part)
}

/// The part takes all rows of a run, for a query without a condition.
fn take_all(
    alloc: Global,
    asking: &Asking<'_>,
    first: u64,
    rows: &WideRun<'_>,
    every: &mut EveryRow,
    part: &mut Partial,
) -> Result<(), NoMemory>
    requires filter { asking.now.filter ≡ None }
    requires short { length rows.now < 2 ^ 31 }
    requires numbers { first + length rows.now ≤ 2 ^ 63 }
    requires fits { AllByRecursion (λ row. BoundFits row asking.now) rows.now }
    requires few { HasRoomFor asking.now (length rows.now) part.old }
    ensures { OnOk result (GoesOnBy asking.now part.old (numbered_all (kept.run_from first rows.now)) part.new) }
{
    every.fit(alloc, rows.len() as u64)?;
    take_kept(alloc, asking, first, rows, every.mask(), part)
}

/// The part takes rows at row numbers from the first on, in order. Where there are not few, they are taken under a mask, as far as
/// a mask reaches.
fn take_run(
    alloc: Global,
    asking: &Asking<'_>,
    first: u64,
    rows: &WideRun<'_>,
    every: &mut EveryRow,
    part: &mut Partial,
) -> Result<(), NoMemory>
    requires numbers { first + length rows.now ≤ 2 ^ 63 }
    requires fits { AllByRecursion (λ row. BoundFits row asking.now) rows.now }
    requires few { HasRoomFor asking.now (length rows.now) part.old }
    ensures { OnOk result (GoesOnBy asking.now part.old (numbered_all (kept.run_from first rows.now)) part.new) }
{
    if rows.len() <= FEW || rows.len() >= 0x8000_0000 {
        return take_each(alloc, asking, first, rows, part);
    }
    match &asking.bound().filter {
        Some(filter) => take_where(alloc, asking, filter, first, rows, part),
        None => take_all(alloc, asking, first, rows, every, part),
    }
}

/// The part takes those rows that a mask chooses, each at its own row number, one by one.
fn hand_scattered(
    alloc: Global,
    asking: &Asking<'_>,
    rids: &[u64],
    rows: &WideRun<'_>,
    mask: &Mask,
    part: &mut Partial,
) -> Result<(), NoMemory>
    requires long { length rids.now ≡ length rows.now }
    requires mask { mask.now ≡ map (group.keeps asking.now.filter) rows.now }
    requires fits { AllByRecursion (λ row. BoundFits row asking.now) rows.now }
    requires few { HasRoomFor asking.now (length rows.now) part.old }
    ensures { OnOk result (GoesOnBy asking.now part.old (numbered_all (kept.each_at rids.now rows.now)) part.new) }
{
    let mut at = 0;
    while let Some(place) = next_chosen(mask, at, rows.len() as u64) {
        let place = place as usize;
        take_chosen(alloc, asking, rids[place], rows, place, part)?;
        at = place as u64 + 1;
    }
    Ok(())
}

/// The part takes those rows that a mask chooses, each at its own row number: into its groups where it stands, and else each is
/// handed over. A group has no row numbers.
fn take_picked(
    alloc: Global,
    asking: &Asking<'_>,
    rids: &[u64],
    rows: &WideRun<'_>,
    mask: &Mask,
    part: &mut Partial,
) -> Result<(), NoMemory>
    requires long { length rids.now ≡ length rows.now }
    requires mask { mask.now ≡ map (group.keeps asking.now.filter) rows.now }
    requires fits { AllByRecursion (λ row. BoundFits row asking.now) rows.now }
    requires few { HasRoomFor asking.now (length rows.now) part.old }
    ensures { OnOk result (GoesOnBy asking.now part.old (numbered_all (kept.each_at rids.now rows.now)) part.new) }
{
    if asking.bound().grouped {
        part.take_chosen(alloc, asking, rows, mask)
    } else {
        hand_scattered(alloc, asking, rids, rows, mask, part)
    }
}

/// The part takes rows, each at its own row number, in order. Where there are not few, they are taken under a mask, as far as a mask
/// reaches.
fn take_scattered(
    alloc: Global,
    asking: &Asking<'_>,
    rids: &[u64],
    rows: &WideRun<'_>,
    every: &mut EveryRow,
    part: &mut Partial,
) -> Result<(), NoMemory>
    requires long { length rids.now ≡ length rows.now }
    requires fits { AllByRecursion (λ row. BoundFits row asking.now) rows.now }
    requires few { HasRoomFor asking.now (length rows.now) part.old }
    ensures { OnOk result (GoesOnBy asking.now part.old (numbered_all (kept.each_at rids.now rows.now)) part.new) }
{
    if rows.len() <= FEW || rows.len() >= 0x8000_0000 {
        return take_apart(alloc, asking, rids, rows, part);
    }
    match &asking.bound().filter {
        Some(filter) => {
            let mask = chosen(alloc, filter, rows)?;
            take_picked(alloc, asking, rids, rows, &mask, part)
        }
        None => {
            every.fit(alloc, rows.len() as u64)?;
            take_picked(alloc, asking, rids, rows, every.mask(), part)
        }
    }
}

/// The part takes the rows of a piece.
fn take_piece(
    alloc: Global,
    asking: &Asking<'_>,
    piece: &LentPiece<'_>,
    every: &mut EveryRow,
    part: &mut Partial,
) -> Result<(), NoMemory>
    requires numbers { HasLentNumbers piece.now }
    requires fits { AllByRecursion (λ row. MayAsk asking.now row.1) (in_lent_piece piece.now) }
    requires few { HasRoomFor asking.now (length (in_lent_piece piece.now)) part.old }
    ensures { OnOk result (GoesOnBy asking.now part.old (numbered_all (in_lent_piece piece.now)) part.new) }
{
    match piece {
        LentPiece::Run(first, rows) => take_run(alloc, asking, *first, rows, every, part),
        LentPiece::Each(rids, rows) => take_scattered(alloc, asking, rids, rows, every, part),
        LentPiece::One(rid, row) => take_row(alloc, asking, *rid, row, part),
    }
}

/// The part takes the rows of pieces.
pub fn take_pieces(
    alloc: Global,
    asking: &Asking<'_>,
    lying: Lying<'_>,
    part: &mut Partial,
) -> Result<(), NoMemory>
    requires numbers { All kept.HasNumbers lying.pieces.now }
    requires fits { AllByRecursion (λ row. MayAsk asking.now row.1) (in_lying lying) }
    requires few { HasRoomFor asking.now (length (in_lying lying)) part.old }
    ensures { OnOk result (GoesOnBy asking.now part.old (numbered_all (in_lying lying.entry)) part.new) }
{
    let mut every = EveryRow::new(alloc)?;
    for piece in lying.pieces {
        let lent = lent_piece(piece, lying.defaults);
        take_piece(alloc, asking, &lent, &mut every, part)?;
    }
    Ok(())
}

/// What the rows of pieces give.
pub fn part_of_pieces(
    alloc: Global,
    asking: &Asking<'_>,
    lying: Lying<'_>,
) -> Result<Partial, NoMemory>
    requires numbers { All kept.HasNumbers lying.pieces.now }
    requires few { length (in_lying lying) < 2 ^ 64 }
    requires fits { AllByRecursion (λ row. MayAsk asking.now row.1) (in_lying lying) }
    ensures { IfOk result (λ part. part ≡ group.partial asking.now (numbered_all (in_lying lying.entry))) }
{
    let mut part = Partial::new(alloc, asking)?;
    take_pieces(alloc, asking, lying, &mut part)?;
    Ok(part)
}

/// What the rows of pieces give that are lent.
pub fn part_of_lent(
    alloc: Global,
    asking: &Asking<'_>,
    pieces: &[LentPiece<'_>],
) -> Result<Partial, NoMemory>
    requires numbers { All HasLentNumbers pieces.now }
    requires few { length (in_lent_pieces pieces.now) < 2 ^ 64 }
    requires fits { AllByRecursion (λ row. MayAsk asking.now row.1) (in_lent_pieces pieces.now) }
    ensures { IfOk result (λ part. part ≡ group.partial asking.now (numbered_all (in_lent_pieces pieces.now))) }
{
    let mut part = Partial::new(alloc, asking)?;
    let mut every = EveryRow::new(alloc)?;
    for piece in pieces {
        take_piece(alloc, asking, piece, &mut every, &mut part)?;
    }
    Ok(part)
}

/// What rows that were fetched give, where these are of all row numbers from the first on, in order. They stay where they are.
pub fn part_in_place(
    alloc: Global,
    asking: &Asking<'_>,
    first: u64,
    fetched: &ShownRows,
) -> Result<Option<Partial>, NoMemory>
    requires within { first + length fetched.now < 2 ^ 64 }
    requires fits { AllByRecursion (λ row. MayAsk asking.now row.1) fetched.now }
    ensures { IfOk result (λ part. ForSome part (λ part.
        part ≡ group.partial asking.now (numbered_from first (with_fetched first (unit_rows None first (length fetched.now)) fetched.now)))) }
{
    let lying = fetched.lying();
    if are_in_order(first, lying) {
        let part = part_of_pieces(alloc, asking, lying)?;
        Ok(Some(part))
    } else {
        Ok(None)
    }
}
