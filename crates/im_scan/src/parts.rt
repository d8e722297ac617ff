ghost use Rattle.std.specs.Prelude.{◌≡◌, ◌+◌, ◌*◌, ◌<◌, ◌^◌, length, Option, None, Some, IfOk, OnOk};
ghost use Rattle.std.specs.List.{AllByRecursion};
ghost use Rattle.std.specs.Option.{ForSome};
ghost use Rattle.im_history.specs.Grid.{extents_for};
ghost use Rattle.im_history.specs.History.{History};
ghost use Rattle.im_history.specs.Rows.{present};
ghost use Rattle.im_history.specs.Units.{Content};
ghost use Rattle.im_group.specs.Partials as group;
ghost use Rattle.im_scan.specs.Faces.{Shows, unit_of};
ghost use Rattle.im_scan.specs.Parts.{AreDefaults, AreShown, MayAsk, MayAskShown, part_of, taken_row};
ghost use Rattle.im_scan.specs.Pinned.{IsPinned, seen_in};
ghost use Rattle.im_scan.specs.inner.Lying.{LieIn};
ghost use Rattle.im_scan.specs.inner.Steps.{GoesOnBy, IsShownBy, MayScan, MayScanShown, as_shown, laid_row, numbered, numbered_from};
ghost use Rattle.im_scan.specs.inner.Walk.{standing};

use crate::beside::{RowsBeside, beside};
use crate::by_columns::column_part;
use crate::faces::Face;
use crate::in_place::{part_in_place, part_of_pieces};
use crate::kept::{begins_by, kept_in};
use crate::left::are_between;
use crate::overlaid::own_part;
use crate::own::{has_own, put_own};
use crate::slots::{gather, rows_of};
use crate::walking::walked;
use im_group::{Asking, Partial};
use im_history::{LentRow, ShownRows, View};
use im_syntax::Bound;
use im_unit::ColumnUnit;
use im_values::{NoMemory, RowValues};
use std::alloc::Global;

/// The part takes what stands at a row number, where there is a row. The row stays where it is.
pub fn take_row(
    alloc: Global,
    asking: &Asking<'_>,
    rid: u64,
    row: &Option<RowValues<'_>>,
    part: &mut Partial,
) -> Result<(), NoMemory>
    requires fits { MayAsk asking.now row.now }
    requires few { group.IsPartOfFew asking.now part.old }
    ensures { OnOk result (GoesOnBy asking.now part.old (numbered rid row.now) part.new) }
{
    match row {
        Some(row) => part.take(alloc, asking, rid, row),
        None => Ok(()),
    }
}

/// What the rows that there are give, of row numbers from the first on.
fn part_of_slots(
    alloc: Global,
    asking: &Asking<'_>,
    first: u64,
    slots: &[Option<RowValues<'_>>],
) -> Result<Partial, NoMemory>
    requires within { first + length slots.now < 2 ^ 64 }
    requires fits { AllByRecursion (MayAsk asking.now) slots.now }
    ensures { IfOk result (λ part. part ≡ group.partial asking.now (numbered_from first slots.now)) }
{
    let mut part = Partial::new(alloc, asking)?;
    for (i, slot) in slots.iter().enumerate() {
        take_row(alloc, asking, first + i as u64, slot, &mut part)?;
    }
    Ok(part)
}

/// What an extent without a unit gives, where each of its row numbers was fetched: nothing is laid out, and of the rows that lie
/// together only those are taken apart that the view has changed itself.
fn fetched_part(
    alloc: Global,
    face: Face<'_>,
    asking: &Asking<'_>,
    fetched: &ShownRows,
    view: &View,
    first: u64,
    count: u64,
) -> Result<Option<Partial>, NoMemory>
    requires within { first + count < 2 ^ 64 }
    requires fits { MayScan asking.now (unit_of face) fetched.now (as_shown view.now).own }
    ensures { IfOk result (λ part. ForSome part (λ part.
        part ≡ group.partial asking.now (present (laid_row (unit_of face.entry) fetched.now (as_shown view.now)) first count))) }
{
    match face {
        Face::Whole(_) | Face::Edges(_) => Ok(None),
        Face::Bare => {
            if fetched.len() != count {
                return Ok(None);
            }
            if has_own(view, first, count) {
                own_part(alloc, asking, fetched, view, first, count)
            } else {
                part_in_place(alloc, asking, first, fetched)
            }
        }
    }
}

/// What so many row numbers from the first on give: what stands beside what a face shows, and else the rows of the unit, by a walk
/// over both. None where the rows beside the unit are not of rising row numbers among these, or the unit begins behind the first: in an
/// extent that was pinned they are and it does not.
fn walked_part(
    alloc: Global,
    face: Face<'_>,
    asking: &Asking<'_>,
    beside: &[LentRow<'_>],
    first: u64,
    count: u64,
) -> Result<Option<Partial>, NoMemory>
    requires within { first + count < 2 ^ 64 }
    requires fits { ForSome (unit_of face) (λ content. AllByRecursion (MayAsk asking.now) content.rows) }
    requires beside_fits { AllByRecursion (λ row. MayAsk asking.now row.1) beside.now }
    ensures { IfOk result (λ part. ForSome part (λ part.
        part ≡ group.partial asking.now (present (standing (unit_of face.entry) beside.now) first count))) }
{
    let kept = kept_in(alloc, face, asking.bound())?;
    if !begins_by(&kept, first) {
        return Ok(None);
    }
    walked(alloc, asking, &kept, beside, first, count)
}

/// What the rows beside a unit give that is not gone over. None where they do not lie in pieces, or are not of rising row numbers
/// among these.
fn pieces_part(
    alloc: Global,
    asking: &Asking<'_>,
    beside: RowsBeside<'_, '_>,
    first: u64,
    count: u64,
) -> Result<Option<Partial>, NoMemory>
    requires within { first + count < 2 ^ 64 }
    requires lie { LieIn beside }
    requires beside_fits { AllByRecursion (λ row. MayAsk asking.now row.1) beside.rows.now }
    ensures { IfOk result (λ part. ForSome part (λ part.
        part ≡ group.partial asking.now (present (standing None beside.entry.rows.now) first count))) }
{
    let Some(lying) = beside.pieces else {
        return Ok(None);
    };
    if !are_between(beside.rows, first, first + count) {
        return Ok(None);
    }
    let part = part_of_pieces(alloc, asking, lying)?;
    Ok(Some(part))
}

/// What stands in an extent whose unit is not gone over.
fn pruned_part(
    alloc: Global,
    face: Face<'_>,
    asking: &Asking<'_>,
    beside: RowsBeside<'_, '_>,
    first: u64,
    count: u64,
) -> Result<Option<Partial>, NoMemory>
    requires within { first + count < 2 ^ 64 }
    requires pruned { unit_of face ≡ None }
    requires lie { LieIn beside }
    requires beside_fits { AllByRecursion (λ row. MayAsk asking.now row.1) beside.rows.now }
    ensures { IfOk result (λ part. ForSome part (λ part.
        part ≡ group.partial asking.now (present (standing (unit_of face.entry) beside.entry.rows.now) first count))) }
{
    match pieces_part(alloc, asking, beside, first, count)? {
        Some(part) => Ok(Some(part)),
        None => walked_part(alloc, face, asking, beside.rows, first, count),
    }
}

/// The same, by the columns of the unit where these answer the query, and else by a walk. None too where there is no unit.
fn standing_part(
    alloc: Global,
    face: Face<'_>,
    asking: &Asking<'_>,
    beside: RowsBeside<'_, '_>,
    first: u64,
    count: u64,
) -> Result<Option<Partial>, NoMemory>
    requires within { first + count < 2 ^ 64 }
    requires fits { ForSome (unit_of face) (λ content. AllByRecursion (MayAsk asking.now) content.rows) }
    requires lie { LieIn beside }
    requires beside_fits { AllByRecursion (λ row. MayAsk asking.now row.1) beside.rows.now }
    ensures { IfOk result (λ part. ForSome part (λ part.
        part ≡ group.partial asking.now (present (standing (unit_of face.entry) beside.entry.rows.now) first count))) }
{
    match face {
        Face::Bare => Ok(None),
        Face::Edges(_) => pruned_part(alloc, face, asking, beside, first, count),
        Face::Whole(unit) => match column_part(alloc, asking, unit, beside, first, count)? {
            Some(part) => Ok(Some(part)),
            None => walked_part(alloc, face, asking, beside.rows, first, count),
        },
    }
}

/// What an extent with a unit gives that the view has changed, where nothing has to be laid out for it: no row is shared or copied.
fn beside_part(
    alloc: Global,
    face: Face<'_>,
    asking: &Asking<'_>,
    fetched: &ShownRows,
    view: &View,
    first: u64,
    count: u64,
) -> Result<Option<Partial>, NoMemory>
    requires within { first + count < 2 ^ 64 }
    requires fits { MayScan asking.now (unit_of face) fetched.now (as_shown view.now).own }
    ensures { IfOk result (λ part. ForSome part (λ part.
        part ≡ group.partial asking.now (present (laid_row (unit_of face.entry) fetched.now (as_shown view.now)) first count))) }
{
    match beside(alloc, fetched, view, first, count)? {
        Some(rows) => {
            let beside = RowsBeside {
                rows: rows.as_slice(),
                pieces: None,
            };
            standing_part(alloc, face, asking, beside, first, count)
        }
        None => Ok(None),
    }
}

/// What an extent gives with the rows of its unit, those that were fetched and those that the view's own changes left laid out by row
/// number. Those of the unit are read back, and the others stay where they are.
fn laid_out_part<'a>(
    alloc: Global,
    face: Face<'_>,
    asking: &Asking<'_>,
    fetched: &'a ShownRows,
    view: &'a View,
    first: u64,
    count: u64,
) -> Result<Partial, NoMemory>
    requires within { first + count < 2 ^ 64 }
    requires fits { MayScan asking.now (unit_of face) fetched.now (as_shown view.now).own }
    ensures { IfOk result (λ part.
        part ≡ group.partial asking.now (present (laid_row (unit_of face.entry) fetched.now (as_shown view.now)) first count)) }
{
    let mut rows = fetched.lent(alloc)?;
    put_own(&mut rows, view, first, count)?;
    let held = rows_of(alloc, face)?;
    let slots = gather(alloc, face, &held, rows.as_slice(), first, count)?;
    part_of_slots(alloc, asking, first, slots.as_slice())
}

/// What an extent gives that the view has changed: what its unit gives beside what was fetched and what the changes left, and else
/// what is laid out.
fn changed_part(
    alloc: Global,
    face: Face<'_>,
    asking: &Asking<'_>,
    fetched: &ShownRows,
    view: &View,
    first: u64,
    count: u64,
) -> Result<Partial, NoMemory>
    requires within { first + count < 2 ^ 64 }
    requires fits { MayScan asking.now (unit_of face) fetched.now (as_shown view.now).own }
    ensures { IfOk result (λ part.
        part ≡ group.partial asking.now (present (laid_row (unit_of face.entry) fetched.now (as_shown view.now)) first count)) }
{
    match beside_part(alloc, face, asking, fetched, view, first, count)? {
        Some(part) => Ok(part),
        None => laid_out_part(alloc, face, asking, fetched, view, first, count),
    }
}

/// What an extent with a unit gives, where the view has changed none of its row numbers: no row is shared or copied.
fn lent_part(
    alloc: Global,
    face: Face<'_>,
    asking: &Asking<'_>,
    fetched: &ShownRows,
    view: &View,
    first: u64,
    count: u64,
) -> Result<Option<Partial>, NoMemory>
    requires within { first + count < 2 ^ 64 }
    requires fits { MayScan asking.now (unit_of face) fetched.now (as_shown view.now).own }
    ensures { IfOk result (λ part. ForSome part (λ part.
        part ≡ group.partial asking.now (present (laid_row (unit_of face.entry) fetched.now (as_shown view.now)) first count))) }
{
    if has_own(view, first, count) {
        return Ok(None);
    }
    let rows = fetched.lent(alloc)?;
    let beside = RowsBeside {
        rows: rows.as_slice(),
        pieces: Some(fetched.lying()),
    };
    standing_part(alloc, face, asking, beside, first, count)
}

/// What an extent gives that has a unit, or of which what was fetched is not taken as it lies.
fn mixed_part(
    alloc: Global,
    face: Face<'_>,
    asking: &Asking<'_>,
    fetched: &ShownRows,
    view: &View,
    first: u64,
    count: u64,
) -> Result<Partial, NoMemory>
    requires within { first + count < 2 ^ 64 }
    requires fits { MayScan asking.now (unit_of face) fetched.now (as_shown view.now).own }
    ensures { IfOk result (λ part.
        part ≡ group.partial asking.now (present (laid_row (unit_of face.entry) fetched.now (as_shown view.now)) first count)) }
{
    match lent_part(alloc, face, asking, fetched, view, first, count)? {
        Some(part) => Ok(part),
        None => changed_part(alloc, face, asking, fetched, view, first, count),
    }
}

/// The unit that a face shows, with the columns that a view has and it lacks. None where it lacks none, and where the face shows no
/// unit.
fn wide_unit(alloc: Global, face: Face<'_>, view: &View) -> Result<Option<ColumnUnit>, NoMemory>
    requires { AreDefaults view.now }
    ensures wide { IfOk result (λ wide. ForSome wide (λ wide. IsShownBy view.now (unit_of face.entry) (Some wide))) }
    ensures same { IfOk result (λ wide. wide ≡ None → IsShownBy view.now (unit_of face.entry) (unit_of face.entry)) }
{
    match face {
        Face::Whole(unit) => widened(alloc, unit, view),
        Face::Edges(_) | Face::Bare => Ok(None),
    }
}

/// A unit with the columns that a view has and it lacks. None where it lacks none: then it takes no memory.
fn widened(alloc: Global, unit: &ColumnUnit, view: &View) -> Result<Option<ColumnUnit>, NoMemory>
    requires { AreDefaults view.now }
    ensures wide { IfOk result (λ wide. ForSome wide (λ wide. IsShownBy view.now (Some unit.now) (Some wide))) }
    ensures same { IfOk result (λ wide. wide ≡ None → IsShownBy view.now (Some unit.now) (Some unit.now)) }
{
    let columns = view.columns.columns();
    if unit.columns().len() >= columns.len() {
        return Ok(None);
    }
    let wide = unit.widened(alloc, view.defaults.values())?;
    Ok(Some(wide))
}

/// What an extent gives where the unit has the columns of the view and what was fetched is as the view shows it.
fn laid_part(
    alloc: Global,
    face: Face<'_>,
    asking: &Asking<'_>,
    fetched: &ShownRows,
    view: &View,
    first: u64,
    count: u64,
) -> Result<Partial, NoMemory>
    requires within { first + count < 2 ^ 64 }
    requires fits { MayScan asking.now (unit_of face) fetched.now (as_shown view.now).own }
    ensures { IfOk result (λ part.
        part ≡ group.partial asking.now (present (laid_row (unit_of face.entry) fetched.now (as_shown view.now)) first count)) }
{
    match fetched_part(alloc, face, asking, fetched, view, first, count)? {
        Some(part) => Ok(part),
        None => mixed_part(alloc, face, asking, fetched, view, first, count),
    }
}

/// What an extent gives as the view shows it: where its unit lacks columns that the view has, they are put beside its own for this, each
/// as one code.
fn shown_part(
    alloc: Global,
    face: Face<'_>,
    asking: &Asking<'_>,
    fetched: &ShownRows,
    view: &View,
    first: u64,
    count: u64,
) -> Result<Partial, NoMemory>
    requires within { first + count < 2 ^ 64 }
    requires defaults { AreDefaults view.now }
    requires shown { AreShown view.now fetched.now }
    requires fits { MayScanShown asking.now (unit_of face) fetched.now view.now }
    ensures { IfOk result (λ part.
        part ≡ group.partial asking.now (present (taken_row (unit_of face.entry) fetched.now view.now) first count)) }
{
    match wide_unit(alloc, face, view)? {
        Some(unit) => laid_part(
            alloc,
            Face::Whole(&unit),
            asking,
            fetched,
            view,
            first,
            count,
        ),
        None => laid_part(alloc, face, asking, fetched, view, first, count),
    }
}

/// What an extent gives to a query: the partial answer over exactly the rows of that extent that the view sees.
///
/// Of a unit it asks the condition of the columns, as packed codes, and reads only the rows that are kept; of a pruned unit it reads
/// none. Beside that it costs what was fetched and those of the row numbers that the view's own changes are to. Without a unit what
/// was fetched stays where it is: of rows that lie together the condition is asked column by column, and only those that it keeps are
/// gone over. Where the view changed rows of such an extent itself, rows that lie together are taken apart at these, and no handle is
/// made of a row. A unit that was built before the last of the view's columns were there has their defaults in them, and a row that was
/// written before is lent with them. What the query asks is worked out once, and of rows that lie together a query without groups
/// copies only those that it keeps and that lack a column.
pub fn part(
    alloc: Global,
    face: Face<'_>,
    fetched: &ShownRows,
    view: &View,
    extent: u64,
    bound: &Bound,
) -> Result<Partial, NoMemory>
    requires cut { view.now.extents ≡ extents_for view.now.rows view.now.per }
    requires within { extent < view.now.extents }
    requires defaults { AreDefaults view.now }
    requires shown { AreShown view.now fetched.now }
    requires unit_fits { ForSome (unit_of face) (λ content. AllByRecursion (MayAskShown bound.now view.now) content.rows) }
    requires fetched_fits { AllByRecursion (λ row. MayAsk bound.now row.1) fetched.now }
    requires own_fits { AllByRecursion (λ change. MayAskShown bound.now view.now change.row) view.now.own }
    ensures taken { IfOk result (λ partial.
        partial ≡ part_of (unit_of face.entry) fetched.now view.now extent bound.now) }
    ensures seen { IfOk result (λ partial. (history : History) (unit : Option Content) →
        Shows face.entry unit bound.now → IsPinned history view.now extent unit fetched.now →
        partial ≡ group.partial bound.now (seen_in history view.now extent)) }
{
    let rows = view.rows;
    let first = extent * view.per;
    let count = view.per.min(rows - first);
    let asking = Asking::of(alloc, bound)?;
    let part = shown_part(alloc, face, &asking, fetched, view, first, count)?;
    Ok(part)
}
