ghost use Rattle.std.specs.Prelude.{◌≡◌, Some};
ghost use Rattle.std.specs.Arc.{arc_value};
ghost use Rattle.std.specs.Option.{option_map};
ghost use Rattle.im_replies.specs.Mixes as mixes;
ghost use Rattle.im_scan.specs.Faces.{Shows, how_of};

use crate::faces::Face;
use im_core::Pin;
use im_history::UnitLike;
use im_index::pruned;
use im_replies::How;
use im_syntax::Bound;
use im_unit::ColumnUnit;

/// Whether the storage index of a unit excludes the condition of a query.
fn is_pruned(unit: &ColumnUnit, bound: &Bound) -> bool
    ensures { result ≡ mixes.is_pruned unit.now bound.now.filter }
{
    match &bound.filter {
        Some(filter) => pruned(filter, unit.edges()),
        None => false,
    }
}

/// What a scan for a query reads of a unit.
fn face_of<'a>(unit: &'a ColumnUnit, bound: &Bound) -> Face<'a>
    ensures { Shows result (Some unit.now) bound.now }
{
    if is_pruned(unit, bound) {
        Face::Edges(unit.edges())
    } else {
        Face::Whole(unit)
    }
}

/// How a scan for a query is served by a unit, and by the blocks for so many stale rows.
fn how_by(unit: &ColumnUnit, stale: u64, bound: &Bound) -> How
    ensures { result ≡ mixes.by_unit (mixes.is_pruned unit.now bound.now.filter) unit.now.scn stale }
{
    let scn = unit.scn();
    if is_pruned(unit, bound) {
        How::Pruned { scn, stale }
    } else {
        How::Unit { scn, stale }
    }
}

/// What a scan for a query reads of the unit of an extent that was pinned. It takes no memory.
pub fn face<'a>(pin: &'a Pin<ColumnUnit>, bound: &Bound) -> Face<'a>
    ensures { Shows result (option_map arc_value pin.now.unit) bound.now }
{
    match &pin.unit {
        Some(unit) => face_of(unit, bound),
        None => Face::Bare,
    }
}

/// How a scan for a query is served an extent that was pinned. It takes no memory.
pub fn how(pin: &Pin<ColumnUnit>, bound: &Bound) -> How
    ensures { result ≡ how_of (option_map arc_value pin.now.unit) pin.now.fetched bound.now.filter }
{
    match &pin.unit {
        Some(unit) => how_by(unit, pin.fetched.len(), bound),
        None => How::Blocks,
    }
}
