ghost use Rattle.std.specs.Prelude.{◌≡◌, ◌<◌, ◌∷◌, [], true, length};
ghost use Rattle.std.specs.List.{AllByRecursion};
ghost use Rattle.std.specs.Option.{ForSome};
ghost use Rattle.im_group.specs.inner.Ends.{IsSought};
ghost use Rattle.im_group.specs.inner.Holding.{own};
ghost use Rattle.im_group.specs.inner.Steps.{stands_at};
ghost use Rattle.im_group.specs.Partials as spec;

use crate::grouping::Groups;
use crate::row_value::value_in;
use crate::same::{Sought, same};
use im_values::{RowValues, Value};

/// Whether a row has this key. Nothing is copied or hashed.
#[inline(always)]
fn has_key(columns: &[u32], row: &RowValues<'_>, key: &[Value]) -> bool
    requires { AllByRecursion (λ column. column < length row.now) columns.now }
    ensures { result ≡ spec.is_key (spec.key_of columns.now row.now) key.now }
{
    if columns.len() != key.len() {
        return false;
    }
    for (i, column) in columns.iter().enumerate() {
        if !same(value_in(row, *column), &key[i]) {
            return false;
        }
    }
    true
}

/// Whether the group at a place has the key of a row.
#[inline(always)]
fn is_at(columns: &[u32], row: &RowValues<'_>, groups: &Groups, place: usize) -> bool
    requires { AllByRecursion (λ column. column < length row.now) columns.now }
    ensures { result ≡ stands_at (own groups.now.entries) (spec.key_of columns.now row.now) place }
{
    match groups.get_index(place) {
        Some((key, _)) => has_key(columns, row, key.as_slice()),
        None => false,
    }
}

/// Where the group of the key of a row stands, if it is at a place that is only thought of. It takes no memory.
#[inline(always)]
pub fn near(columns: &[u32], row: &RowValues<'_>, groups: &Groups, thought: usize) -> Option<usize>
    requires { AllByRecursion (λ column. column < length row.now) columns.now }
    ensures { ForSome result (λ place. stands_at (own groups.now.entries) (spec.key_of columns.now row.now) place ≡ true) }
{
    if is_at(columns, row, groups, thought) {
        Some(thought)
    } else {
        None
    }
}

/// Whether a key is of one value, and that is the one that is looked for.
#[inline(always)]
fn is_only(sought: Sought<'_>, key: &[Value]) -> bool
    requires { IsSought sought }
    ensures { result ≡ spec.is_key (sought.entry.value.now ∷ []) key.now }
{
    key.len() == 1 && sought.is(&key[0])
}

/// The same as [`near`] for a key of one value, which is looked for.
#[inline(always)]
pub fn near_one(
    columns: &[u32],
    row: &RowValues<'_>,
    sought: Sought<'_>,
    groups: &Groups,
    thought: usize,
) -> Option<usize>
    requires sought { IsSought sought }
    requires key { spec.key_of columns.now row.now ≡ sought.value.now ∷ [] }
    ensures { ForSome result (λ place. stands_at (own groups.now.entries) (spec.key_of columns.now row.now) place ≡ true) }
{
    match groups.get_index(thought) {
        Some((key, _)) => is_only(sought, key.as_slice()).then_some(thought),
        None => None,
    }
}
