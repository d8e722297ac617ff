ghost use Rattle.std.specs.Prelude.{◌≡◌, not, count_by, map, ◌≤◌, filter, vec_capacity, vec_len};
ghost use Rattle.std.specs.List.{find};
ghost use Rattle.im_history.specs.Cursors as own;
ghost use Rattle.im_history.specs.Horizon.{least};
ghost use Rattle.im_txn.specs.Activity.{is_number};

use im_history::is_own;

/// An open cursor: what a scan or a write needs to know of its view.
#[derive(Clone, Copy)]
pub struct Cursor {
    /// Its number in its session.
    pub cursor: u32,
    /// The table's number.
    pub table: u32,
    /// The SCN that is read at.
    pub scn: u64,
    /// How many row numbers of the table were given at the opening.
    pub rows: u64,
    /// How many row numbers are in an extent of the table.
    pub per: u64,
    /// How many columns its rows have.
    pub columns: u32,
}

/// The first cursor of this number.
pub fn with_number(cursors: &[Cursor], number: u32) -> Option<Cursor>
    ensures { result ≡ find (is_number number) cursors.now }
{
    cursors
        .iter()
        .find(|cursor| cursor.cursor == number)
        .copied()
}

/// How many cursors no statement opened by itself.
pub fn count_beside_own(cursors: &[Cursor]) -> u64
    ensures { result ≡ count_by (λ cursor. not (own.is_own cursor.cursor)) cursors.now }
{
    cursors
        .iter()
        .filter(|cursor| !is_own(cursor.cursor))
        .count() as u64
}

/// The least of an SCN and those that the cursors read at.
pub fn least_scn(cursors: &[Cursor], most: u64) -> u64
    ensures { result ≡ least most (map (λ cursor. cursor.scn) cursors.now) }
{
    let mut least = most;
    for cursor in cursors {
        least = cursor.scn.min(least);
    }
    least
}

/// Removes the cursors of this number; the others stay in order.
pub fn remove_number(cursors: &mut Vec<Cursor>, number: u32)
    ensures items { cursors.new.items ≡ filter (λ cursor. not (is_number number cursor)) cursors.old.items }
    ensures capacity { vec_capacity cursors.new ≡ vec_capacity cursors.old }
    ensures fewer { vec_len cursors.new ≤ vec_len cursors.old }
{
    cursors.retain(|cursor| cursor.cursor != number);
}
