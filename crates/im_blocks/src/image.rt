ghost use Rattle.std.specs.Prelude.{◌≡◌, ℕ, ◌<◌, ◌≤◌, false, get_or, length, true, IfSome};
ghost use Rattle.im_blocks.specs.inner.Images.{IsForgotten, IsFresh};

use im_values::{Rows, Value};

/// The newest rows of row numbers in a row, copied into one block.
///
/// A scan at its SCN or behind reads them there together, and each row that was changed since from its versions.
#[derive(Drop)]
pub struct Image {
    /// No version that it shows is of a later commit.
    pub scn: u64,
    /// The rows, one for each row number from a first one on: of NULLs where there was none.
    pub rows: Rows,
    /// Of each whether it is what the newest version of its row number left.
    pub fresh: Vec<bool>,
}

impl Image {
    /// Whether the row at a place is shown.
    pub fn shows(&self, place: u64) -> bool
        ensures there { result ≡ true → place < length self.now.rows }
        ensures fresh { result ≡ true → get_or self.now.fresh.items place false ≡ true }
    {
        let place = place as usize;
        place < self.fresh.len() && place < self.rows.len() && self.fresh[place]
    }

    /// The values of the row at a place, where it is shown.
    pub fn values(&self, place: u64) -> Option<&[Value]>
        ensures { IfSome result (λ row. IsFresh self.now place row.now) }
    {
        let place = place as usize;
        if place < self.fresh.len() && place < self.rows.len() && self.fresh[place] {
            Some(self.rows.values(place))
        } else {
            None
        }
    }

    /// Shows the row at a place no more. It takes no memory.
    pub fn forget(&mut self, place: u64)
        ensures { IsForgotten self.old self.new place }
    {
        if place < self.fresh.len() as u64 {
            self.fresh[place as usize] = false;
        }
    }
}

/// The first place from one on that is not fresh, or their end.
pub fn fresh_end(fresh: &[bool], from: usize, end: usize) -> usize
    requires from { from ≤ end }
    requires within { end ≤ length fresh.now }
    ensures from { from ≤ result }
    ensures upto { result ≤ end }
    ensures all { (i : ℕ) → from ≤ i → i < result → get_or fresh.now i false ≡ true }
{
    for place in from..end {
        if !fresh[place] {
            return place;
        }
    }
    end
}
