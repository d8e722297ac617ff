ghost use Rattle.std.specs.Prelude.{◌≡◌, ◌+◌, ◌<◌, ◌≤◌, length, option_map, slice_get, slice_index_or, Some};
ghost use Rattle.im_values.specs.declared.limits.TheConstants.{MOST_TABLES};
ghost use Rattle.im_history.specs.Extents.{extents_of};
ghost use Rattle.im_history.specs.History.{History};
ghost use Rattle.im_queue.specs.declared.reason.Reason.TheVariants.{Empty};
ghost use Rattle.im_queue.specs.inner.Search.{AreOf, extent_at, first_in, first_of_all, first_of_rank, ranked_in};

use crate::demand::Demand;
use crate::rank::{has_rank, is_wanted};
use crate::reason::Reason;
use im_directory::Directory;
use im_history::{Choice, SharedTable, TableInfo, UnitLike};

/// What the choice of the next build reads.
#[derive(Drop)]
pub struct Sources<'a, U: UnitLike> {
    pub tables: &'a [SharedTable],
    /// How many row numbers of each table were given.
    pub given: &'a [u64],
    pub directory: &'a Directory<U>,
    pub demand: &'a Demand,
}

impl<U: UnitLike> Sources<'_, U> {
    /// The most urgent extent that may be built for this reason.
    pub fn most_urgent(&self, reason: Reason) -> Option<Choice>
        requires few { length self.now.tables.now ≤ MOST_TABLES }
        ensures { (history : History) → AreOf U.content history self.now → result ≡ first_of_all reason history }
    {
        for rank in 0..5 {
            if let Some(choice) = self.first_of_rank(reason, rank) {
                return Some(choice);
            }
        }
        None
    }

    /// The first extent of the tables of this rank that may be built for this reason.
    fn first_of_rank(&self, reason: Reason, rank: u32) -> Option<Choice>
        requires few { length self.now.tables.now ≤ MOST_TABLES }
        ensures { (history : History) → AreOf U.content history self.now → result ≡ first_of_rank reason history rank }
    {
        for place in 0..self.tables.len() {
            if let Some(choice) = self.ranked_in(reason, rank, place) {
                return Some(choice);
            }
        }
        None
    }

    /// The same of the table at a place, if it has this rank.
    fn ranked_in(&self, reason: Reason, rank: u32, place: usize) -> Option<Choice>
        requires few { length self.now.tables.now ≤ MOST_TABLES }
        requires within { place < length self.now.tables.now }
        ensures { (history : History) → AreOf U.content history self.now → result ≡ ranked_in reason history rank (place + 1) }
    {
        if !has_rank(self.table(place).memory, rank) {
            return None;
        }
        match self.first_in(reason, place) {
            Some(extent) => Some(Choice {
                table: place as u32 + 1,
                extent,
                trickle: reason.is_trickle(),
            }),
            None => None,
        }
    }

    /// The first extent of the table at a place that may be built for this reason.
    fn first_in(&self, reason: Reason, place: usize) -> Option<u64>
        requires few { length self.now.tables.now ≤ MOST_TABLES }
        requires within { place < length self.now.tables.now }
        ensures { (history : History) → AreOf U.content history self.now
            → option_map (extent_at (place + 1)) result ≡ first_in reason history (place + 1) }
    {
        let table = place as u32 + 1;
        match reason {
            Reason::Empty => self.first_empty(place),
            Reason::Due => self.directory.first_due(table),
            Reason::Stale => self.directory.first_stale(table),
        }
    }

    /// The first extent of the table at a place that is to be populated.
    fn first_empty(&self, place: usize) -> Option<u64>
        requires few { length self.now.tables.now ≤ MOST_TABLES }
        requires within { place < length self.now.tables.now }
        ensures { (history : History) → AreOf U.content history self.now
            → option_map (extent_at (place + 1)) result ≡ first_in Empty history (place + 1) }
    {
        let table = place as u32 + 1;
        if !is_wanted(self.table(place).memory, self.demand.is_opened(table)) {
            return None;
        }
        let extent = self.directory.first_empty(table);
        if extent < self.extents(place) {
            Some(extent)
        } else {
            None
        }
    }

    /// How many extents the table at a place has.
    fn extents(&self, place: usize) -> u64
        requires within { place < length self.now.tables.now }
        ensures { (history : History) → AreOf U.content history self.now → result ≡ extents_of history (place + 1) }
    {
        given_at(self.given, place).div_ceil(self.table(place).shape.per_extent())
    }

    /// The table at a place.
    fn table(&self, place: usize) -> &TableInfo
        requires within { place < length self.now.tables.now }
        ensures { slice_get self.now.tables.now place ≡ Some result.now }
    {
        self.tables[place].info()
    }
}

/// How many row numbers were given of the table at a place.
fn given_at(given: &[u64], place: usize) -> u64
    ensures { result ≡ slice_index_or given.now place 0 }
{
    match given.get(place) {
        Some(given) => *given,
        None => 0,
    }
}
