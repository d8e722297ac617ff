ghost use Rattle.std.specs.Prelude.{◌≡◌, [], slice_index_or};
ghost use Rattle.im_core.specs.inner.LastColumns.{AreLast, noted};

use im_history::What;
use im_values::limits::MOST_TABLES;

/// The places of the entries that gave each table its last column.
///
/// It takes no memory.
#[derive(Drop)]
pub struct LastColumns {
    /// By the tables' numbers, which are from 1; 0 where a table got none since it was created.
    places: [u64; MOST_TABLES + 1],
}

impl LastColumns {
    /// No table got a column.
    pub fn new() -> LastColumns
        ensures { AreLast [] result }
    {
        LastColumns {
            places: [0; MOST_TABLES + 1],
        }
    }

    /// Notes the entry at a place. It takes constant time.
    pub fn note(&mut self, place: u64, what: &What)
        ensures { self.new ≡ noted place what.now self.old }
    {
        if let What::Add { table, .. } = what {
            let table = *table as usize;
            if table < self.places.len() {
                self.places[table] = place;
            }
        }
    }

    /// Where a table got its last column, 0 where it got none.
    pub fn of(&self, table: u32) -> u64
        ensures { result ≡ slice_index_or self.now.places table 0 }
    {
        match self.places.get(table as usize) {
            Some(place) => *place,
            None => 0,
        }
    }
}
