ghost use Rattle.std.specs.Prelude.{◌≡◌, None, IfOk, get_or};
ghost use Rattle.im_group.specs.inner.Places.{AreIfPut, AreIn, SaysNothing};

use im_values::NoMemory;
use std::alloc::Global;
use std::marker::Model;

/// Where columns of GROUP BY stand in the key of a group, by their numbers.
#[derive(Drop)]
pub struct Places {
    places: Vec<Option<usize>>,
}

impl Model for Places {
    ghost use Rattle.std.specs.Prelude.{List, Option, ℕ};

    ghost Value = { List (Option ℕ) };

    ghost view = { λ p. p.places.items };
}

/// One more than the greatest number of a column.
fn width_of(columns: &[u32]) -> usize {
    let mut width = 0;
    for column in columns {
        width = width.max(*column as usize + 1);
    }
    width
}

/// A table that says nothing of so many columns.
fn blank(alloc: Global, width: usize) -> Result<Vec<Option<usize>>, NoMemory>
    ensures { IfOk result (λ places. SaysNothing places.items) }
{
    let mut places = Vec::with_capacity(alloc, width)?;
    for _ in 0..width {
        places.push(None)?;
    }
    Ok(places)
}

/// Puts a place at the number of a column, in place of one behind it.
fn put(places: &mut Vec<Option<usize>>, column: u32, place: usize)
    ensures { AreIfPut places.old.items column place places.new.items }
{
    if (column as usize) < places.len() {
        places[column as usize] = Some(place);
    }
}

impl Places {
    /// The first place of each of these columns.
    pub fn of(alloc: Global, columns: &[u32]) -> Result<Places, NoMemory>
        ensures { IfOk result (λ places. AreIn columns.now 0 places) }
    {
        let mut places = blank(alloc, width_of(columns))?;
        let mut at = columns.len();
        while at > 0 {
            at -= 1;
            put(&mut places, columns[at], at);
        }
        Ok(Places { places })
    }

    /// The first place of a column, if it is told.
    pub fn place(&self, column: u32) -> Option<usize>
        ensures { result ≡ get_or self.now column None }
    {
        match self.places.get(column as usize) {
            Some(place) => *place,
            None => None,
        }
    }
}
