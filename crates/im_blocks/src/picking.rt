ghost use Rattle.std.specs.Prelude.{◌≡◌, ◌+◌, ◌<◌, ◌++◌, [], ◌∷◌, length, option_copied, slice_get, IfOk, OnOk, Some};
ghost use Rattle.im_blocks.specs.inner.Picked.{ArePicked, HasGone, Picks, read_of};

use crate::gathered::put_values;
use im_history::Fetched;
use im_values::{NoMemory, Row, Rows, Value, copied};
use std::alloc::Global;

/// What was read so far of row numbers, most of which the image of a page shows.
///
/// The rows of the image stay where they are. Copies of the other rows go into one block.
#[derive(Drop)]
pub struct Picking {
    alloc: Global,
    /// What was read before the rows that are picked.
    pub fetched: Fetched,
    /// The row numbers of these.
    pub rids: Vec<u64>,
    /// The place of each among the rows of the image and, behind these, the others.
    pub places: Vec<u32>,
    /// How many values each row of the image has.
    pub width: usize,
    /// The values of the others, one row behind another.
    pub values: Vec<Value>,
    /// How many others there are.
    pub more: usize,
}

/// The place behind so many rows of an image and so many others. There is none past 32 bits.
fn place_behind(shown: &Rows, more: usize) -> Result<u32, NoMemory>
    ensures { IfOk result (λ place. place ≡ length shown.now + more) }
{
    match shown.len().checked_add(more) {
        Some(sum) => match u32::try_from(sum) {
            Ok(place) => Ok(place),
            Err(_) => Err(NoMemory),
        },
        None => Err(NoMemory),
    }
}

/// How many values the first row has, 0 where there is none.
fn width_of(rows: &Rows) -> usize {
    if rows.is_empty() {
        0
    } else {
        rows.values(0).len()
    }
}

impl Picking {
    /// Nothing was read yet, and there is room for so many row numbers.
    pub fn new(alloc: Global, shown: &Rows, room: usize) -> Result<Picking, NoMemory>
        ensures none { IfOk result (λ read. read_of read shown.now ≡ []) }
        ensures picked { IfOk result (λ read. ArePicked read shown.now) }
    {
        Ok(Picking {
            alloc,
            fetched: Fetched::new(alloc),
            rids: Vec::with_capacity(alloc, room)?,
            places: Vec::with_capacity(alloc, room)?,
            width: width_of(shown),
            values: Vec::new(alloc),
            more: 0,
        })
    }

    /// Puts a row number behind the others, with the row at a place of the image.
    pub fn pick(&mut self, shown: &Rows, rid: u64, place: u32) -> Result<(), NoMemory>
        requires picked { ArePicked self.old shown.now }
        requires there { place < length shown.now }
        ensures { OnOk result (Picks self.old self.new shown.now ((rid, slice_get shown.now place) ∷ [])) }
    {
        self.rids.push(rid)?;
        self.places.push(place)?;
        Ok(())
    }

    /// Puts a row number behind the others, with a copy of its row, or none.
    pub fn push(&mut self, shown: &Rows, rid: u64, row: Option<&[Value]>) -> Result<(), NoMemory>
        requires { ArePicked self.old shown.now }
        ensures { OnOk result (Picks self.old self.new shown.now ((rid, option_copied row.entry) ∷ [])) }
    {
        match row {
            Some(row) if row.len() == self.width => self.put(shown, rid, row),
            _ => self.push_apart(shown, rid, row),
        }
    }

    /// All that was read.
    pub fn finish(self, shown: &Rows) -> Result<Fetched, NoMemory>
        requires { ArePicked self shown.now }
        ensures { IfOk result (λ fetched. fetched ≡ read_of self shown.now) }
    {
        let mut all = self;
        all.flush(shown)?;
        let Picking {
            alloc: _,
            fetched,
            rids: _,
            places: _,
            width: _,
            values: _,
            more: _,
        } = all;
        Ok(fetched)
    }

    /// Puts a row number behind the others, with a copy of its row, which has as many values as the others.
    fn put(&mut self, shown: &Rows, rid: u64, row: &[Value]) -> Result<(), NoMemory>
        requires picked { ArePicked self.old shown.now }
        requires wide { length row.now ≡ self.old.width }
        ensures { OnOk result (Picks self.old self.new shown.now ((rid, Some row.now) ∷ [])) }
    {
        let place = place_behind(shown, self.more)?;
        put_values(self.alloc, &mut self.values, row)?;
        self.rids.push(rid)?;
        self.places.push(place)?;
        self.more += 1;
        Ok(())
    }

    /// Puts a row number behind the others by itself, with a copy of its row, or none.
    fn push_apart(&mut self, shown: &Rows, rid: u64, row: Option<&[Value]>) -> Result<(), NoMemory>
        requires { ArePicked self.old shown.now }
        ensures { OnOk result (Picks self.old self.new shown.now ((rid, option_copied row.entry) ∷ [])) }
    {
        self.flush(shown)?;
        let row = row_of(self.alloc, row)?;
        self.fetched.push(rid, row)?;
        Ok(())
    }

    /// Ends the piece of the rows that are picked.
    fn flush(&mut self, shown: &Rows) -> Result<(), NoMemory>
        requires { ArePicked self.old shown.now }
        ensures { OnOk result (HasGone self.old self.new shown.now) }
    {
        if self.rids.is_empty() {
            return Ok(());
        }
        let rids = std::mem::replace(&mut self.rids, Vec::new(self.alloc));
        let places = std::mem::replace(&mut self.places, Vec::new(self.alloc));
        let values = std::mem::replace(&mut self.values, Vec::new(self.alloc));
        let more = std::mem::replace(&mut self.more, 0);
        let rows = shown.picked(self.alloc, values, self.width, more, places)?;
        self.fetched.push_each(rids, rows)?;
        Ok(())
    }
}

/// A copy of a row, or none.
fn row_of(alloc: Global, row: Option<&[Value]>) -> Result<Option<Row>, NoMemory>
    ensures { IfOk result (λ copy. copy ≡ option_copied row.entry) }
{
    match row {
        Some(row) => Ok(Some(Row::of(copied(alloc, row)?))),
        None => Ok(None),
    }
}
