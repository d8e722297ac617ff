ghost use Rattle.std.specs.Prelude.{◌≡◌, ◌+◌, ◌^◌, ◌<◌, ◌≤◌, ◌==◌, ℕ, [], All, Some, IfOk, OnOk, OnErr, if◌then◌else◌};
ghost use Rattle.std.specs.BTreeMap.{insert_entry};
ghost use Rattle.std.specs.Ordering.{nat_cmp};
ghost use Rattle.im_history.specs.Last.{last_at};

use im_values::{NoMemory, Row, clone_row};
use std::alloc::Global;
use std::collections::BTreeMap;
use std::collections::btree_map::Range;
use std::marker::Model;
use std::sync::Arc;

/// What the last change to each row number of a table left there: a row, or none.
///
/// Contracts see it as a list, which they read by row number. Who shares it sees no change that is put behind.
#[derive(Drop)]
pub struct LastRows {
    rows: Arc<BTreeMap<u64, Option<Row>>>,
}

impl Model for LastRows {
    ghost use Rattle.std.specs.Prelude.{List, ℕ, Option};
    ghost use Rattle.std.specs.Arc.{arc_value};
    ghost use Rattle.im_values.specs.declared.content.Content.{Content as AnyValue};

    ghost Value = { List (ℕ × Option (List AnyValue)) };

    ghost view = { λ l. (arc_value l.rows).entries };
}

impl LastRows {
    /// No row number.
    pub fn new(alloc: Global) -> Result<LastRows, NoMemory>
        ensures { IfOk result (λ last. last ≡ []) }
    {
        Ok(LastRows {
            rows: Arc::new(alloc, BTreeMap::new(alloc))?,
        })
    }

    /// The same, shared. It is refused where as many share it as can.
    pub fn share(&self) -> Result<LastRows, NoMemory>
        ensures { IfOk result (λ last. last ≡ self.now) }
    {
        Ok(LastRows {
            rows: Arc::try_clone(&self.rows)?,
        })
    }

    /// Leaves a row, or none, at a row number. Where others share this, they keep what there was, and it is copied first.
    pub fn put(&mut self, alloc: Global, rid: u64, row: &Option<Row>) -> Result<(), NoMemory>
        ensures ok { OnOk result ((other : ℕ) →
            last_at self.new other ≡ (if rid == other then Some row.now else last_at self.old other)) }
        ensures err { OnErr result (self.new ≡ self.old) }
    {
        let row = copied(alloc, row)?;
        self.unshare(alloc)?;
        match Arc::get_mut(&mut self.rows) {
            Some(rows) => insert(rows, rid, row),
            None => Err(NoMemory),
        }
    }

    /// Copies the rows, where others share them.
    fn unshare(&mut self, alloc: Global) -> Result<(), NoMemory>
        ensures { self.new ≡ self.old }
    {
        if Arc::strong_count(&self.rows) > 1 {
            self.rows = Arc::new(alloc, copied_map(alloc, &self.rows)?)?;
        }
        Ok(())
    }

    /// What stands at so many row numbers from the first on, in rising order.
    ///
    /// It costs a search and the row numbers that are there.
    pub fn between(&self, first: u64, count: u64) -> Range<'_, u64, Option<Row>>
        requires { first + count < 2 ^ 64 }
        ensures found { (rid : ℕ) → first ≤ rid → rid < first + count → last_at result rid ≡ last_at self.now rid }
        ensures each { All (λ slot. last_at self.now slot.0 ≡ Some slot.1) result }
        ensures within { All (λ slot. (first ≤ slot.0) × (slot.0 < first + count)) result }
    {
        self.rows.range(first..first + count)
    }
}

/// A copy of a row, or of none.
fn copied(alloc: Global, row: &Option<Row>) -> Result<Option<Row>, NoMemory>
    ensures { IfOk result (λ copy. copy ≡ row.now) }
{
    match row {
        Some(row) => Ok(Some(clone_row(alloc, row)?)),
        None => Ok(None),
    }
}

/// A copy of rows by row number.
fn copied_map(
    alloc: Global,
    rows: &BTreeMap<u64, Option<Row>>,
) -> Result<BTreeMap<u64, Option<Row>>, NoMemory>
    ensures { IfOk result (λ copies. copies.entries ≡ rows.now.entries) }
{
    let mut copies = BTreeMap::new(alloc);
    for (rid, row) in rows {
        insert(&mut copies, *rid, copied(alloc, row)?)?;
    }
    Ok(copies)
}

/// Puts a row, or none, at a row number.
fn insert(rows: &mut BTreeMap<u64, Option<Row>>, rid: u64, row: Option<Row>) -> Result<(), NoMemory>
    ensures entries { OnOk result (rows.new.entries ≡ insert_entry nat_cmp rows.old.entries rid row) }
    ensures ok { OnOk result ((other : ℕ) →
        last_at rows.new.entries other ≡ (if rid == other then Some row else last_at rows.old.entries other)) }
    ensures err { OnErr result (rows.new.entries ≡ rows.old.entries) }
{
    let _replaced = rows.insert(rid, row)?;
    Ok(())
}
