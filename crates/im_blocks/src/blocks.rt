ghost use Rattle.std.specs.Prelude.{◌≡◌, ◌+◌, ◌-◌, ◌/◌, ◌%◌, ◌^◌, ◌<◌, ◌≤◌, [], ◌∷◌, drop, length, min, option_copied, take, IfOk, IfSome, OnOk, Some};
ghost use Rattle.im_versions.specs.Versions.{row_at};
ghost use Rattle.im_blocks.specs.Chains as seen;
ghost use Rattle.im_blocks.specs.Chains.{newest_scn, rows_among, rows_at, versions_at};
ghost use Rattle.im_blocks.specs.Readied.{HasRoom, IsReadyFor, ready_changes};
ghost use Rattle.im_blocks.specs.Standing.{standing};
ghost use Rattle.im_blocks.specs.Transitions.{Applied, IsBefore, Purged, SameVersions};
ghost use Rattle.im_blocks.specs.inner.Gathering.{Gathers, IsWhole};
ghost use Rattle.im_blocks.specs.inner.Picked.{ArePicked, Picks};
ghost use Rattle.im_blocks.specs.inner.Reading.{AreRead, IsReadable, IsShownTo};
ghost use Rattle.im_history.specs.Fetched.{run_from};
ghost use Rattle.im_history.specs.Puts.{all_changes};

use crate::gathered::Gathered;
use crate::image::{Image, fresh_end};
use crate::pages::{PAGE, Page, note_each, renew_each, reserve_each};
use crate::picking::Picking;
use crate::ready::Ready;
use crate::scattered::Scattered;
use crate::version_table::VersionTable;
use crate::version_table::extents::{Asked, count};
use im_history::{Changes, Fetched};
use im_tables::Cells;
use im_values::{NoMemory, Steps, Value};
use std::alloc::Global;
use std::marker::Model;
use std::sync::ledger::Ledger;

/// The first number that no row has.
const END: u64 = 1 << 63;

/// The image of a page, lent.
#[derive(Clone, Copy)]
pub struct Shown<'a> {
    /// The page's number.
    pub number: u64,
    /// Its image.
    pub image: &'a Image,
}

/// The versions of every row of every table.
///
/// Contracts see where the versions of each row number are kept, and read them through `versions_at`. A row number takes 4
/// bytes. Rows that one commit put together at row numbers in a row share a run of 64 bytes; a row that was
/// touched again, or taken away, has a chain of 80 bytes. Of 2,048 row numbers in a row, once many of them were read one by one,
/// the newest rows are kept once more, side by side, so that a scan reads them together.
#[derive(Drop)]
pub struct Blocks {
    alloc: Global,
    versions: VersionTable,
    pages: Cells<Page>,
    /// No image is read at an SCN below it: the versions that it showed there may be gone.
    floor: u64,
}

impl Model for Blocks {
    ghost use Rattle.im_blocks.specs.Chains.{AllVersions};
    ghost use Rattle.im_blocks.specs.inner.Pages.{AreShown};

    ghost Value = { AllVersions };

    ghost view = { λ b. b.versions };

    ghost invariant = { λ b. AreShown b.versions b.floor b.pages };
}

impl Blocks {
    /// No versions of any row. It takes no memory.
    pub fn new(alloc: Global) -> Blocks
        ensures { result ≡ seen.no_versions }
    {
        Blocks {
            alloc,
            versions: VersionTable::new(alloc),
            pages: Cells::new(alloc),
            floor: 0,
        }
    }

    /// Makes the changes of these pieces ready to be put in, in order, and makes room for them.
    ///
    /// Rows that are put together at row numbers that have no version stay together, and are shared; those that are put a few values
    /// at a time at row numbers in a row are copied into one block. It costs one look-up for each row number below those that were
    /// ever used, and for each other change; and the chains that are new. After an error some room may be there.
    pub fn reserve(&mut self, pieces: &[Changes]) -> Result<Vec<Ready>, NoMemory>
        ensures same { SameVersions self.old self.new }
        ensures ready { IfOk result (λ ready. IsReadyFor self.new ready.items (all_changes pieces.now)) }
    {
        let ready = self.versions.reserve(pieces)?;
        reserve_each(&mut self.pages, ready.as_slice());
        Ok(ready)
    }

    /// Makes the images of the pages of so many row numbers from the first on anew, where that is due, as so many of their rows at
    /// most are read now at an SCN. Where memory is out, a page stays as it is.
    ///
    /// Once 512 rows of a page were read that its image did not show, its newest rows are copied, unless one was changed behind
    /// the SCN. Where nothing is due it costs a look at each page.
    pub fn draw(&mut self, table: u32, first: u64, count: u64, scn: u64, most: u64)
        ensures { self.new ≡ self.old }
    {
        let asked = Asked {
            table,
            end: first.saturating_add(count),
            scn,
        };
        renew_each(
            self.alloc,
            &self.versions,
            &mut self.pages,
            asked,
            first,
            most,
        );
    }

    /// Puts the changes of the commit with this SCN in: each row that they touch has one version more, with what the last
    /// change to it left. It takes no memory.
    pub fn apply(&mut self, scn: u64, ready: Vec<Ready>)
        requires room { HasRoom self.old ready.items }
        requires later { IsBefore self.old scn }
        ensures { Applied self.old self.new scn (ready_changes ready.items) }
    {
        note_each(&mut self.pages, ready.as_slice(), scn);
        self.versions.apply(scn, ready);
    }

    /// Lets go of the versions that no reading at this floor or above it asks for. It takes no memory.
    ///
    /// It costs a look at each row number that was touched again after the commit that put it, and what is let go of.
    pub fn purge(&mut self, floor: u64)
        ensures { Purged self.old self.new floor }
    {
        self.versions.purge(floor);
        self.floor = self.floor.max(floor);
    }

    /// How many versions stand, or the greatest number of 64 bits where there are more. It costs a look at each row number.
    pub fn versions(&self) -> u64
        ensures { result ≡ min (standing self.now) (2 ^ 64 - 1) }
    {
        self.versions.versions()
    }

    /// The values of the row of a row number at an SCN, or none where there was none. It is at most one step.
    pub fn at<L: Ledger>(
        &self,
        table: u32,
        rid: u64,
        scn: u64,
        steps: &mut Steps<L>,
    ) -> Option<&[Value]>
        ensures row { option_copied result ≡ row_at (versions_at self.now table rid) scn }
        ensures few { steps.new ≤ steps.old + 1 }
    {
        match self.shown_at(table, rid, scn) {
            Some(values) => {
                steps.tick();
                Some(values)
            }
            None => self.versions.at(table, rid, scn, steps),
        }
    }

    /// The SCN of the newest version of a row, 0 where it has none.
    pub fn latest(&self, table: u32, rid: u64) -> u64
        ensures { result ≡ newest_scn (versions_at self.now table rid) }
    {
        self.versions.latest(table, rid)
    }

    /// So many row numbers from the first on, each with its row at an SCN.
    ///
    /// Many rows of one run are shared together, and so are those of an image that were not changed since. Others are copied, and
    /// those that are copied at row numbers in a row share one block, so no row takes a handle. It costs a look at each slot and
    /// at most one step for each row number, and the copies.
    pub fn extent_rows<L: Ledger>(
        &self,
        alloc: Global,
        table: u32,
        first: u64,
        count: u64,
        scn: u64,
        steps: &mut Steps<L>,
    ) -> Result<Fetched, NoMemory>
        requires { first + count < 2 ^ 64 }
        ensures rows { IfOk result (λ fetched. fetched ≡ rows_at self.now table first count scn) }
        ensures few { steps.new ≤ steps.old + count }
    {
        let asked = Asked {
            table,
            end: first + count,
            scn,
        };
        let mut read = Gathered::new(alloc);
        let mut rid = first;
        while rid < asked.end {
            rid = self.read_from(&mut read, asked, rid, steps)?;
        }
        Ok(read.finish()?)
    }

    /// These row numbers, each with its row at an SCN.
    ///
    /// Rows that the image of the first one's page shows stay where they are. Copies of the others share one block, whichever row
    /// numbers they are. It costs one look-up and at most one step for each, and the copies.
    pub fn rows_of<L: Ledger>(
        &self,
        alloc: Global,
        table: u32,
        rids: &[u64],
        scn: u64,
        steps: &mut Steps<L>,
    ) -> Result<Fetched, NoMemory>
        ensures rows { IfOk result (λ fetched. fetched ≡ rows_among self.now table rids.now scn) }
        ensures few { steps.new ≤ steps.old + length rids.now }
    {
        match self.first_image(table, rids, scn) {
            Some(shown) => self.rows_beside(alloc, shown, table, rids, scn, steps),
            None => self.copied_rows(alloc, table, rids, scn, steps),
        }
    }

    /// These row numbers, each with a copy of its row at an SCN.
    fn copied_rows<L: Ledger>(
        &self,
        alloc: Global,
        table: u32,
        rids: &[u64],
        scn: u64,
        steps: &mut Steps<L>,
    ) -> Result<Fetched, NoMemory>
        ensures rows { IfOk result (λ fetched. fetched ≡ rows_among self.now table rids.now scn) }
        ensures few { steps.new ≤ steps.old + length rids.now }
    {
        let mut read = Scattered::new(alloc, rids.len())?;
        for rid in rids {
            read.push(*rid, self.at(table, *rid, scn, steps))?;
        }
        Ok(read.finish()?)
    }

    /// These row numbers, each with its row at an SCN: where it is, where an image shows it, and else a copy.
    fn rows_beside<L: Ledger>(
        &self,
        alloc: Global,
        shown: Shown<'_>,
        table: u32,
        rids: &[u64],
        scn: u64,
        steps: &mut Steps<L>,
    ) -> Result<Fetched, NoMemory>
        requires readable { IsReadable self.now table shown.number scn shown.image.now }
        ensures rows { IfOk result (λ fetched. fetched ≡ rows_among self.now table rids.now scn) }
        ensures few { steps.new ≤ steps.old + length rids.now }
    {
        let rows = &shown.image.rows;
        let mut read = Picking::new(alloc, rows, rids.len())?;
        for rid in rids {
            self.pick_from(&mut read, shown, table, *rid, scn, steps)?;
        }
        Ok(read.finish(rows)?)
    }

    /// Reads what is at a row number, by an image where that shows it.
    fn pick_from<L: Ledger>(
        &self,
        read: &mut Picking,
        shown: Shown<'_>,
        table: u32,
        rid: u64,
        scn: u64,
        steps: &mut Steps<L>,
    ) -> Result<(), NoMemory>
        requires readable { IsReadable self.now table shown.number scn shown.image.now }
        requires picked { ArePicked read.old shown.image.now.rows }
        ensures read { OnOk result (Picks read.old read.new shown.entry.image.now.rows ((rid, row_at (versions_at self.now table rid) scn) ∷ [])) }
        ensures few { steps.new ≤ steps.old + 1 }
    {
        let rows = &shown.image.rows;
        if rid / PAGE == shown.number && shown.image.shows(rid % PAGE) {
            steps.tick();
            return read.pick(rows, rid, (rid % PAGE) as u32);
        }
        read.push(rows, rid, self.versions.at(table, rid, scn, steps))
    }

    /// The image of the page of the first of some row numbers, where what it shows can be read at an SCN and it has a row.
    fn first_image(&self, table: u32, rids: &[u64], scn: u64) -> Option<Shown<'_>>
        ensures { IfSome result (λ shown. IsReadable self.now table shown.number scn shown.image.now) }
    {
        let rid = rids.first()?;
        let image = self.image_at(table, *rid, scn)?;
        if image.rows.is_empty() {
            return None;
        }
        Some(Shown {
            number: *rid / PAGE,
            image,
        })
    }

    /// The image of the page of a row number, where what it shows can be read at an SCN.
    fn image_at(&self, table: u32, rid: u64, scn: u64) -> Option<&Image>
        ensures { IfSome result (λ image. IsReadable self.now table (rid / 2048) scn image.now) }
    {
        if scn < self.floor {
            return None;
        }
        let page = self.pages.get(table, rid / PAGE)?;
        let image = page.image.as_ref()?;
        if image.scn > scn {
            return None;
        }
        Some(image)
    }

    /// The values of the row of a row number at an SCN, where an image shows it.
    fn shown_at(&self, table: u32, rid: u64, scn: u64) -> Option<&[Value]>
        ensures { IfSome result (λ row. row_at (versions_at self.now table rid) scn ≡ Some row.now) }
    {
        let image = self.image_at(table, rid, scn)?;
        let values = image.values(rid % PAGE)?;
        Some(values)
    }

    /// Reads what is at a row number, and at those behind it that are read together with it. It answers the next row number.
    fn read_from<L: Ledger>(
        &self,
        read: &mut Gathered,
        asked: Asked,
        rid: u64,
        steps: &mut Steps<L>,
    ) -> Result<u64, NoMemory>
        requires whole { IsWhole read.old }
        requires before { rid < asked.end }
        ensures next { IfOk result (λ next. AreRead self.now asked rid next read.old read.new) }
        ensures counted { IfOk result (λ next. steps.new + rid ≤ steps.old + next) }
        ensures few { steps.new + rid ≤ steps.old + asked.end }
    {
        if asked.end > END {
            return self.versions.fetch_from(read, asked, rid, steps);
        }
        if let Some(image) = self.image_at(asked.table, rid, asked.scn) {
            let next = shown_end(image, asked, rid);
            if next > rid {
                read_image(image, read, rid, next, steps)?;
                return Ok(next);
            }
        }
        self.versions
            .fetch_from(read, asked.in_page(rid), rid, steps)
    }
}

/// The first row number from one on that is not shown by the image of its page, or where the page or what is asked for ends.
fn shown_end(image: &Image, asked: Asked, rid: u64) -> u64
    requires { rid < asked.end }
    ensures { IsShownTo image.now asked rid result }
{
    let place = rid % PAGE;
    let rows = (image.fresh.len().min(image.rows.len()) as u64).min(PAGE);
    if place >= rows {
        return rid;
    }
    let end = rows.min(place + (asked.end - rid));
    let next = fresh_end(image.fresh.as_slice(), place as usize, end as usize) as u64;
    rid + (next - place)
}

/// Reads rows of an image from a row number up to another.
fn read_image<L: Ledger>(
    image: &Image,
    read: &mut Gathered,
    rid: u64,
    next: u64,
    steps: &mut Steps<L>,
) -> Result<(), NoMemory>
    requires whole { IsWhole read.old }
    requires some { rid < next }
    requires upto { next ≤ 2 ^ 63 }
    requires within { rid % 2048 + (next - rid) ≤ length image.now.rows }
    ensures next { OnOk result (Gathers read.old read.new (run_from rid (take (next - rid) (drop (rid % 2048) image.now.rows)))) }
    ensures counted { steps.new ≡ steps.old + (next - rid) }
{
    let many = next - rid;
    count(steps, many);
    read.take(rid, &image.rows, (rid % PAGE) as usize, many as usize)?;
    Ok(())
}
