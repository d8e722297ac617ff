ghost use Rattle.std.specs.Prelude.{◌≡◌, ◌^◌, ◌<◌, ◌≤◌, List};
ghost use Rattle.std.specs.Bool.{OnTrue};
ghost use Rattle.im_tables.specs.Table.{HasCell};
ghost use Rattle.im_blocks.specs.declared.pages.Page.{Page as AnyPage};
ghost use Rattle.im_blocks.specs.inner.Pages as spec;
ghost use Rattle.im_blocks.specs.inner.Pages.{AreNoted, HidesOne, IsNoted, IsNotedAt, ShowWithin, StayShown};

use crate::drawing::image_of;
use crate::image::Image;
use crate::ready::Ready;
use crate::version_table::VersionTable;
use crate::version_table::extents::Asked;
use im_tables::{Cell, Cells};
use im_values::NoMemory;
use std::alloc::Global;

/// How many row numbers a page has.
pub const PAGE: u64 = 2048;

/// Once so many rows of a page were read one by one, the next read finds a new image. To copy a page costs some three times as much.
const ENOUGH: u64 = 512;

/// A run of so many rows is read together without an image, and counts for none.
const LONG: usize = 64;

/// What is kept of row numbers in a row beside their versions.
#[derive(Drop)]
pub struct Page {
    /// How many times a row was changed or put since the image was made: so many are read one by one, or fewer.
    pub apart: u64,
    /// How many were read so since.
    pub read: u64,
    /// The SCN of the last commit that did so, or 0.
    pub noted: u64,
    /// The image, if one was made.
    pub image: Option<Image>,
}

impl Cell for Page {
    ghost blank = { spec.no_page };

    fn empty(_alloc: Global) -> Page {
        Page {
            apart: 0,
            read: 0,
            noted: 0,
            image: None,
        }
    }
}

impl Page {
    /// Whether so many rows were read one by one that an image pays, and one of the newest rows serves at this SCN. Those that are
    /// read now, so many at most, count from the next time on.
    fn is_due(&mut self, scn: u64, most: u64) -> bool
        ensures { self.new.image ≡ self.old.image }
    {
        let due = self.read >= ENOUGH && self.noted <= scn;
        self.read = self.read.saturating_add(self.apart.min(most));
        due
    }

    /// Takes note of a change of the row at a place by the commit with this SCN. It is not shown any more.
    fn note(&mut self, place: u64, scn: u64)
        ensures { IsNoted self.old self.new place }
    {
        self.forget(place);
        self.apart = self.apart.saturating_add(1);
        self.noted = scn;
    }

    /// Shows the row at a place no more.
    fn forget(&mut self, place: u64)
        ensures { IsNoted self.old self.new place }
    {
        match &mut self.image {
            Some(image) => image.forget(place),
            None => (),
        }
    }
}

/// The row number that a change is to, or the first of those that rows are put at, and its table.
fn place_of(one: &Ready) -> (u32, u64)
    ensures { result ≡ spec.place_in one.now }
{
    match one {
        Ready::Run {
            table,
            first,
            rows: _,
        } => (*table, *first),
        Ready::One(change) => (change.table, change.rid),
    }
}

/// Whether rows are put that are read together without an image.
fn is_long(one: &Ready) -> bool
    ensures { OnTrue result ((pages : List (List AnyPage)) → HidesOne pages one.now) }
{
    match one {
        Ready::Run {
            table: _,
            first: _,
            rows,
        } => rows.len() >= LONG,
        Ready::One(_) => false,
    }
}

/// Takes note of a change of the row of a row number by the commit with this SCN.
fn note(pages: &mut Cells<Page>, table: u32, rid: u64, scn: u64)
    ensures { IsNotedAt pages.old pages.new table rid }
{
    let number = rid / PAGE;
    if number < pages.count(table) {
        pages.cell_mut(table, number).note(rid % PAGE, scn);
    }
}

/// Takes note of the changes of the commit with this SCN: no row that one of them changes is shown any more. It takes no memory.
pub fn note_each(pages: &mut Cells<Page>, ready: &[Ready], scn: u64)
    ensures { AreNoted pages.old pages.new ready.now }
{
    for one in ready {
        if is_long(one) {
            continue;
        }
        let (table, rid) = place_of(one);
        note(pages, table, rid, scn);
    }
}

/// Sees to it that the pages are there that changes are noted in. Where memory is out, one is missing: it has no image then.
pub fn reserve_each(pages: &mut Cells<Page>, ready: &[Ready])
    ensures { ShowWithin pages.old pages.new }
{
    for one in ready {
        let (table, rid) = place_of(one);
        let number = rid / PAGE;
        if number >= pages.count(table) {
            let _ = pages.reserve(table, number);
        }
    }
}

/// Whether the image of a page is due, of which so many rows at most are read now.
fn is_due(pages: &mut Cells<Page>, asked: Asked, number: u64, most: u64) -> bool
    requires { HasCell pages.old asked.table number }
    ensures there { HasCell pages.new asked.table number }
    ensures within { ShowWithin pages.old pages.new }
{
    pages.cell_mut(asked.table, number).is_due(asked.scn, most)
}

/// Makes the image of a page anew, of which so many rows at most are read now, where that is due.
fn renew(
    alloc: Global,
    versions: &VersionTable,
    pages: &mut Cells<Page>,
    asked: Asked,
    number: u64,
    most: u64,
) -> Result<(), NoMemory>
    requires number { number < 2 ^ 53 }
    ensures { StayShown versions.now pages.old pages.new }
{
    let table = asked.table;
    if number >= pages.count(table) {
        return Ok(());
    }
    if !is_due(pages, asked, number, most) {
        return Ok(());
    }
    let first = number * PAGE;
    let count = versions.count(table).saturating_sub(first).min(PAGE);
    let image = image_of(alloc, versions, table, first, count)?;
    *pages.cell_mut(table, number) = Page {
        apart: 0,
        read: 0,
        noted: 0,
        image: Some(image),
    };
    Ok(())
}

/// The number of the page behind those of the row numbers before one.
fn page_behind(end: u64) -> u64
    ensures { result ≤ 2 ^ 53 }
{
    end.saturating_add(PAGE - 1) / PAGE
}

/// Makes the images of the pages of row numbers from the first on anew, where that is due, as so many of their rows at most are
/// read now. Where memory is out, a page stays as it is.
pub fn renew_each(
    alloc: Global,
    versions: &VersionTable,
    pages: &mut Cells<Page>,
    asked: Asked,
    first: u64,
    most: u64,
)
    ensures { StayShown versions.now pages.old pages.new }
{
    let end = page_behind(asked.end).min(pages.count(asked.table));
    for number in first / PAGE..end {
        let _ = renew(alloc, versions, pages, asked, number, most);
    }
}
