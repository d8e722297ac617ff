ghost use Rattle.std.specs.Prelude.{◌≡◌, ◌+◌, ◌-◌, ◌*◌, ◌<◌, ◌≤◌, ◌==◌, ◌++◌, [], All, drop, get_or, length, map, slice_get, take, IfOk, Some};
ghost use Rattle.std.specs.List.{slice_range};
ghost use Rattle.std.specs.Arc.{arc_value};
ghost use Rattle.im_values.specs.Runs.{picked, rows_in, rows_of_both, AreBothThere, LieInside};
ghost use Rattle.im_values.specs.Stretches.{cut};

use crate::no_memory::NoMemory;
use crate::row::Row;
use crate::value::Value;
use std::alloc::Global;
use std::marker::Model;
use std::sync::Arc;

/// How rows are kept.
#[derive(Drop)]
enum Form {
    /// One behind another in a block.
    Laid(Arc<Vec<Value>>),
    /// Picked of two blocks.
    Picked(Arc<Picks>),
}

/// Which rows of two blocks are picked, in order.
#[derive(Drop)]
struct Picks {
    /// The first block.
    block: Arc<Vec<Value>>,
    /// Where its rows begin.
    first: u32,
    /// How many they are.
    count: u32,
    /// The second block, whose rows are counted on behind those of the first.
    others: Arc<Vec<Value>>,
    /// How many these are.
    more: u32,
    /// The places of the rows.
    places: Vec<u32>,
}

/// A run of rows of one width, which lie one behind another in a block that they share, or are picked of two such blocks.
///
/// Contracts see the list of rows. A run takes 32 bytes beside the blocks, which live as long as any run or row of them.
#[derive(Drop)]
pub struct Rows {
    form: Form,
    first: u32,
    width: u32,
    count: u32,
}

impl Model for Rows {
    ghost use Rattle.std.specs.Prelude.{List};
    ghost use Rattle.im_values.specs.declared.content.Content.{Content as AnyValue};

    ghost Value = { List (List AnyValue) };

    ghost use Rattle.im_values.specs.Runs.{rows_in, LieInside};

    ghost view = { λ r. rows_in r.form r.first r.width r.count };

    ghost invariant = { λ r. LieInside r.form r.first r.width r.count };
}

/// A number of 32 bits. What has a greater one has no room in memory.
fn small(number: usize) -> Result<u32, NoMemory>
    ensures { IfOk result (λ small. small ≡ number) }
{
    match u32::try_from(number) {
        Ok(small) => Ok(small),
        Err(_) => Err(NoMemory),
    }
}

/// Where a row is found.
#[derive(Clone, Copy)]
struct Place<'a> {
    /// Its block.
    block: &'a Arc<Vec<Value>>,
    /// Where it begins there.
    start: usize,
}

/// Where the row at a place of two blocks is found.
fn picked_place(picks: &Picks, width: usize, place: u32) -> Place<'_>
    requires there { AreBothThere picks.now width }
    requires within { place < picks.now.count + picks.now.more }
    ensures inside { result.start + width ≤ length (arc_value result.block.now).items }
    ensures row { get_or (rows_of_both picks.now width) place [] ≡ slice_range (arc_value result.block.now).items result.start (result.start + width) }
{
    if place < picks.count {
        Place {
            block: &picks.block,
            start: place_of(
                &picks.block,
                picks.first as usize,
                width,
                picks.count as usize,
                place as usize,
            ),
        }
    } else {
        Place {
            block: &picks.others,
            start: other_place(&picks.others, width, picks.more, place - picks.count),
        }
    }
}

/// Where the row at a place of rows is found, of which there are so many from a first one on.
fn place_in(form: &Form, first: usize, width: usize, count: usize, at: usize) -> Place<'_>
    requires inside { LieInside form.now first width count }
    requires within { at < length (rows_in form.now first width count) }
    ensures inside { result.start + width ≤ length (arc_value result.block.now).items }
    ensures row { slice_get (rows_in form.now first width count) at ≡ Some (slice_range (arc_value result.block.now).items result.start (result.start + width)) }
{
    match form {
        Form::Laid(block) => Place {
            block,
            start: place_of(block, first, width, count, at),
        },
        Form::Picked(picks) => picked_place(picks, width, picks.places[first + at]),
    }
}

/// So many of the rows of a form, from a first one on, shared. It is refused where as many share the block as can.
fn shared(form: &Form, first: u32, width: u32, count: u32) -> Result<Rows, NoMemory>
    requires { LieInside form.now first width count }
    ensures { IfOk result (λ rows. rows ≡ rows_in form.now first width count) }
{
    match form {
        Form::Laid(block) => Ok(Rows {
            form: Form::Laid(block.clone()?),
            first,
            width,
            count,
        }),
        Form::Picked(picks) => Ok(Rows {
            form: Form::Picked(picks.clone()?),
            first,
            width,
            count,
        }),
    }
}

/// Rows to be picked of so many of a block, from a first one on, and of so many others. It is refused where as many share the block
/// as can.
fn picks_of(
    block: &Arc<Vec<Value>>,
    first: u32,
    count: u32,
    width: usize,
    others: Arc<Vec<Value>>,
    more: u32,
    places: Vec<u32>,
) -> Result<Picks, NoMemory>
    requires laid { first + count * width ≤ length (arc_value block.now).items }
    requires long { length (arc_value others).items ≡ more * width }
    requires places { All (λ place. place < count + more) places.items }
    ensures there { IfOk result (λ picks. AreBothThere picks width) }
    ensures rows { IfOk result (λ picks. rows_of_both picks width
        ≡ cut count width (drop first (arc_value block.now).items) ++ cut more width (arc_value others).items) }
    ensures places { IfOk result (λ picks. picks.places.items ≡ places.items) }
{
    Ok(Picks {
        block: block.clone()?,
        first,
        count,
        others,
        more,
        places,
    })
}

/// The first of so many rows from a place on.
fn part_first(
    form: &Form,
    first: usize,
    width: usize,
    count: usize,
    from: usize,
    many: usize,
) -> usize
    requires inside { LieInside form.now first width count }
    requires within { from + many ≤ length (rows_in form.now first width count) }
    ensures inside { LieInside form.now result width many }
    ensures rows { rows_in form.now result width many ≡ take many (drop from (rows_in form.now first width count)) }
{
    match form {
        Form::Laid(block) => part_place(block, first, width, count, from, many),
        Form::Picked(_) => first + from,
    }
}

impl Rows {
    /// So many rows of so many values each, cut from these values in order.
    pub fn of(
        alloc: Global,
        values: Vec<Value>,
        width: usize,
        count: usize,
    ) -> Result<Rows, NoMemory>
        requires { length values.items ≡ count * width }
        ensures { IfOk result (λ rows. rows ≡ cut count width values.items) }
    {
        Ok(Rows {
            form: Form::Laid(Arc::new(alloc, values)?),
            first: 0,
            width: small(width)?,
            count: small(count)?,
        })
    }

    /// Rows of this run and others, picked by their places: the others, of so many values each, are counted on behind the run's.
    /// The run's block is shared. Where the run was picked itself, or its rows have not so many values, it counts as out of memory.
    pub fn picked(
        &self,
        alloc: Global,
        others: Vec<Value>,
        width: usize,
        more: usize,
        places: Vec<u32>,
    ) -> Result<Rows, NoMemory>
        requires long { length others.items ≡ more * width }
        requires places { All (λ place. place < length self.now + more) places.items }
        ensures { IfOk result (λ rows. rows ≡ picked (self.now ++ cut more width others.items) places.items) }
    {
        let Form::Laid(block) = &self.form else {
            return Err(NoMemory);
        };
        if self.width as usize != width {
            return Err(NoMemory);
        }
        let others = Arc::new(alloc, others)?;
        let picks = picks_of(
            block,
            self.first,
            self.count,
            width,
            others,
            small(more)?,
            places,
        )?;
        let count = small(picks.places.len())?;
        Ok(Rows {
            form: Form::Picked(Arc::new(alloc, picks)?),
            first: 0,
            width: self.width,
            count,
        })
    }

    /// How many rows there are.
    pub fn len(&self) -> usize
        ensures { result ≡ length self.now }
    {
        self.count as usize
    }

    /// Whether there is no row.
    pub fn is_empty(&self) -> bool
        ensures { result ≡ (length self.now == 0) }
    {
        self.len() == 0
    }

    /// The values of the row at a place, from 0. It takes no memory and counts nothing.
    pub fn values(&self, at: usize) -> &[Value]
        requires { at < length self.now }
        ensures { slice_get self.now at ≡ Some result.now }
    {
        let width = self.width as usize;
        let found = place_in(
            &self.form,
            self.first as usize,
            width,
            self.count as usize,
            at,
        );
        &found.block.as_slice()[found.start..found.start + width]
    }

    /// The row at a place, from 0. It shares the block, and is refused where as many share it as can.
    pub fn row(&self, at: usize) -> Result<Row, NoMemory>
        requires { at < length self.now }
        ensures { IfOk result (λ row. slice_get self.now at ≡ Some row) }
    {
        let width = self.width as usize;
        let found = place_in(
            &self.form,
            self.first as usize,
            width,
            self.count as usize,
            at,
        );
        Ok(Row::stretch(found.block.clone()?, found.start, width))
    }

    /// How many values each row has.
    pub fn width(&self) -> usize
        ensures { All (λ row. length row ≡ result) self.now }
    {
        self.width as usize
    }

    /// The same rows, shared. It is refused where as many share the block as can.
    pub fn share(&self) -> Result<Rows, NoMemory>
        ensures { IfOk result (λ rows. rows ≡ self.now) }
    {
        shared(&self.form, self.first, self.width, self.count)
    }

    /// So many of the rows from a place on, shared. It is refused where as many share the block as can.
    pub fn part(&self, from: usize, count: usize) -> Result<Rows, NoMemory>
        requires { from + count ≤ length self.now }
        ensures { IfOk result (λ rows. rows ≡ take count (drop from self.now)) }
    {
        let first = part_first(
            &self.form,
            self.first as usize,
            self.width as usize,
            self.count as usize,
            from,
            count,
        );
        shared(&self.form, small(first)?, self.width, small(count)?)
    }
}

/// Where the row at a place of a run begins in the block.
fn place_of(block: &Vec<Value>, first: usize, width: usize, count: usize, at: usize) -> usize
    requires inside { first + count * width ≤ length block.now.items }
    requires within { at < length (cut count width (drop first block.now.items)) }
    ensures inside { result + width ≤ length block.now.items }
    ensures row { slice_get (cut count width (drop first block.now.items)) at ≡ Some (slice_range block.now.items result (result + width)) }
{
    start_of(block, first, width, count, at)
}

/// Where so many rows of a run begin in the block, from a place on.
fn part_place(
    block: &Vec<Value>,
    first: usize,
    width: usize,
    count: usize,
    from: usize,
    many: usize,
) -> usize
    requires inside { first + count * width ≤ length block.now.items }
    requires within { from + many ≤ length (cut count width (drop first block.now.items)) }
    ensures inside { result + many * width ≤ length block.now.items }
    ensures rows { cut many width (drop result block.now.items) ≡ take many (drop from (cut count width (drop first block.now.items))) }
{
    start_of(block, first, width, count, from)
}

/// Where a row of so many values begins in a block of so many of them.
fn other_place(block: &Vec<Value>, width: usize, count: u32, at: u32) -> usize
    requires inside { count * width ≤ length block.now.items }
    requires within { at < count }
    ensures inside { result + width ≤ length block.now.items }
    ensures row { get_or (cut count width block.now.items) at [] ≡ slice_range block.now.items result (result + width) }
{
    place_of(block, 0, width, count as usize, at as usize)
}

/// Where the values behind so many of a run's rows begin in the block.
fn start_of(block: &Vec<Value>, first: usize, width: usize, count: usize, rows: usize) -> usize
    requires inside { first + count * width ≤ length block.now.items }
    requires few { rows ≤ count }
    ensures start { result ≡ first + rows * width }
    ensures rest { result + (count - rows) * width ≤ length block.now.items }
{
    let _ = block.len();
    first + rows * width
}
