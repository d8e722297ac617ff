ghost use Rattle.std.specs.Prelude.{◌≡◌, ◌<◌, ◌≤◌, ◌+◌, ◌++◌, [], ◌∷◌, ℕ, List, length, true, IfOk, IfErr, OnOk};
ghost use Rattle.std.specs.Arc.{arc_value};
ghost use Rattle.std.specs.Option.{option_map};
ghost use Rattle.im_group.specs.Answers.{answer};
ghost use Rattle.im_group.specs.Partials as group;
ghost use Rattle.im_history.specs.Legal.{IsLawful};
ghost use Rattle.im_plan.specs.Plan.{Plan};
ghost use Rattle.im_reach.specs.Sides.{speaks};
ghost use Rattle.im_replies.specs.declared.body.Body.TheVariants as body;
ghost use Rattle.im_replies.specs.declared.served.Served.{Served as Mark};
ghost use Rattle.im_replies.specs.Mixes.{reads};
ghost use Rattle.im_scan.specs.Faces.{how_of};
ghost use Rattle.im_scan.specs.Pinned.{seen_all, seen_in};
ghost use Rattle.im_session.specs.inner.Cursors.{IsKept};
ghost use Rattle.im_session.specs.inner.Scans.{Comes, IsRead, Stops, Went};
ghost use Rattle.im_session.specs.inner.Pins.{HasLeft, HasPins, HasWanted, IsAsked, IsPinOf, kept_pins};
ghost use Rattle.im_session.specs.inner.Serving.{HasRead, wanted_of};
ghost use Rattle.im_session.specs.Reads.{AreRead, reads_of};
ghost use Rattle.im_session.specs.declared.serving.Wanted.TheVariants.{Marks};
ghost use Rattle.im_statements.specs.Outcomes.{Outcome};
ghost use Rattle.im_statements.specs.Scans as plan;
ghost use Rattle.im_statements.specs.Turns.{served_reply};

use crate::context::Context;
use crate::cursor::Cursor;
use crate::parts::{parts_behind, pinned_part};
use im_core::Pin;
use im_edge::{At, Gate};
use im_group::Partial;
use im_reach::Reach;
use im_replies::{Body, Records, Reply, Served};
use im_scan::how;
use im_syntax::Bound;
use im_unit::ColumnUnit;
use im_values::limits::NUMBERS;
use im_values::{List, NoMemory, Steps};
use std::alloc::Global;
use std::sync::Wait;
use std::sync::ledger::Ledger;
use std::thread::Threads;

/// What is wanted of each extent that a scan is served.
#[derive(Clone, Copy)]
pub enum Wanted {
    /// How it was served, and what its rows give to the query.
    Parts,
    /// How it was served.
    Marks,
}

/// Reads what a scan with an open cursor needs of an extent. The gate is called before and after it, outside the store's turn.
fn read<R: Wait, H: Reach<ColumnUnit>, G: Gate, L: Ledger>(
    context: &Context<R, G>,
    reach: &mut H,
    cursor: &Cursor,
    extent: u64,
    steps: &mut Steps<L>,
) -> Result<Pin<ColumnUnit>, NoMemory>
    requires session { context.now.who < NUMBERS }
    requires speaks { speaks (H.known reach.old).side context.now.who ≡ true }
    requires kept { IsKept context.now.who cursor.now (H.known reach.old) }
    requires within { extent < cursor.now.view.extents }
    ensures went { Went (H.known reach.old) (H.known reach.new) }
    ensures lawful { IsLawful (H.known reach.new).limits (H.known reach.new).log }
    ensures read { IfOk result (λ pin. IsRead (H.known reach.new).log cursor.now.view extent pin.place (option_map arc_value pin.unit) pin.fetched) }
    ensures ticks { AreRead context.now.who cursor.now.number cursor.now.view extent (extent + 1) steps.old steps.new (H.known reach.old).log
        (H.known reach.new).log }
    ensures rows { IfOk result (λ pin. steps.new ≤ steps.old + length pin.fetched) }
{
    let at = At::Step {
        cursor: cursor.number,
        extent,
    };
    let (outside, who) = (context.outside, context.who);
    outside.gate.before(outside.rt, who, at);
    let pinned = reach.pin(outside.rt, who, cursor.number, extent, steps);
    outside.gate.after(who, at);
    match pinned {
        Ok(pin) => Ok(pin),
        Err(_) => Err(NoMemory),
    }
}

/// How an extent that was read is served. It takes no memory.
fn mark(pin: &Pin<ColumnUnit>, extent: u64, bound: &Bound) -> Served
    ensures { result ≡ record { place = pin.now.place; extent = extent; how = how_of (option_map arc_value pin.now.unit) pin.now.fetched bound.now.filter } }
{
    Served {
        place: pin.place,
        extent,
        how: how(pin, bound),
    }
}

/// An extent that a scan read.
#[derive(Drop)]
pub struct ServedPin {
    /// How it was served.
    pub mark: Served,
    /// What was read of it.
    pub pin: Pin<ColumnUnit>,
}

/// Reads what a scan with an open cursor needs of an extent, and says how it is served.
fn served_pin<R: Wait, H: Reach<ColumnUnit>, G: Gate, L: Ledger>(
    context: &Context<R, G>,
    reach: &mut H,
    cursor: &Cursor,
    extent: u64,
    steps: &mut Steps<L>,
) -> Result<ServedPin, NoMemory>
    requires session { context.now.who < NUMBERS }
    requires speaks { speaks (H.known reach.old).side context.now.who ≡ true }
    requires kept { IsKept context.now.who cursor.now (H.known reach.old) }
    requires within { extent < cursor.now.view.extents }
    ensures went { Went (H.known reach.old) (H.known reach.new) }
    ensures mark { IfOk result (λ served.
        served.mark ≡ plan.mark_at (H.known reach.new).log cursor.now.view cursor.now.bound.filter extent) }
    ensures pin { IfOk result (λ served. IsPinOf cursor.now.bound cursor.now.view (H.known reach.old).log extent served.pin) }
    ensures ticks { AreRead context.now.who cursor.now.number cursor.now.view extent (extent + 1) steps.old steps.new (H.known reach.old).log
        (H.known reach.new).log }
    ensures rows { IfOk result (λ served. steps.new ≤ steps.old + reads cursor.now.view extent served.mark.how) }
{
    let pin = read(context, reach, cursor, extent, steps)?;
    let mark = mark(&pin, extent, &cursor.bound);
    Ok(ServedPin { mark, pin })
}

/// An extent that a scan was served.
#[derive(Drop)]
pub struct ServedPart {
    /// How it was served.
    pub mark: Served,
    /// What its rows give to the query.
    pub part: Partial,
}

/// Serves a scan with an open cursor an extent.
pub fn served_part<R: Wait, H: Reach<ColumnUnit>, G: Gate, L: Ledger>(
    context: &Context<R, G>,
    reach: &mut H,
    cursor: &Cursor,
    extent: u64,
    steps: &mut Steps<L>,
) -> Result<ServedPart, NoMemory>
    requires session { context.now.who < NUMBERS }
    requires speaks { speaks (H.known reach.old).side context.now.who ≡ true }
    requires kept { IsKept context.now.who cursor.now (H.known reach.old) }
    requires within { extent < cursor.now.view.extents }
    ensures went { Went (H.known reach.old) (H.known reach.new) }
    ensures mark { IfOk result (λ served.
        served.mark ≡ plan.mark_at (H.known reach.new).log cursor.now.view cursor.now.bound.filter extent) }
    ensures part { IfOk result (λ served.
        served.part ≡ group.partial cursor.now.bound (seen_in (H.known reach.old).log cursor.now.view extent)) }
    ensures ticks { AreRead context.now.who cursor.now.number cursor.now.view extent (extent + 1) steps.old steps.new (H.known reach.old).log
        (H.known reach.new).log }
    ensures rows { IfOk result (λ served. steps.new ≤ steps.old + reads cursor.now.view extent served.mark.how) }
{
    let served = served_pin(context, reach, cursor, extent, steps)?;
    let ServedPin { mark, pin } = served;
    let made = pinned_part(context.outside.alloc, cursor, extent, &pin);
    drop(pin);
    let part = made?;
    Ok(ServedPart { mark, part })
}

/// All extents that a scan was served.
#[derive(Drop)]
pub struct AllServed {
    /// How each was served, in the order of serving.
    pub marks: Vec<Served>,
    /// What was read of each, where its part is wanted.
    pub pins: Vec<Pin<ColumnUnit>>,
}

impl AllServed {
    /// Takes the next extent. Where memory is out, what stands there is not to be used any more.
    fn take(&mut self, served: ServedPin, wanted: Wanted) -> Result<(), NoMemory>
        ensures marks { OnOk result (self.new.marks.items ≡ self.old.marks.items ++ served.mark ∷ []) }
        ensures pins { OnOk result (self.new.pins.items ≡ kept_pins wanted self.old.pins.items served.pin) }
    {
        let ServedPin { mark, pin } = served;
        match wanted {
            Wanted::Parts => self.pins.push(pin)?,
            Wanted::Marks => drop(pin),
        }
        self.marks.push(mark)?;
        Ok(())
    }
}

/// Reads all extents of a scan with an open cursor from its next one on, one after the other. What was read is kept where the parts of
/// the extents are wanted.
fn serve_all<R: Wait, H: Reach<ColumnUnit>, G: Gate, L: Ledger>(
    context: &Context<R, G>,
    reach: &mut H,
    cursor: &Cursor,
    wanted: Wanted,
    steps: &mut Steps<L>,
) -> Result<AllServed, NoMemory>
    requires session { context.now.who < NUMBERS }
    requires speaks { speaks (H.known reach.old).side context.now.who ≡ true }
    requires kept { IsKept context.now.who cursor.now (H.known reach.old) }
    ensures went { Went (H.known reach.old) (H.known reach.new) }
    ensures pins { IfOk result (λ all. HasPins wanted cursor.now.bound cursor.now.view (H.known reach.old).log cursor.now.next
        cursor.now.view.extents all.pins.items) }
    ensures marks { IfOk result (λ all. (k : ℕ) (on : List Mark → Plan Outcome) →
        Comes context.now.who k (H.known reach.old) (plan.serve_from cursor.now.view cursor.now.bound.filter cursor.now.next on)
        (H.known reach.new) (on all.marks.items)) }
    ensures err { IfErr result (λ lacks. (k : ℕ) (on : List Mark → Plan Outcome) →
        Stops context.now.who k (H.known reach.old) (plan.serve_from cursor.now.view cursor.now.bound.filter cursor.now.next on)
        (H.known reach.new)) }
    ensures ticks { HasRead context.now.who cursor.now steps.old steps.new (H.known reach.old).log (H.known reach.new).log }
    ensures rows { IfOk result (λ all. steps.new ≤ steps.old + reads_of cursor.now.view all.marks.items) }
{
    let mut all = AllServed {
        marks: Vec::new(context.outside.alloc),
        pins: Vec::new(context.outside.alloc),
    };
    for extent in cursor.next..cursor.view.extents {
        let Ok(served) = served_pin(context, reach, cursor, extent, steps) else {
            drop(all);
            return Err(NoMemory);
        };
        let Ok(()) = all.take(served, wanted) else {
            drop(all);
            return Err(NoMemory);
        };
    }
    Ok(all)
}

/// What all extents from a cursor's next one on give, behind those before, where that is wanted of the scan, and else what no rows do.
fn wanted_part<R: Threads + Sync>(
    rt: &R,
    alloc: Global,
    cursor: &Cursor,
    wanted: Wanted,
    pins: &[Pin<ColumnUnit>],
) -> Result<Partial, NoMemory>
    requires asked { IsAsked cursor.now.bound cursor.now.view }
    requires left { HasLeft wanted cursor.now pins.now }
    ensures { IfOk result (HasWanted wanted cursor.now pins.now) }
{
    match wanted {
        Wanted::Parts => parts_behind(rt, alloc, cursor, pins),
        Wanted::Marks => Partial::of_lent(alloc, &cursor.bound, &[]),
    }
}

/// What a scan has been served: the marks in the order of serving, and the parts of all extents, merged.
#[derive(Drop)]
pub struct Gathered {
    pub marks: Vec<Served>,
    pub part: Partial,
}

/// Serves a scan with an open cursor all extents from its next one on, behind what those before it gave. The cursor itself stays as
/// it is.
///
/// All extents are read first, one after the other. Then their parts are made, and many of them at once, on threads of their own.
pub fn gather<R: Threads + Wait + Sync, H: Reach<ColumnUnit>, G: Gate, L: Ledger>(
    context: &Context<R, G>,
    reach: &mut H,
    cursor: &Cursor,
    wanted: Wanted,
    steps: &mut Steps<L>,
) -> Result<Gathered, NoMemory>
    requires session { context.now.who < NUMBERS }
    requires speaks { speaks (H.known reach.old).side context.now.who ≡ true }
    requires kept { IsKept context.now.who cursor.now (H.known reach.old) }
    requires first { wanted ≡ Marks → cursor.now.next ≡ 0 }
    ensures went { Went (H.known reach.old) (H.known reach.new) }
    ensures part { IfOk result (λ gathered.
        gathered.part ≡ group.partial cursor.now.bound (wanted_of wanted (seen_all (H.known reach.old).log cursor.now.view))) }
    ensures marks { IfOk result (λ gathered. (k : ℕ) (on : List Mark → Plan Outcome) →
        Comes context.now.who k (H.known reach.old) (plan.serve_from cursor.now.view cursor.now.bound.filter cursor.now.next on)
        (H.known reach.new) (on gathered.marks.items)) }
    ensures err { IfErr result (λ lacks. (k : ℕ) (on : List Mark → Plan Outcome) →
        Stops context.now.who k (H.known reach.old) (plan.serve_from cursor.now.view cursor.now.bound.filter cursor.now.next on)
        (H.known reach.new)) }
    ensures ticks { HasRead context.now.who cursor.now steps.old steps.new (H.known reach.old).log (H.known reach.new).log }
    ensures rows { IfOk result (λ gathered. steps.new ≤ steps.old + reads_of cursor.now.view gathered.marks.items) }
{
    let served = serve_all(context, reach, cursor, wanted, steps)?;
    let AllServed { marks, pins } = served;
    let outside = context.outside;
    let made = wanted_part(outside.rt, outside.alloc, cursor, wanted, pins.as_slice());
    drop(pins);
    let part = made?;
    Ok(Gathered { marks, part })
}

/// The answer of a query whose scan was served all extents.
#[derive(Drop)]
pub struct Answered {
    /// How each extent was served, in the order of serving.
    pub marks: List<Served>,
    pub records: Records,
}

impl Answered {
    /// The reply with this answer at an SCN, which was settled at this place.
    pub fn reply(self, place: u64, scn: u64) -> Reply
        ensures { result ≡ served_reply place self.marks (body.Answer scn self.records) }
    {
        let Answered { marks, records } = self;
        Reply {
            place: Some(place),
            marks,
            body: Body::Answer { scn, records },
        }
    }
}

/// Serves a scan with an open cursor all extents from its next one on, and answers its query over all rows that the cursor sees.
#[tactic(auto, using(crate::proofs::ServingLemmas::answer_is))]
pub fn answer_scan<R: Threads + Wait + Sync, H: Reach<ColumnUnit>, G: Gate, L: Ledger>(
    context: &Context<R, G>,
    reach: &mut H,
    cursor: &Cursor,
    steps: &mut Steps<L>,
) -> Result<Answered, NoMemory>
    requires session { context.now.who < NUMBERS }
    requires speaks { speaks (H.known reach.old).side context.now.who ≡ true }
    requires kept { IsKept context.now.who cursor.now (H.known reach.old) }
    ensures went { Went (H.known reach.old) (H.known reach.new) }
    ensures records { IfOk result (λ answered.
        answered.records ≡ answer cursor.now.bound (seen_all (H.known reach.old).log cursor.now.view)) }
    ensures marks { IfOk result (λ answered. (k : ℕ) (on : List Mark → Plan Outcome) →
        Comes context.now.who k (H.known reach.old) (plan.serve_from cursor.now.view cursor.now.bound.filter cursor.now.next on)
        (H.known reach.new) (on answered.marks)) }
    ensures err { IfErr result (λ lacks. (k : ℕ) (on : List Mark → Plan Outcome) →
        Stops context.now.who k (H.known reach.old) (plan.serve_from cursor.now.view cursor.now.bound.filter cursor.now.next on)
        (H.known reach.new)) }
    ensures ticks { HasRead context.now.who cursor.now steps.old steps.new (H.known reach.old).log (H.known reach.new).log }
    ensures rows { IfOk result (λ answered. steps.new ≤ steps.old + reads_of cursor.now.view answered.marks) }
{
    let gathered = gather(context, reach, cursor, Wanted::Parts, steps)?;
    let Gathered { marks, part } = gathered;
    let records = part.finish(context.outside.alloc, &cursor.bound)?;
    Ok(Answered {
        marks: List::of(marks),
        records: Records::of(records),
    })
}
