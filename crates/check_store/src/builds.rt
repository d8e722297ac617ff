ghost use Rattle.std.specs.Bool.{OnTrue};
ghost use Rattle.std.specs.Prelude.{◌≡◌, ◌<◌, [], is_some, length, map, true, All, IfOk};
ghost use Rattle.std.specs.Option.{ForSome};
ghost use Rattle.check_store.specs.Going.{IsStage, IsUnderWay, WentOn};
ghost use Rattle.im_column.specs.Forms.{IsShort};
ghost use Rattle.im_history.specs.Legal.{IsLawful};
ghost use Rattle.im_reach.specs.Sides.{sole};
ghost use Rattle.im_session.specs.Sessions.{Agrees};
ghost use Rattle.im_unit.specs.Holding.{AreShort, HaveWidth};
ghost use Rattle.im_worker.specs.inner.Built.{content_from};
ghost use Rattle.im_worker.specs.inner.Standing.{Stands};

use crate::lines::{play, play_each};
use crate::standby::comes_to_a_standby;
use im_core::{Core, Offer, ShownRows, Switched};
use im_edge::{OpenGate, Outside};
use im_group::Cell;
use im_history::{Limits, Task};
use im_reach::{Reach, Sole};
use im_replies::{Body, How, Records, Reply};
use im_session::Session;
use im_unit::ColumnUnit;
use im_values::limits::{MOST_CHANGES, MOST_WEIGHT, NUMBERS};
use im_values::{NoMemory, Row, Seen, Steps, Value};
use std::alloc::Global;
use std::marker::Brand;
use std::sync::ledger::{Blank, Ledger};
use std::sync::{Arc, Wait};
use std::test::Fail;
use std::thread::Threads;

/// The number that begins builds.
const BUILDER: u32 = 17;

/// Another one, and the ones that go on while it holds a build.
const SLOW_BUILDER: u32 = 18;

const FAST_BUILDER: u32 = 19;

const EVICTOR: u32 = 20;

/// Whether values are one number.
fn are_one_number(values: &[Value]) -> bool
    ensures width { OnTrue result (length values.now ≡ 1) }
    ensures short { OnTrue result (All IsShort values.now) }
{
    values.len() == 1 && matches!(values[0].seen(), Seen::Int(_))
}

/// Whether values are this one number.
fn are_this_number(values: &[Value], number: i64) -> bool {
    values.len() == 1 && matches!(values[0].seen(), Seen::Int(value) if value == number)
}

/// Whether a row, where there is one, has one number.
fn has_one_number(row: &Option<Row>) -> bool
    ensures width { OnTrue result (ForSome row.now (λ values. length values ≡ 1)) }
    ensures short { OnTrue result (ForSome row.now (λ values. All IsShort values)) }
{
    match row {
        Some(row) => are_one_number(row.values()),
        None => true,
    }
}

/// The rows that were fetched, without their numbers, where each is of one number.
fn rows_of(alloc: Global, fetched: ShownRows) -> Result<Vec<Option<Row>>, NoMemory>
    ensures rows { IfOk result (λ rows. rows.items ≡ map (λ found. found.1) fetched) }
    ensures width { IfOk result (λ rows. HaveWidth 1 rows.items) }
    ensures short { IfOk result (λ rows. AreShort rows.items) }
{
    let mut rows = Vec::new(alloc);
    for row in fetched.into_rows(alloc)? {
        if !has_one_number(&row) {
            return Err(NoMemory);
        }
        rows.push(row)?;
    }
    Ok(rows)
}

/// The unit of a build of extent 0, of four row numbers at most and one column, from what was read for it where no unit was lent.
/// Where it is of another shape, or out of memory, there is none.
fn unit_of(alloc: Global, task: &Task, fetched: ShownRows) -> Result<Arc<ColumnUnit>, NoMemory>
    ensures { IfOk result (λ unit. unit.value ≡ content_from task.now fetched) }
{
    let rows = rows_of(alloc, fetched)?;
    if task.extent != 0 || task.columns != 1 || rows.len() > 4 || rows.len() as u64 != task.per {
        return Err(NoMemory);
    }
    let unit = ColumnUnit::build(alloc, task.scn, 0, 1, rows.as_slice())?;
    Ok(Arc::new(alloc, unit)?)
}

/// Begins the build that comes next, under a number that holds none.
fn begin<R: Wait, H: Reach<ColumnUnit>>(
    outside: &Outside<R, OpenGate>,
    store: &mut H,
    who: u32,
) -> Option<Task>
    requires session { who < NUMBERS }
    requires sole { (H.known store.old).side ≡ sole }
    requires stands { Stands who [] [] (H.known store.old).log }
    ensures under_way { ForSome result (λ task. IsUnderWay who task (H.known store.new)) }
    ensures went { ForSome result (λ task. WentOn who (H.known store.old) (H.known store.new)) }
{
    let Ok(offer) = store.build(outside.rt, who) else {
        return None;
    };
    match offer {
        Offer::Task(task) => Some(task),
        Offer::Idle { .. } => None,
    }
}

/// Reads the rows of a build that no unit is lent to, makes its unit and brings it into use, where it is not dead.
fn finish<R: Wait, H: Reach<ColumnUnit>, L: Ledger>(
    outside: &Outside<R, OpenGate>,
    store: &mut H,
    who: u32,
    task: Task,
    steps: &mut Steps<L>,
) -> Option<Switched<ColumnUnit>>
    requires session { who < NUMBERS }
    requires sole { (H.known store.old).side ≡ sole }
    requires lawful { IsLawful (H.known store.old).limits (H.known store.old).log }
    requires under_way { IsUnderWay who task (H.known store.old) }
    ensures { ForSome result (λ switched. WentOn who (H.known store.old) (H.known store.new)) }
{
    let Ok(pin) = store.read_task(outside.rt, who, &task, steps) else {
        return None;
    };
    if pin.unit.is_some() {
        return None;
    }
    let Ok(unit) = unit_of(outside.alloc, &task, pin.fetched) else {
        return None;
    };
    Some(store.switch(outside.rt, who, task, unit))
}

/// How many bytes of the area are used behind a switch that brought its unit into use.
fn used_by(switched: Option<Switched<ColumnUnit>>) -> Option<u64>
    ensures { ForSome result (λ used. is_some switched ≡ true) }
{
    match switched {
        Some(Switched::Done { used, .. }) => Some(used),
        _ => None,
    }
}

/// Looks at a store that nobody else has: its history is known to be legal then. The look itself is not used.
fn look_on<R: Wait, H: Reach<ColumnUnit>>(outside: &Outside<R, OpenGate>, store: &mut H)
    requires sole { (H.known store.old).side ≡ sole }
    ensures same { H.known store.new ≡ H.known store.old }
    ensures lawful { IsLawful (H.known store.new).limits (H.known store.new).log }
{
    let _ = store.look(outside.rt, BUILDER);
}

/// Builds the unit that comes next. Once the build has begun, a session plays lines, and its rows are read behind that.
fn build_behind<R: Threads + Wait + Sync, H: Reach<ColumnUnit>, L: Ledger>(
    outside: &Outside<R, OpenGate>,
    store: &mut H,
    session: &mut Session,
    lines: &[&str],
    steps: &mut Steps<L>,
) -> Option<u64>
    requires session { session.old.who ≡ 1 }
    requires sole { (H.known store.old).side ≡ sole }
    requires agrees { Agrees session.old (H.known store.old) }
    requires stands { Stands BUILDER [] [] (H.known store.old).log }
    ensures session { session.new.who ≡ 1 }
    ensures sole { ForSome result (λ used. (H.known store.new).side ≡ sole) }
    ensures agrees { ForSome result (λ used. Agrees session.new (H.known store.new)) }
{
    let Some(task) = begin(outside, store, BUILDER) else {
        return None;
    };
    drop(play_each(outside, store, session, lines, steps));
    look_on(outside, store);
    used_by(finish(outside, store, BUILDER, task, steps))
}

/// Whether an extent was served by the unit of SCN 2, and so many rows by the blocks.
fn is_by_unit(how: &How, rows: u64) -> bool {
    match how {
        How::Unit { scn, stale } => *scn == 2 && *stale == rows,
        _ => false,
    }
}

/// Whether an answer is this one number.
fn is_number(records: &Records, number: i128) -> bool {
    match records.records().first() {
        Some(cells) => matches!(cells.as_slice(), [Cell::Int(cell)] if *cell == number),
        None => false,
    }
}

/// Whether the one extent was served by the unit of SCN 2, so many rows by the blocks, and the answer at this SCN is this number.
fn says(reply: &Option<Reply>, at: u64, rows: u64, number: i128) -> bool {
    let Some(reply) = reply else {
        return false;
    };
    let Some(mark) = reply.marks.items().first() else {
        return false;
    };
    match &reply.body {
        Body::Answer { scn, records } => {
            *scn == at && is_by_unit(&mark.how, rows) && is_number(records, number)
        }
        _ => false,
    }
}

/// A table whose one extent has two rows, and a cursor that sees them as they are at SCN 2.
const BEFORE: [&str; 4] = [
    "1> CREATE TABLE T (K NUMBER) BLOCK 1 EXTENT 2 INMEMORY PRIORITY HIGH",
    "1> INSERT INTO T VALUES (10), (20)",
    "1> COMMIT",
    "1> OPEN 1 FOR SELECT SUM(K) FROM T",
];

/// What comes between the beginning of the build and its reading, at SCN 3, and what is asked behind that.
#[derive(Clone, Copy)]
pub struct Between<'a> {
    /// The lines.
    lines: &'a [&'a str],
    /// The query.
    query: &'a str,
    /// How many rows of its answer the blocks serve.
    stale: u64,
    /// What it is answered.
    number: i128,
}

/// A row is changed.
const CHANGED: Between<'static> = Between {
    lines: &["1> UPDATE T SET K = 30 WHERE K = 10", "1> COMMIT"],
    query: "1> SELECT SUM(K) FROM T",
    stale: 1,
    number: 50,
};

/// The table gets a column.
const WIDENED: Between<'static> = Between {
    lines: &["1> ALTER TABLE T ADD (N NUMBER DEFAULT 5)"],
    query: "1> SELECT SUM(N) FROM T",
    stale: 0,
    number: 10,
};

/// Whether the unit, which is of SCN 2, serves a scan at SCN 3, but for the row that was changed, and the cursor at SCN 2 with it.
fn serves_both<R: Threads + Wait + Sync, H: Reach<ColumnUnit>, L: Ledger>(
    outside: &Outside<R, OpenGate>,
    store: &mut H,
    between: Between<'_>,
    steps: &mut Steps<L>,
) -> bool
    requires sole { (H.known store.old).side ≡ sole }
    requires fresh { (H.known store.old).log ≡ [] }
{
    let mut session = Session::new(outside.alloc, 1);
    drop(play_each(outside, store, &mut session, &BEFORE, steps));
    look_on(outside, store);
    let Some(used) = build_behind(outside, store, &mut session, between.lines, steps) else {
        return false;
    };
    let present = play(outside, store, &mut session, between.query, steps);
    let past = play(outside, store, &mut session, "1> FETCH 1", steps);
    used > 0 && says(&present, 3, between.stale, between.number) && says(&past, 2, 0, 30)
}

/// Builds the unit that comes next, under a number that holds no build.
fn build_now<R: Wait, H: Reach<ColumnUnit>, L: Ledger>(
    outside: &Outside<R, OpenGate>,
    store: &mut H,
    who: u32,
    steps: &mut Steps<L>,
) -> Option<u64>
    requires session { who < NUMBERS }
    requires sole { (H.known store.old).side ≡ sole }
    requires stands { Stands who [] [] (H.known store.old).log }
    ensures { ForSome result (λ used. WentOn who (H.known store.old) (H.known store.new)) }
{
    let Some(task) = begin(outside, store, who) else {
        return None;
    };
    look_on(outside, store);
    used_by(finish(outside, store, who, task, steps))
}

/// Whether a row is of this one number.
fn is_of(row: &Option<Row>, number: i64) -> bool {
    match row {
        Some(row) => are_this_number(row.values(), number),
        None => false,
    }
}

/// Whether the rows that were fetched are of these numbers.
fn are_of(alloc: Global, fetched: ShownRows, numbers: &[i64]) -> bool {
    let Ok(rows) = fetched.into_rows(alloc) else {
        return false;
    };
    if rows.len() != numbers.len() {
        return false;
    }
    let mut same = true;
    for i in 0..numbers.len() {
        same = same && is_of(&rows[i], numbers[i]);
    }
    same
}

/// Whether a unit is lent to a build, or none, and rows of these numbers are fetched for it.
fn reads<R: Wait, H: Reach<ColumnUnit>, L: Ledger>(
    outside: &Outside<R, OpenGate>,
    store: &mut H,
    task: &Task,
    is_lent: bool,
    numbers: &[i64],
    steps: &mut Steps<L>,
) -> bool
    requires sole { (H.known store.old).side ≡ sole }
    requires lawful { IsLawful (H.known store.old).limits (H.known store.old).log }
    requires under_way { IsUnderWay SLOW_BUILDER task.now (H.known store.old) }
    ensures { H.known store.new ≡ H.known store.old }
{
    let Ok(pin) = store.read_task(outside.rt, SLOW_BUILDER, task, steps) else {
        return false;
    };
    let lends = pin.unit.is_some() == is_lent;
    are_of(outside.alloc, pin.fetched, numbers) && lends
}

/// Evicts the unit of a build's extent. It answers the place of the entry.
fn evict_of<R: Wait, H: Reach<ColumnUnit>>(
    outside: &Outside<R, OpenGate>,
    store: &mut H,
    task: &Task,
) -> Option<u64>
    requires sole { (H.known store.old).side ≡ sole }
    requires lawful { IsLawful (H.known store.old).limits (H.known store.old).log }
    requires under_way { IsUnderWay SLOW_BUILDER task.now (H.known store.old) }
    ensures { ForSome result (λ place. WentOn EVICTOR (H.known store.old) (H.known store.new)) }
{
    match store.evict(outside.rt, EVICTOR, task.table, task.extent) {
        Ok(evicted) => Some(evicted.place),
        Err(_) => None,
    }
}

/// A table whose one extent has four rows, at SCN 2.
const FOUR_ROWS: [&str; 3] = [
    "1> CREATE TABLE T (K NUMBER) BLOCK 2 EXTENT 2 INMEMORY PRIORITY HIGH",
    "1> INSERT INTO T VALUES (10), (20), (30), (40)",
    "1> COMMIT",
];

/// What comes behind its first unit, at SCN 3.
const THIRD: [&str; 2] = ["1> UPDATE T SET K = 11 WHERE K = 10", "1> COMMIT"];

/// What comes behind the evict of that unit, at SCN 4.
const FOURTH: [&str; 2] = ["1> UPDATE T SET K = 22 WHERE K = 20", "1> COMMIT"];

/// The four rows get a unit of SCN 2, and one of them is changed then.
fn set_stage<R: Threads + Wait + Sync, H: Reach<ColumnUnit>, L: Ledger>(
    outside: &Outside<R, OpenGate>,
    store: &mut H,
    session: &mut Session,
    steps: &mut Steps<L>,
) -> bool
    requires session { session.old.who ≡ 1 }
    requires sole { (H.known store.old).side ≡ sole }
    requires agrees { Agrees session.old (H.known store.old) }
    requires fresh { (H.known store.old).log ≡ [] }
    ensures stage { OnTrue result (IsStage session.new (H.known store.new)) }
    ensures slow { OnTrue result (Stands SLOW_BUILDER [] [] (H.known store.new).log) }
    ensures fast { OnTrue result (Stands FAST_BUILDER [] [] (H.known store.new).log) }
{
    drop(play_each(outside, store, session, &FOUR_ROWS, steps));
    look_on(outside, store);
    let Some(_used) = build_now(outside, store, BUILDER, steps) else {
        return false;
    };
    drop(play_each(outside, store, session, &THIRD, steps));
    look_on(outside, store);
    true
}

/// The slow builder begins a build at SCN 3: the unit of SCN 2 is lent to it, and the one row that was changed is fetched.
fn begin_slow<R: Threads + Wait + Sync, H: Reach<ColumnUnit>, L: Ledger>(
    outside: &Outside<R, OpenGate>,
    store: &mut H,
    steps: &mut Steps<L>,
) -> Option<Task>
    requires sole { (H.known store.old).side ≡ sole }
    requires stands { Stands SLOW_BUILDER [] [] (H.known store.old).log }
    ensures under_way { ForSome result (λ task. IsUnderWay SLOW_BUILDER task (H.known store.new)) }
    ensures went { ForSome result (λ task. WentOn SLOW_BUILDER (H.known store.old) (H.known store.new)) }
{
    let Some(task) = begin(outside, store, SLOW_BUILDER) else {
        return None;
    };
    look_on(outside, store);
    if reads(outside, store, &task, true, &[11], steps) {
        Some(task)
    } else {
        None
    }
}

/// The extent loses its unit, a row is changed, and the fast builder brings a unit of SCN 4 into use. It answers the place of the evict.
fn overtake<R: Threads + Wait + Sync, H: Reach<ColumnUnit>, L: Ledger>(
    outside: &Outside<R, OpenGate>,
    store: &mut H,
    session: &mut Session,
    task: &Task,
    steps: &mut Steps<L>,
) -> Option<u64>
    requires stage { IsStage session.old (H.known store.old) }
    requires under_way { IsUnderWay SLOW_BUILDER task.now (H.known store.old) }
    requires stands { Stands FAST_BUILDER [] [] (H.known store.old).log }
    ensures sole { ForSome result (λ place. (H.known store.new).side ≡ sole) }
    ensures under_way { ForSome result (λ place. IsUnderWay SLOW_BUILDER task.now (H.known store.new)) }
{
    let Some(place) = evict_of(outside, store, task) else {
        return None;
    };
    drop(play_each(outside, store, session, &FOURTH, steps));
    look_on(outside, store);
    let Some(_used) = build_now(outside, store, FAST_BUILDER, steps) else {
        return None;
    };
    Some(place)
}

/// Whether the slow build is lent no unit, as the one that is there is newer, and reads all rows of SCN 3; and whether it is found dead
/// then, killed at this place.
fn ends_late<R: Threads + Wait + Sync, H: Reach<ColumnUnit>, L: Ledger>(
    outside: &Outside<R, OpenGate>,
    store: &mut H,
    task: Task,
    killed: u64,
    steps: &mut Steps<L>,
) -> bool
    requires sole { (H.known store.old).side ≡ sole }
    requires under_way { IsUnderWay SLOW_BUILDER task (H.known store.old) }
{
    look_on(outside, store);
    let anew = reads(outside, store, &task, false, &[11, 20, 30, 40], steps);
    let switched = finish(outside, store, SLOW_BUILDER, task, steps);
    let dead = matches!(switched, Some(Switched::Cancelled { at, .. }) if at == killed);
    anew && dead
}

/// Whether a build that was overtaken is made of the rows of its own SCN, and ends dead.
fn overtakes<R: Threads + Wait + Sync, H: Reach<ColumnUnit>, L: Ledger>(
    outside: &Outside<R, OpenGate>,
    store: &mut H,
    steps: &mut Steps<L>,
) -> bool
    requires sole { (H.known store.old).side ≡ sole }
    requires fresh { (H.known store.old).log ≡ [] }
{
    let mut session = Session::new(outside.alloc, 1);
    if !set_stage(outside, store, &mut session, steps) {
        return false;
    }
    let Some(task) = begin_slow(outside, store, steps) else {
        return false;
    };
    look_on(outside, store);
    let Some(killed) = overtake(outside, store, &mut session, &task, steps) else {
        return false;
    };
    ends_late(outside, store, task, killed, steps)
}

/// What happens in a store.
#[derive(Clone, Copy)]
pub enum Course<'a> {
    /// A build is read behind these lines.
    Late(Between<'a>),
    /// Another build overtakes it.
    Overtaken,
    /// Its commits are sent to a second one.
    Sent,
}

/// One of these courses over a store that nothing has happened in.
fn holds_anew<R: Threads + Wait + Sync, L: Ledger>(
    rt: &R,
    alloc: Global,
    blank: Blank,
    course: Course<'_>,
) -> bool
    requires name { blank.name ≡ L.name }
    requires parts { blank.parts ≡ L.parts }
    requires some { 0 < blank.parts }
{
    let limits = Limits {
        area: 1000,
        store: MOST_WEIGHT,
        changes: MOST_CHANGES,
    };
    let Ok(core) = Core::<ColumnUnit>::new(alloc, limits) else {
        return false;
    };
    let mut store = Sole::new(core);
    let mut steps = Steps::<L>::new(rt, blank);
    let outside = Outside {
        alloc,
        rt,
        gate: &OpenGate,
    };
    let holds = match course {
        Course::Late(between) => serves_both(&outside, &mut store, between, &mut steps),
        Course::Overtaken => overtakes(&outside, &mut store, &mut steps),
        Course::Sent => comes_to_a_standby(&outside, &mut store, &mut steps),
    };
    drop(store);
    holds
}

/// Whether a course over a store that nothing has happened in goes as it should.
pub fn holds<R: Threads + Wait + Sync>(rt: &R, alloc: Global, course: Course<'_>) -> bool {
    holds_anew::<R, Brand>(rt, alloc, Blank::new(1), course)
}

#[test]
fn a_row_committed_before_a_build_is_read_is_stale_in_its_unit(
    rt: HostRuntime,
) -> Result<(), Fail> {
    assert!(rt; holds(&rt, rt.alloc(), Course::Late(CHANGED)));
    Ok(())
}

#[test]
fn a_unit_and_a_cursor_from_before_a_column_serve_behind_it(rt: HostRuntime) -> Result<(), Fail> {
    assert!(rt; holds(&rt, rt.alloc(), Course::Late(WIDENED)));
    Ok(())
}

#[test]
fn a_build_that_was_overtaken_is_made_of_the_rows_of_its_scn(rt: HostRuntime) -> Result<(), Fail> {
    assert!(rt; holds(&rt, rt.alloc(), Course::Overtaken));
    Ok(())
}
