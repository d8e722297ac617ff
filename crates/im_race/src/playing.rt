// What one session or worker does in a race.
ghost use Rattle.std.specs.Prelude.{◌≡◌, ◌<◌, ◌≤◌, [], true, false, All, IfOk, Some};
ghost use Rattle.im_history.specs.Leaves.{has_left};
ghost use Rattle.im_play.specs.Lines.{IsKnown};
ghost use Rattle.im_play.specs.Requests.{demand_of, script_limits};
ghost use Rattle.im_race.specs.inner.Doing.{CameOfSession, HavePlayed};
ghost use Rattle.im_race.specs.Jobs.{PlaysDemand, Worker};
ghost use Rattle.im_race.specs.Lines as spec;
ghost use Rattle.im_script.specs.Lines.{NamesOneOf16};
ghost use Rattle.im_session.specs.Sessions.{Agrees, state_of};
ghost use Rattle.im_worker.specs.Background.{builds_of};

use crate::job::JobOutcome;
use crate::lines::speaks_in;
use crate::replies::Replies;
use im_edge::{Gate, Outside};
use im_play::settled;
use im_reach::Reach;
use im_replies::{Body, Reply};
use im_script::{Line, LineKind};
use im_session::Session;
use im_unit::ColumnUnit;
use im_values::limits::{NUMBERS, SESSIONS};
use im_values::{NoMemory, Steps};
use im_worker::{Background, Ended};
use std::sync::Wait;
use std::sync::atomic::AtomicU64;
use std::sync::ledger::Ledger;
use std::thread::Threads;
use std::time::Duration;

/// Plays a line of a session.
fn play_line<R: Threads + Wait + Sync, H: Reach<ColumnUnit>, G: Gate, L: Ledger>(
    outside: &Outside<R, G>,
    reach: &mut H,
    session: &mut Session,
    line: &Line,
    steps: &mut Steps<L>,
) -> Reply
    requires session { session.old.who < NUMBERS }
    requires some { 1 ≤ session.old.who }
    requires side { (H.known reach.old).side.number ≡ Some session.old.who }
    requires limits { (H.known reach.old).limits ≡ script_limits (H.known reach.old).limits.area }
    requires known { IsKnown line.now.kind }
    requires names { NamesOneOf16 line.now }
    requires speaks { spec.speaks_in session.old.who line.now ≡ true }
    requires agrees { Agrees session.old (H.known reach.old) }
    requires stays { has_left (H.known reach.old).log session.old.who ≡ false }
    ensures who { session.new.who ≡ session.old.who }
    ensures known { H.known reach.new ≡ record (H.known reach.old) { log = (H.known reach.new).log } }
    ensures plays { PlaysDemand session.old.who (state_of session.old.cursors) (H.known reach.old).log result
        (demand_of (H.known reach.old).limits.area line.now) (state_of session.new.cursors) (H.known reach.new).log }
    ensures agrees { Agrees session.new (H.known reach.new) }
    ensures stays { has_left (H.known reach.new).log session.old.who ≡ false }
{
    match &line.kind {
        LineKind::Session(_, statement) => session.execute(outside, reach, statement, steps),
        LineKind::Skip
        | LineKind::Race
        | LineKind::Long(_)
        | LineKind::Bad(_)
        | LineKind::Background(_)
        | LineKind::NoMemory => {
            settled(outside.alloc, &line.kind).unwrap_or(Reply::plain(outside.alloc, Body::Nothing))
        }
    }
}

/// Plays those of these lines in which a session speaks, one after the other, and answers the replies.
fn play_lines<R: Threads + Wait + Sync, H: Reach<ColumnUnit>, G: Gate, L: Ledger>(
    outside: &Outside<R, G>,
    reach: &mut H,
    session: &mut Session,
    who: u32,
    lines: &[Line],
    steps: &mut Steps<L>,
) -> Result<Vec<Reply>, NoMemory>
    requires some { 1 ≤ who }
    requires session { who ≤ SESSIONS }
    requires number { session.old.who ≡ who }
    requires side { (H.known reach.old).side.number ≡ Some who }
    requires limits { (H.known reach.old).limits ≡ script_limits (H.known reach.old).limits.area }
    requires known { All (λ line. IsKnown line.kind) lines.now }
    requires names { All NamesOneOf16 lines.now }
    requires agrees { Agrees session.old (H.known reach.old) }
    requires stays { has_left (H.known reach.old).log who ≡ false }
    ensures who { session.new.who ≡ who }
    ensures known { H.known reach.new ≡ record (H.known reach.old) { log = (H.known reach.new).log } }
    ensures played { IfOk result (λ replies. HavePlayed (H.known reach.old).limits.area who (state_of session.old.cursors)
        (H.known reach.old).log lines.now replies.items (state_of session.new.cursors) (H.known reach.new).log) }
    ensures agrees { Agrees session.new (H.known reach.new) }
    ensures stays { has_left (H.known reach.new).log who ≡ false }
{
    let mut replies = Vec::new(outside.alloc);
    for line in lines {
        if speaks_in(who, line) {
            replies.push(play_line(outside, reach, session, line, steps))?;
        }
    }
    Ok(replies)
}

/// Sleeps for a millisecond, or less.
fn pause<R: Wait>(rt: &R) {
    AtomicU64::new(0).park_timeout(rt, 0, Duration::from_millis(1));
}

/// Lets a session that is out of memory leave, so that no worker waits for it: it tries so many times at most, each millisecond once.
fn leave<R: Wait, H: Reach<ColumnUnit>>(
    rt: &R,
    reach: &mut H,
    mut session: Session,
    who: u32,
    tries: u64,
)
    requires some { 1 ≤ who }
    requires session { who ≤ SESSIONS }
    requires number { session.who ≡ who }
    requires side { (H.known reach.old).side.number ≡ Some who }
    requires agrees { Agrees session (H.known reach.old) }
    requires stays { has_left (H.known reach.old).log who ≡ false }
    ensures known { H.known reach.new ≡ record (H.known reach.old) { log = (H.known reach.new).log } }
{
    for _ in 0..tries {
        match session.end(rt, reach) {
            Ok(()) => return,
            Err(NoMemory) => pause(rt),
        }
    }
}

/// Does the job of a session: it plays those of these lines in which it speaks, one after the other, and ends. Out of memory it tries
/// so many times to leave, and may not have left.
pub fn play_session<R: Threads + Wait + Sync, H: Reach<ColumnUnit>, G: Gate, L: Ledger>(
    outside: &Outside<R, G>,
    reach: &mut H,
    mut session: Session,
    who: u32,
    lines: &[Line],
    tries: u64,
    steps: &mut Steps<L>,
) -> JobOutcome
    requires some { 1 ≤ who }
    requires session { who ≤ SESSIONS }
    requires number { session.who ≡ who }
    requires side { (H.known reach.old).side.number ≡ Some who }
    requires limits { (H.known reach.old).limits ≡ script_limits (H.known reach.old).limits.area }
    requires known { All (λ line. IsKnown line.kind) lines.now }
    requires names { All NamesOneOf16 lines.now }
    requires agrees { Agrees session (H.known reach.old) }
    requires stays { has_left (H.known reach.old).log who ≡ false }
    ensures known { H.known reach.new ≡ record (H.known reach.old) { log = (H.known reach.new).log } }
    ensures came { CameOfSession (H.known reach.old).limits.area lines.now who session (H.known reach.old).log result
        (H.known reach.new).log }
{
    let Ok(replies) = play_lines(outside, reach, &mut session, who, lines, steps) else {
        leave(outside.rt, reach, session, who, tries);
        return JobOutcome::NoMemory;
    };
    match session.end(outside.rt, reach) {
        Ok(()) => JobOutcome::Replies(Replies::of(replies)),
        Err(NoMemory) => {
            leave(outside.rt, reach, session, who, tries);
            JobOutcome::NoMemory
        }
    }
}

/// Does the job of a worker.
pub fn play_worker<R: Wait, H: Reach<ColumnUnit>, G: Gate, L: Ledger>(
    outside: &Outside<R, G>,
    reach: &mut H,
    who: u32,
    turns: u64,
    sessions: u32,
    steps: &mut Steps<L>,
) -> Ended
    requires number { who < NUMBERS }
    requires side { (H.known reach.old).side.number ≡ Some who }
    requires none { builds_of (H.known reach.old).log who ≡ [] }
    ensures known { H.known reach.new ≡ record (H.known reach.old) { log = (H.known reach.new).log; misses = (H.known reach.new).misses } }
    ensures worker { Worker (H.known reach.old).limits turns sessions who (H.known reach.old).log result (H.known reach.new).log }
{
    Background::new(outside.alloc, who).work(outside, reach, turns, sessions, steps)
}
