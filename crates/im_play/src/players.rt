ghost use Rattle.std.specs.Prelude.{◌≡◌, ◌≤◌, ◌+◌, ℕ, All, IfOk};
ghost use Rattle.im_play.specs.Between.{Answers, IsBetween, command_of, machine_of, request_of, unused_background, unused_from};
ghost use Rattle.im_play.specs.Lines.{IsKnown};
ghost use Rattle.im_play.specs.Machine.{Comes, IsAnswer, IsCommandAnswer, without_builds};
ghost use Rattle.im_play.specs.Requests.{demands_of};
ghost use Rattle.im_syntax.specs.Rules.{IsStmt};

use crate::told::settled;
use im_edge::{Gate, Outside};
use im_reach::Reach;
use im_replies::Reply;
use im_script::{Line, LineKind};
use im_session::Session;
use im_syntax::Stmt;
use im_unit::ColumnUnit;
use im_values::limits::SESSIONS;
use im_values::{NoMemory, Steps};
use im_worker::Background;
use std::alloc::Global;
use std::sync::Wait;
use std::sync::ledger::Ledger;
use std::thread::Threads;

/// The number of the background, which is no session's.
pub const BACKGROUND: u32 = 0;

/// Those who play statements.
#[derive(Drop)]
pub struct Players {
    /// The sessions by their numbers. Number 0 is not used: it is the background's.
    pub sessions: Vec<Session>,
    /// The background.
    pub background: Background,
}

/// The sessions of a script by their numbers, none of which keeps anything. Number 0 is the background's.
fn unused_sessions(alloc: Global) -> Result<Vec<Session>, NoMemory>
    ensures { IfOk result (λ sessions. sessions.items ≡ unused_from 0 (SESSIONS + 1)) }
{
    let mut sessions = Vec::with_capacity(alloc, SESSIONS as usize + 1)?;
    for who in 0..SESSIONS + 1 {
        sessions.push(Session::new(alloc, who))?;
    }
    Ok(sessions)
}

impl Players {
    /// The sessions and the background of a script, none of which keeps anything.
    pub fn new(alloc: Global) -> Result<Players, NoMemory>
        ensures sessions { IfOk result (λ players. players.sessions.items ≡ unused_from 0 (SESSIONS + 1)) }
        ensures background { IfOk result (λ players. players.background ≡ unused_background) }
    {
        let sessions = unused_sessions(alloc)?;
        Ok(Players {
            sessions,
            background: Background::new(alloc, BACKGROUND),
        })
    }

    /// Ends all builds that the background holds without their units, the oldest first. It takes no memory.
    pub fn drop_held<R: Wait, H: Reach<ColumnUnit>>(&mut self, rt: &R, reach: &mut H)
        requires between { IsBetween (H.known reach.old) self.old.sessions.items self.old.background }
        ensures between { IsBetween (H.known reach.new) self.new.sessions.items self.new.background }
        ensures limits { (H.known reach.new).limits ≡ (H.known reach.old).limits }
        ensures dropped { machine_of (H.known reach.new) self.new.sessions.items self.new.background
            ≡ without_builds (machine_of (H.known reach.old) self.old.sessions.items self.old.background) }
    {
        reach.lawful();
        self.background.drop_held(rt, reach);
    }
}

/// Plays a statement of a session.
fn play_statement<R: Threads + Wait + Sync, H: Reach<ColumnUnit>, G: Gate, L: Ledger>(
    outside: &Outside<R, G>,
    reach: &mut H,
    players: &mut Players,
    who: u32,
    statement: &Stmt,
    steps: &mut Steps<L>,
) -> Reply
    requires one { 1 ≤ who }
    requires session { who ≤ SESSIONS }
    requires statement { IsStmt statement.now }
    requires between { IsBetween (H.known reach.old) players.old.sessions.items players.old.background }
    ensures between { IsBetween (H.known reach.new) players.new.sessions.items players.new.background }
    ensures limits { (H.known reach.new).limits ≡ (H.known reach.old).limits }
    ensures answer { (number : ℕ) → IsAnswer steps.old steps.new
        (request_of (H.known reach.old).limits.area number who statement.now)
        (machine_of (H.known reach.old) players.old.sessions.items players.old.background) result
        (machine_of (H.known reach.new) players.new.sessions.items players.new.background) }
{
    players.sessions[who as usize].execute(outside, reach, statement, steps)
}

/// Plays a statement of the background.
fn play_command<R: Wait, H: Reach<ColumnUnit>, G: Gate, L: Ledger>(
    outside: &Outside<R, G>,
    reach: &mut H,
    players: &mut Players,
    statement: &Stmt,
    steps: &mut Steps<L>,
) -> Reply
    requires statement { IsStmt statement.now }
    requires between { IsBetween (H.known reach.old) players.old.sessions.items players.old.background }
    ensures between { IsBetween (H.known reach.new) players.new.sessions.items players.new.background }
    ensures limits { (H.known reach.new).limits ≡ (H.known reach.old).limits }
    ensures answer { (number : ℕ) → IsCommandAnswer steps.old steps.new
        (command_of (H.known reach.old).limits.area number statement.now)
        (machine_of (H.known reach.old) players.old.sessions.items players.old.background) result
        (machine_of (H.known reach.new) players.new.sessions.items players.new.background) }
{
    reach.lawful();
    players.background.command(outside, reach, statement, steps)
}

/// Plays one line. Blanks, comments and the end of a prelude have no reply.
pub fn play_line<R: Threads + Wait + Sync, H: Reach<ColumnUnit>, G: Gate, L: Ledger>(
    outside: &Outside<R, G>,
    reach: &mut H,
    players: &mut Players,
    line: &Line,
    steps: &mut Steps<L>,
) -> Option<Reply>
    requires known { IsKnown line.now.kind }
    requires between { IsBetween (H.known reach.old) players.old.sessions.items players.old.background }
    ensures between { IsBetween (H.known reach.new) players.new.sessions.items players.new.background }
    ensures limits { (H.known reach.new).limits ≡ (H.known reach.old).limits }
    ensures answers { Answers (H.known reach.old).limits.area steps.old steps.new line.now
        (machine_of (H.known reach.old) players.old.sessions.items players.old.background) result
        (machine_of (H.known reach.new) players.new.sessions.items players.new.background) }
{
    match &line.kind {
        LineKind::Session(who, statement) => {
            Some(play_statement(outside, reach, players, *who, statement, steps))
        }
        LineKind::Background(statement) => {
            Some(play_command(outside, reach, players, statement, steps))
        }
        LineKind::Skip
        | LineKind::Race
        | LineKind::Long(_)
        | LineKind::Bad(_)
        | LineKind::NoMemory => settled(outside.alloc, &line.kind),
    }
}

/// Plays lines one after the other, and answers their replies, each with its line's number.
pub fn play_lines<R: Threads + Wait + Sync, H: Reach<ColumnUnit>, G: Gate, L: Ledger>(
    outside: &Outside<R, G>,
    reach: &mut H,
    players: &mut Players,
    lines: &[Line],
    steps: &mut Steps<L>,
) -> Result<Vec<(u64, Reply)>, NoMemory>
    requires known { All (λ line. IsKnown line.kind) lines.now }
    requires between { IsBetween (H.known reach.old) players.old.sessions.items players.old.background }
    ensures between { IsBetween (H.known reach.new) players.new.sessions.items players.new.background }
    ensures limits { (H.known reach.new).limits ≡ (H.known reach.old).limits }
    ensures comes { IfOk result (λ replies. Comes (machine_of (H.known reach.old) players.old.sessions.items players.old.background)
        (demands_of (H.known reach.old).limits.area lines.now) replies.items
        (machine_of (H.known reach.new) players.new.sessions.items players.new.background) steps.old steps.new) }
{
    let mut replies = Vec::new(outside.alloc);
    for line in lines {
        if let Some(reply) = play_line(outside, reach, players, line, steps) {
            replies.push((line.number, reply))?;
        }
    }
    Ok(replies)
}
