ghost use Rattle.std.specs.Prelude.{◌≡◌, ◌<◌, [], true, IfSome};
ghost use Rattle.im_reach.specs.Sides.{speaks};
ghost use Rattle.im_syntax.specs.Rules.{IsStmt};
ghost use Rattle.im_worker.specs.Background.{Agrees, IsDropped, IsCommandPlayed};
ghost use Rattle.im_worker.specs.Reads.{IsCounted};
ghost use Rattle.im_worker.specs.Work.{HasWorked, IfOver, IfSpent, IsIdleAt, IsOverAt, AreTurnsMade};
ghost use Rattle.im_worker.specs.inner.Running.{IsCommand, WereDropped};
ghost use Rattle.im_worker.specs.inner.Standing.{Stands};

use crate::ending::cancel_build;
use crate::held::Build;
use crate::running::run;
use crate::statements::{begin, cancel, evict, purge, switch, trickle};
use crate::work::{Ended, job};
use im_edge::{Gate, Outside};
use im_reach::Reach;
use im_replies::{Body, Reply};
use im_syntax::Stmt;
use im_unit::ColumnUnit;
use im_values::Steps;
use im_values::limits::NUMBERS;
use std::alloc::Global;
use std::collections::VecDeque;
use std::marker::Model;
use std::sync::Wait;
use std::sync::ledger::Ledger;

/// The background: its number, and the builds that it holds, the oldest first.
#[derive(Drop)]
pub struct Background {
    who: u32,
    held: VecDeque<Build>,
}

impl Model for Background {
    ghost use Rattle.im_worker.specs.Background.{Kept};

    ghost Value = { Kept };

    ghost view = { λ b. record { who = b.who; builds = b.held.items } };
}

impl Background {
    /// The background of a number, which holds no build. It takes no memory.
    pub fn new(alloc: Global, who: u32) -> Background
        ensures { result ≡ record { who = who; builds = [] } }
    {
        Background {
            who,
            held: VecDeque::new(alloc),
        }
    }

    /// Plays one statement, and answers it.
    ///
    /// A statement of a session is not the background's: it is answered that there is nothing, and nothing is done. The gate is
    /// called before and after each switch, outside the store's turn. Each row that is read for a build that began is one step
    /// at most, also where memory is out.
    pub fn command<R: Wait, H: Reach<ColumnUnit>, G: Gate, L: Ledger>(
        &mut self,
        outside: &Outside<R, G>,
        reach: &mut H,
        statement: &Stmt,
        steps: &mut Steps<L>,
    ) -> Reply
        requires session { self.old.who < NUMBERS }
        requires speaks { speaks (H.known reach.old).side self.old.who ≡ true }
        requires statement { IsStmt statement.now }
        requires agrees { Agrees self.old (H.known reach.old) }
        ensures played { IsCommandPlayed statement.now self.old (H.known reach.old) result self.new (H.known reach.new) }
        ensures agrees { Agrees self.new (H.known reach.new) }
        ensures ticks { IsCounted self.old.who steps.old steps.new (H.known reach.old).log (H.known reach.new).log }
    {
        play(outside, reach, self.who, &mut self.held, statement, steps)
    }

    /// Does a worker's job: begins the build that comes next, makes its unit and switches to it, again and again, until so many
    /// turns are made, or until no build comes next and so many sessions have left.
    ///
    /// A turn is one call of the store: a build that begins takes three, and so a job up to two more than `turns`. A build whose
    /// rows could not be read or whose unit could not be made for want of memory is cancelled, and each other one is switched to.
    /// Where a round makes no unit current, since no build comes next or memory is out, the worker sleeps for about a millisecond
    /// before it goes on, so that its turns last while others are at work: an idle job takes some `turns` milliseconds. The gate is
    /// called before and after each switch, outside the store's turn.
    ///
    /// A worker that called a turn at which no build came next one without memory would keep all clauses: the store's misses count
    /// both.
    pub fn work<R: Wait, H: Reach<ColumnUnit>, G: Gate, L: Ledger>(
        &mut self,
        outside: &Outside<R, G>,
        reach: &mut H,
        turns: u64,
        sessions: u32,
        steps: &mut Steps<L>,
    ) -> Ended
        requires session { self.old.who < NUMBERS }
        requires speaks { speaks (H.known reach.old).side self.old.who ≡ true }
        requires agrees { Agrees self.old (H.known reach.old) }
        requires none { self.old.builds ≡ [] }
        ensures worked { HasWorked self.old.who turns sessions (H.known reach.old) result (H.known reach.new) }
        ensures over { IfOver result (λ place.
            IsOverAt self.old.who sessions place (H.known reach.old).log (H.known reach.new).log) }
        ensures spent { IfSpent result (λ lacks idle. AreTurnsMade self.old.who turns lacks idle (H.known reach.old) (H.known reach.new)) }
        ensures idle { IfSpent result (λ lacks idle. IfSome idle (λ place.
            IsIdleAt self.old.who place (H.known reach.old).log (H.known reach.new).log)) }
        ensures same { self.new ≡ self.old }
        ensures agrees { Agrees self.new (H.known reach.new) }
        ensures ticks { IsCounted self.old.who steps.old steps.new (H.known reach.old).log (H.known reach.new).log }
    {
        job(outside, reach, self.who, &self.held, turns, sessions, steps)
    }

    /// Ends all builds that are held without their units, the oldest first. It takes no memory.
    pub fn drop_held<R: Wait, H: Reach<ColumnUnit>>(&mut self, rt: &R, reach: &mut H)
        requires session { self.old.who < NUMBERS }
        requires speaks { speaks (H.known reach.old).side self.old.who ≡ true }
        requires agrees { Agrees self.old (H.known reach.old) }
        ensures dropped { IsDropped self.old (H.known reach.old) self.new (H.known reach.new) }
        ensures agrees { Agrees self.new (H.known reach.new) }
    {
        drop_builds(rt, reach, self.who, &mut self.held);
    }
}

/// Plays one statement over the builds that are held.
fn play<R: Wait, H: Reach<ColumnUnit>, G: Gate, L: Ledger>(
    outside: &Outside<R, G>,
    reach: &mut H,
    who: u32,
    held: &mut VecDeque<Build>,
    statement: &Stmt,
    steps: &mut Steps<L>,
) -> Reply
    requires session { who < NUMBERS }
    requires speaks { speaks (H.known reach.old).side who ≡ true }
    requires statement { IsStmt statement.now }
    requires stands { Stands who held.old.items [] (H.known reach.old).log }
    ensures command { IsCommand who statement.now held.old.items (H.known reach.old) result held.new.items (H.known reach.new) }
    ensures ticks { IsCounted who steps.old steps.new (H.known reach.old).log (H.known reach.new).log }
{
    match statement {
        Stmt::Run => run(outside, reach, who, held, steps),
        Stmt::Begin => begin(outside, reach, who, held, steps),
        Stmt::Switch => switch(outside, reach, who, held),
        Stmt::Cancel => cancel(outside, reach, who, held),
        Stmt::Trickle(count) => trickle(outside, reach, who, held, *count),
        Stmt::Evict { .. } => evict(outside, reach, who, held, statement),
        Stmt::Purge => purge(outside, reach, who, held),
        _ => Reply::plain(outside.alloc, Body::Nothing),
    }
}

/// Ends builds that are held without their units, the oldest first.
fn drop_builds<R: Wait, H: Reach<ColumnUnit>>(
    rt: &R,
    reach: &mut H,
    who: u32,
    held: &mut VecDeque<Build>,
)
    requires session { who < NUMBERS }
    requires speaks { speaks (H.known reach.old).side who ≡ true }
    requires stands { Stands who held.old.items [] (H.known reach.old).log }
    ensures dropped { WereDropped who held.old.items (H.known reach.old) (H.known reach.new) }
    ensures none { held.new.items ≡ [] }
{
    while let Some(build) = held.pop_front() {
        cancel_build(rt, reach, who, build);
    }
}
