ghost use Rattle.std.specs.Prelude.{◌≡◌, ◌<◌, []};
ghost use Rattle.im_reach.specs.Sides.{sole};
ghost use Rattle.im_feed.specs.Passes.{IsSender, IsStandby, pushed};

use im_core::Core;
use im_feed::{Fed, Feed, FeedPass, feed, make_feed, meet, next};
use im_history::{Limits, Member};
use im_reach::{Reach, Sole};
use im_unit::ColumnUnit;
use im_values::Steps;
use std::alloc::Global;
use std::marker::Brand;
use std::sync::Wait;
use std::sync::ledger::{Blank, Ledger};
use std::test::Fail;
use std::thread::Threads;

/// Pops so many members, and no more are there.
fn pops<R: Wait>(rt: &R, queue: &Feed, pass: &mut FeedPass, count: u64) -> bool
    requires { IsStandby queue.now pass.old }
{
    for _ in 0..count {
        match next(rt, queue, pass) {
            Some(Member::Changes(_)) => {}
            _ => return false,
        }
    }
    next(rt, queue, pass).is_none()
}

/// Commits so often.
fn commit_all<R: Wait, H: Reach<ColumnUnit>>(rt: &R, store: &mut H, commits: u64) -> bool
    requires { (H.known store.old).side ≡ sole }
    ensures { (H.known store.new).side ≡ sole }
{
    for _ in 0..commits {
        if store.commit(rt, 1).is_err() {
            return false;
        }
    }
    true
}

/// How a sender ends over a store after so many commits, and whether as many members arrive as it says.
fn sent_over<R: Wait, H: Reach<ColumnUnit>, L: Ledger>(
    rt: &R,
    alloc: Global,
    store: &mut H,
    commits: u64,
    turns: u64,
    sessions: u32,
    steps: &mut Steps<L>,
) -> Option<Fed>
    requires { (H.known store.old).side ≡ sole }
{
    if !commit_all(rt, store, commits) {
        return None;
    }
    let Ok((queue, sender, mut standby)) = make_feed(alloc) else {
        return None;
    };
    let (sender, fed) = feed(rt, store, &queue, sender, turns, sessions, steps);
    let count = match fed {
        Fed::Spent { sent, .. } | Fed::Over { sent } => sent,
    };
    meet(&queue, &mut standby, sender);
    if pops(rt, &queue, &mut standby, count) {
        Some(fed)
    } else {
        None
    }
}

/// How a sender ends over a new store with so many commits, and whether as many members arrive as it says.
fn sent<R: Threads + Wait + Sync, L: Ledger>(
    rt: &R,
    alloc: Global,
    commits: u64,
    turns: u64,
    sessions: u32,
    blank: Blank,
) -> Option<Fed>
    requires name { blank.name ≡ L.name }
    requires parts { blank.parts ≡ L.parts }
    requires some { 0 < blank.parts }
{
    let limits = Limits {
        area: 0,
        store: 1000,
        changes: 10,
    };
    let Ok(core) = Core::<ColumnUnit>::new(alloc, limits) else {
        return None;
    };
    let mut store = Sole::new(core);
    let mut steps = Steps::<L>::new(rt, blank);
    let fed = sent_over(rt, alloc, &mut store, commits, turns, sessions, &mut steps);
    drop(store);
    fed
}

/// What a sender's job comes to.
#[derive(Clone, Copy)]
enum Wanted {
    /// All turns were made: so many members were sent, and so many turns were waited.
    Spent(u64, u64),
    /// So many members were sent, and it is over.
    Over(u64),
}

/// How many commits there are, the turns, how many sessions have to leave, none of which did, and what comes of it.
type Case = (u64, u64, u32, Wanted);

/// A member is two turns: it is read and pushed. A feed holds 64.
const CASES: [Case; 8] = [
    (3, 100, 0, Wanted::Over(3)),
    (3, 7, 0, Wanted::Over(3)),
    (0, 1, 0, Wanted::Over(0)),
    (3, 6, 0, Wanted::Spent(3, 0)),
    (3, 5, 0, Wanted::Spent(2, 0)),
    (3, 0, 0, Wanted::Spent(0, 0)),
    (3, 9, 1, Wanted::Spent(3, 3)),
    (70, 133, 0, Wanted::Spent(64, 4)),
];

/// Whether a case comes to what is wanted, with no lack of memory.
fn holds<R: Threads + Wait + Sync>(rt: &R, alloc: Global, case: &Case) -> bool {
    let (commits, turns, sessions, wanted) = *case;
    let fed = sent::<R, Brand>(rt, alloc, commits, turns, sessions, Blank::new(1));
    match (fed, wanted) {
        (Some(Fed::Spent { sent, lacks, waits }), Wanted::Spent(members, idle)) => {
            lacks == 0 && sent == members && waits == idle
        }
        (Some(Fed::Over { sent }), Wanted::Over(members)) => sent == members,
        _ => false,
    }
}

#[test]
fn as_many_members_arrive_as_were_sent(rt: HostRuntime) -> Result<(), Fail> {
    for case in &CASES {
        assert!(rt; holds(&rt, rt.alloc(), case));
    }
    Ok(())
}
