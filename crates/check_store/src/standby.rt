// The commits of a store come to a second one.
ghost use Rattle.std.specs.Prelude.{◌≡◌, []};
ghost use Rattle.im_reach.specs.Sides.{sole};

use crate::builds::{Course, holds};
use crate::lines::play_each;
use im_edge::{OpenGate, Outside};
use im_feed::{Fed, feed, make_feed, meet};
use im_reach::Reach;
use im_session::Session;
use im_standby::{Drained, Follower, Standby};
use im_unit::ColumnUnit;
use im_values::{Seen, Steps, Value};
use std::sync::Wait;
use std::sync::ledger::Ledger;
use std::test::Fail;
use std::thread::Threads;

/// Five commits, one of them of two writes; a rollback between them, and a change that is pending at the end.
const LINES: [&str; 12] = [
    "1> CREATE TABLE T (K NUMBER)",
    "1> INSERT INTO T VALUES (10), (20)",
    "1> UPDATE T SET K = 11 WHERE K = 10",
    "1> COMMIT",
    "1> INSERT INTO T VALUES (30)",
    "1> ROLLBACK",
    "1> DELETE FROM T WHERE K = 20",
    "1> COMMIT",
    "1> ALTER TABLE T ADD (N NUMBER DEFAULT 5)",
    "1> INSERT INTO T VALUES (40, 6)",
    "1> COMMIT",
    "1> UPDATE T SET K = 99",
];

/// How many commits these are.
const COMMITS: u64 = 5;

/// As many turns as a sender needs for them and more.
const TURNS: u64 = 100;

/// Whether there is a row of so many values that begins with this number.
fn begins_with(row: Option<&[Value]>, count: usize, number: i64) -> bool {
    let Some(values) = row else {
        return false;
    };
    let Some(first) = values.first() else {
        return false;
    };
    values.len() == count && matches!(first.seen(), Seen::Int(found) if found == number)
}

/// Whether a standby shows what the lines have committed: the first row as it was changed, the second one gone, no row where an insert
/// was rolled back, and the last one of two columns.
fn shows_the_commits<L: Ledger>(standby: &Standby, steps: &mut Steps<L>) -> bool {
    let first = begins_with(standby.row(1, 0, steps), 1, 11);
    let second = standby.row(1, 1, steps).is_none();
    let third = standby.row(1, 2, steps).is_none();
    let fourth = begins_with(standby.row(1, 3, steps), 2, 40);
    first && second && third && fourth && standby.given(1) == 4 && standby.scn() == COMMITS
}

/// Whether a standby comes as far as a store whose commits are sent to it, and shows what they have left.
pub fn comes_to_a_standby<R: Threads + Wait + Sync, H: Reach<ColumnUnit>, L: Ledger>(
    outside: &Outside<R, OpenGate>,
    store: &mut H,
    steps: &mut Steps<L>,
) -> bool
    requires sole { (H.known store.old).side ≡ sole }
    requires fresh { (H.known store.old).log ≡ [] }
{
    let mut session = Session::new(outside.alloc, 1);
    drop(play_each(outside, store, &mut session, &LINES, steps));
    let Ok((queue, sender, mut pass)) = make_feed(outside.alloc) else {
        return false;
    };
    let Ok(mut follower) = Follower::new(outside.alloc) else {
        return false;
    };
    let (sender, fed) = feed(outside.rt, store, &queue, sender, TURNS, 0, steps);
    meet(&queue, &mut pass, sender);
    let drained = follower.drain(outside.rt, &queue, &mut pass);
    let over = matches!(fed, Fed::Over { sent } if sent == COMMITS);
    over && matches!(drained, Drained::Empty) && shows_the_commits(follower.standby(), steps)
}

#[test]
fn the_commits_of_a_store_come_to_a_standby(rt: HostRuntime) -> Result<(), Fail> {
    assert!(rt; holds(&rt, rt.alloc(), Course::Sent));
    Ok(())
}
