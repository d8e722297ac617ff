ghost use Rattle.std.specs.Prelude.{◌≡◌, ◌<◌, ◌≤◌, []};
ghost use Rattle.im_reach.specs.Sides.{sole};

use crate::lines::play_each;
use im_core::Core;
use im_edge::{OpenGate, Outside};
use im_history::Limits;
use im_reach::{Reach, Sole};
use im_replies::{Body, Fault, Reply};
use im_session::Session;
use im_unit::ColumnUnit;
use im_values::Steps;
use im_values::limits::{MOST_CHANGES, MOST_WEIGHT};
use std::alloc::Global;
use std::marker::Brand;
use std::sync::Wait;
use std::sync::ledger::{Blank, Ledger};
use std::test::Fail;
use std::thread::Threads;

/// The reply to the last of these lines, which a session plays over a store that nothing has happened in.
fn last_reply<R: Threads + Wait + Sync, H: Reach<ColumnUnit>, L: Ledger>(
    outside: &Outside<R, OpenGate>,
    store: &mut H,
    lines: &[&str],
    steps: &mut Steps<L>,
) -> Option<Reply>
    requires sole { (H.known store.old).side ≡ sole }
    requires fresh { (H.known store.old).log ≡ [] }
{
    let mut session = Session::new(outside.alloc, 1);
    let last = play_each(outside, store, &mut session, lines, steps);
    drop(session);
    last
}

/// The same over a store with these limits.
fn reply_within<R: Threads + Wait + Sync, L: Ledger>(
    rt: &R,
    alloc: Global,
    limits: Limits,
    lines: &[&str],
    blank: Blank,
) -> Option<Reply>
    requires store { limits.store ≤ MOST_WEIGHT }
    requires changes { limits.changes ≤ MOST_CHANGES }
    requires name { blank.name ≡ L.name }
    requires parts { blank.parts ≡ L.parts }
    requires some { 0 < blank.parts }
{
    let Ok(core) = Core::<ColumnUnit>::new(alloc, limits) else {
        return None;
    };
    let mut store = Sole::new(core);
    let mut steps = Steps::<L>::new(rt, blank);
    let outside = Outside {
        alloc,
        rt,
        gate: &OpenGate,
    };
    let last = last_reply(&outside, &mut store, lines, &mut steps);
    drop(store);
    last
}

/// What a write comes to.
#[derive(Clone, Copy)]
enum Wanted {
    /// It is written.
    Written,
    /// The store is full: so much more was needed, and so much was left.
    Full(u64, u64),
    /// The transaction has too many changes: so many more were needed, and so many were left.
    TooMany(u64, u64),
}

/// Whether a reply says so.
fn says(reply: &Reply, wanted: Wanted) -> bool {
    match (&reply.body, wanted) {
        (Body::Inserted { .. } | Body::Updated { .. }, Wanted::Written) => true,
        (Body::Error(Fault::StoreFull { need, left }), Wanted::Full(more, room)) => {
            *need == more && *left == room
        }
        (Body::Error(Fault::TooManyChanges { need, left }), Wanted::TooMany(more, room)) => {
            *need == more && *left == room
        }
        _ => false,
    }
}

/// How much a store takes, how many changes a transaction, what a session plays over it, and what its last line comes to.
type Case<'a> = (u64, u64, &'a [&'a str], Wanted);

const NUMBERS: &str = "1> CREATE TABLE T (K NUMBER)";

const TEXTS: &str = "1> CREATE TABLE T (K VARCHAR2(3))";

const TWO: &str = "1> INSERT INTO T VALUES (1), (2)";

const ONE_MORE: &str = "1> INSERT INTO T VALUES (3)";

/// A change weighs 64, and each value of a row that it puts 32 and the bytes of its text.
const CASES: [Case<'static>; 10] = [
    (192, 9, &[NUMBERS, TWO], Wanted::Written),
    (191, 9, &[NUMBERS, TWO], Wanted::Full(192, 191)),
    (200, 9, &[NUMBERS, TWO, ONE_MORE], Wanted::Full(96, 8)),
    (
        200,
        9,
        &[NUMBERS, TWO, "1> ROLLBACK", ONE_MORE],
        Wanted::Full(96, 8),
    ),
    (
        320,
        9,
        &[NUMBERS, TWO, "1> DELETE FROM T", ONE_MORE],
        Wanted::Full(96, 0),
    ),
    (
        98,
        9,
        &[TEXTS, "1> INSERT INTO T VALUES ('abc')"],
        Wanted::Full(99, 98),
    ),
    (
        99,
        9,
        &[TEXTS, "1> INSERT INTO T VALUES ('abc')"],
        Wanted::Written,
    ),
    (
        999,
        2,
        &[NUMBERS, TWO, "1> UPDATE T SET K = 3 WHERE K = 1"],
        Wanted::TooMany(1, 0),
    ),
    (
        999,
        3,
        &[NUMBERS, TWO, "1> UPDATE T SET K = 3"],
        Wanted::TooMany(2, 1),
    ),
    (
        999,
        2,
        &[NUMBERS, TWO, "1> COMMIT", "1> UPDATE T SET K = 3"],
        Wanted::Written,
    ),
];

/// Whether a case comes to what is wanted.
fn holds<R: Threads + Wait + Sync>(rt: &R, alloc: Global, case: &Case<'_>) -> bool {
    let (store, changes, lines, wanted) = *case;
    let limits = Limits {
        area: 0,
        store: store.min(MOST_WEIGHT),
        changes: changes.min(MOST_CHANGES),
    };
    match reply_within::<R, Brand>(rt, alloc, limits, lines, Blank::new(1)) {
        Some(reply) => says(&reply, wanted),
        None => false,
    }
}

#[test]
fn a_small_store_refuses_what_is_past_its_limits(rt: HostRuntime) -> Result<(), Fail> {
    for case in &CASES {
        assert!(rt; holds(&rt, rt.alloc(), case));
    }
    Ok(())
}
