// Which calls of a gate a run makes, and in which order.
use crate::shell::{plain, played};
use Taken::{Extent, Switch};
use im_edge::{At, Gate, HoldGate};
use im_shell::Status;
use std::sync::Wait;
use std::sync::atomic::{AtomicBool, AtomicU64, Ordering};
use std::test::Fail;
use std::thread;

/// What a gate is to be asked of, by the number of who takes it.
#[derive(Clone, Copy)]
enum Taken {
    /// By a cursor, an extent.
    Extent(u32, u32, u64),
    /// A build that is to become current.
    Switch(u32, u64),
}

impl Taken {
    /// Whether it is this step.
    fn is(self, who: u32, at: At) -> bool {
        match (self, at) {
            (Extent(number, by, served), At::Step { cursor, extent }) => {
                number == who && by == cursor && served == extent
            }
            (Switch(number, build), At::Switch { id }) => number == who && build == id,
            _ => false,
        }
    }
}

/// Where a gate is asked of a step.
#[derive(Clone, Copy, PartialEq, Eq)]
enum When {
    Before,
    Behind,
}

/// A gate that knows the steps to come. Of each it is to be asked once before and once behind.
#[derive(Drop)]
struct KnowingGate<'a> {
    steps: &'a [Taken],
    calls: AtomicU64,
    is_wrong: AtomicBool,
}

impl<'a> KnowingGate<'a> {
    fn new(steps: &'a [Taken]) -> KnowingGate<'a> {
        KnowingGate {
            steps,
            calls: AtomicU64::new(0),
            is_wrong: AtomicBool::new(false),
        }
    }

    /// Sees a call.
    fn see(&self, who: u32, at: At, when: When) {
        let call = self.calls.fetch_add(1, Ordering::SeqCst);
        let wanted = if call % 2 == 0 {
            When::Before
        } else {
            When::Behind
        };
        let is_right = match self.steps.get((call / 2) as usize) {
            Some(step) => step.is(who, at) && when == wanted,
            None => false,
        };
        if !is_right {
            self.is_wrong.store(true, Ordering::SeqCst);
        }
    }

    /// Whether it was asked of each step, and of nothing else.
    fn saw_all(&self) -> bool {
        let calls = self.calls.load(Ordering::SeqCst);
        calls / 2 == self.steps.len() as u64
            && calls % 2 == 0
            && !self.is_wrong.load(Ordering::SeqCst)
    }
}

impl<'a> Gate for KnowingGate<'a> {
    fn before<R: Wait>(&self, _rt: &R, who: u32, at: At) {
        self.see(who, at, When::Before);
    }

    fn after(&self, who: u32, at: At) {
        self.see(who, at, When::Behind);
    }
}

/// A gate that lets nobody take a step before it is asked of the one that it holds. It holds that one up until the other was answered, and
/// then whoever took the other until the held step was answered too. So a call that comes too early holds its own step up, and a step that
/// was taken before the gate was asked comes before the other.
#[derive(Drop)]
pub struct MeetingGate {
    hold: HoldGate,
    held: (u32, u32),
    until: (u32, u32),
    looks: u64,
    held_asked: AtomicU64,
    held_answered: AtomicU64,
    until_asked: AtomicU64,
    until_answered: AtomicU64,
    has_given_up: AtomicBool,
}

impl MeetingGate {
    /// A gate that holds the step `held.1`, from 1, of the number `held.0` until so many steps, `until.1`, of the number `until.0` were
    /// answered. It looks so often, in either place, and goes on then.
    pub fn new(held: (u32, u32), until: (u32, u32), looks: u64) -> MeetingGate {
        MeetingGate {
            hold: HoldGate::new(held, until, looks),
            held,
            until,
            looks,
            held_asked: AtomicU64::new(0),
            held_answered: AtomicU64::new(0),
            until_asked: AtomicU64::new(0),
            until_answered: AtomicU64::new(0),
            has_given_up: AtomicBool::new(false),
        }
    }

    /// Whether it let anybody go on before what it waited for had come.
    pub fn gave_up(&self) -> bool {
        self.hold.gave_up() || self.has_given_up.load(Ordering::SeqCst)
    }

    /// Waits until as many calls were counted as there are with the held step, or until all looks were made.
    fn wait(&self, calls: &AtomicU64) {
        for _ in 0..self.looks {
            if calls.load(Ordering::SeqCst) >= u64::from(self.held.1) {
                return;
            }
            thread::yield_now();
        }
        self.has_given_up.store(true, Ordering::SeqCst);
    }

    /// Counts a call of whoever takes the other step, and waits by this count where it is the one of that step.
    fn meet(&self, calls: &AtomicU64, held: &AtomicU64) {
        let before = calls.fetch_add(1, Ordering::SeqCst);
        if before.saturating_add(1) == u64::from(self.until.1) {
            self.wait(held);
        }
    }
}

impl Gate for MeetingGate {
    fn before<R: Wait>(&self, rt: &R, who: u32, at: At) {
        if who == self.until.0 {
            self.meet(&self.until_asked, &self.held_asked);
        }
        if who == self.held.0 {
            self.held_asked.fetch_add(1, Ordering::SeqCst);
        }
        self.hold.before(rt, who, at);
    }

    fn after(&self, who: u32, at: At) {
        self.hold.after(who, at);
        if who == self.held.0 {
            self.held_answered.fetch_add(1, Ordering::SeqCst);
        }
        if who == self.until.0 {
            self.meet(&self.until_answered, &self.held_answered);
        }
    }
}

/// Five rows in three extents, of which two are given units, and the third one behind a first scan.
const SCANS: &str = "1> CREATE TABLE T (K NUMBER) BLOCK 1 EXTENT 2 INMEMORY PRIORITY HIGH\n\
    1> INSERT INTO T VALUES (1), (2), (3), (4), (5)\n1> COMMIT\nbg> BEGIN\nbg> RUN\n2> SELECT SUM(K) FROM T\n\
    bg> SWITCH\nbg> SWITCH\n16> OPEN 7 FOR SELECT K FROM T\n16> STEP 7\n16> FETCH 7\n3> EXPLAIN SELECT K FROM T\n\
    1> UPDATE T SET K = 9 WHERE K = 5\n1> DELETE FROM T WHERE K = 0\n1> COMMIT\n\
    bg> BEGIN\nbg> CANCEL\nbg> BEGIN\nbg> EVICT T 2\nbg> SWITCH\n\
    4> OPEN 999 FOR SELECT K FROM T\n4> STEP 999\n4> CLOSE 999\n4> STEP 999\n4> SELECT K FROM U";

/// Its steps: each extent that a statement is served, and each build that is to become current.
const SCANS_STEPS: [Taken; 20] = [
    Switch(0, 2),
    Switch(0, 3),
    Extent(2, 0, 0),
    Extent(2, 0, 1),
    Extent(2, 0, 2),
    Switch(0, 1),
    Extent(16, 7, 0),
    Extent(16, 7, 1),
    Extent(16, 7, 2),
    Extent(3, 0, 0),
    Extent(3, 0, 1),
    Extent(3, 0, 2),
    Extent(1, 0, 0),
    Extent(1, 0, 1),
    Extent(1, 0, 2),
    Extent(1, 0, 0),
    Extent(1, 0, 1),
    Extent(1, 0, 2),
    Switch(0, 5),
    Extent(4, 999, 0),
];

/// A session alone, for no worker finds a build.
const SESSION: &str =
    "1> CREATE TABLE T (K NUMBER) BLOCK 1 EXTENT 2\n1> INSERT INTO T VALUES (1), (2), (3)\n1> COMMIT\nrace>\n\
    5> OPEN 3 FOR SELECT K FROM T\n5> STEP 3\n5> SELECT SUM(K) FROM T\n5> FETCH 3\n5> FETCH 3";

const SESSION_STEPS: [Taken; 4] = [
    Extent(5, 3, 0),
    Extent(5, 0, 0),
    Extent(5, 0, 1),
    Extent(5, 3, 1),
];

/// A worker alone, which builds two units.
const WORKER: &str =
    "1> CREATE TABLE T (K NUMBER) BLOCK 1 EXTENT 2 INMEMORY PRIORITY LOW\n1> INSERT INTO T VALUES (1), (2), (3)\n\
    1> COMMIT\nrace>";

const WORKER_STEPS: [Taken; 2] = [Switch(17, 1), Switch(17, 2)];

#[test]
fn a_gate_is_asked_once_before_and_once_behind_each_step_and_switch(
    rt: HostRuntime,
) -> Result<(), Fail> {
    let cases: [(&str, &str, &[Taken]); 3] = [
        ("run", SCANS, &SCANS_STEPS),
        ("race", SESSION, &SESSION_STEPS),
        ("race", WORKER, &WORKER_STEPS),
    ];
    for (mode, script, steps) in cases {
        let gate = KnowingGate::new(steps);
        let (status, _) = played(&rt, rt.alloc(), &["ime", mode], &plain(script, ""), &gate)?;
        assert!(rt; status == Status::Done && gate.saw_all());
    }
    Ok(())
}
