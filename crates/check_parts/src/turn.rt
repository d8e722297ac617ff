ghost use Rattle.std.specs.Prelude.{◌≡◌, ◌∷◌, [], false};
ghost use Rattle.im_turn.specs.Logs.{GrewByOwn};

use im_turn::{Logged, Pass, Turn};
use std::alloc::Global;
use std::sync::Wait;
use std::sync::atomic::{AtomicU64, Ordering};
use std::test::Fail;
use std::thread;
use std::thread::{Threads, join};
use std::time::{Clock, CpuClock, Duration};

#[derive(Clone, Copy)]
struct Note {
    by: u32,
    text: u32,
}

#[derive(Drop)]
struct Diary {
    notes: Vec<Note>,
    pages: u64,
}

impl Logged for Diary {
    type Item = Note;

    ghost log = { λ diary. diary.notes.items };

    ghost who = { λ note. note.by };

    ghost fixed = { λ diary. diary.pages ∷ [] };

    fn entries(&self) -> u64 {
        self.notes.len() as u64
    }
}

impl Diary {
    // Writes a note, if there is memory for it.
    fn write(&mut self, by: u32, text: u32)
        ensures notes { GrewByOwn (λ note. note.by) by self.old.notes.items self.new.notes.items }
        ensures pages { self.new.pages ≡ self.old.pages }
    {
        let _ = self.notes.push(Note { by, text });
    }

    // The texts of a number, in their order, are those from 0 on, so many.
    fn has(&self, by: u32, count: u32) -> bool {
        let mut next = 0;
        for note in &self.notes {
            if note.by == by {
                if note.text != next || next == u32::MAX {
                    return false;
                }
                next += 1;
            }
        }
        next == count
    }
}

// Writes notes, each at a turn of its own.
fn write_notes<R: Wait>(
    rt: &R,
    turn: &Turn<Diary>,
    mut pass: Pass<Diary>,
    by: u32,
    count: u32,
) -> Pass<Diary>
    requires turn { pass.turn ≡ turn.now.id }
    requires number { pass.who ≡ by }
    requires idle { pass.holding ≡ false }
    ensures { result ≡ record pass { seen = result.seen; mine = result.mine } }
{
    for text in 0..count {
        let mut diary = turn.take(rt, &mut pass);
        diary.write(by, text);
        turn.give(&mut pass, diary);
    }
    pass
}

// How often one pass hands the value to another.
const ROUNDS: u32 = 20_000;

// For how many milliseconds the value is out in the first of these rounds, and how many of processor time a pass may take that waits
// for it.
const LONG: u64 = 200;

const LITTLE: u64 = 40;

// Waits until a count of steps has come so far.
fn wait_for<R: Wait>(rt: &R, steps: &AtomicU64, count: u64) {
    for _ in rt.forever() {
        if steps.load(Ordering::SeqCst) >= count {
            return;
        }
        thread::yield_now();
    }
}

// Lets the other pass wait for the value: for long in the first round.
fn linger<R: Clock>(rt: &R, round: u32) {
    if round == 0 {
        thread::sleep(rt, Duration::from_millis(LONG));
    }
    for _ in 0..50 {
        thread::yield_now();
    }
}

// Takes the value in each round, keeps it until another pass waits for it, and goes on once that one has had it.
fn hand_over<R: Clock + Wait>(
    rt: &R,
    turn: &Turn<Diary>,
    mut pass: Pass<Diary>,
    steps: &AtomicU64,
) -> Pass<Diary>
    requires turn { pass.turn ≡ turn.now.id }
    requires idle { pass.holding ≡ false }
    ensures { result ≡ record pass { seen = result.seen; mine = result.mine } }
{
    for round in 0..ROUNDS {
        let last = u64::from(round) * 3;
        let diary = turn.take(rt, &mut pass);
        steps.store(last + 1, Ordering::SeqCst);
        wait_for(rt, steps, last + 2);
        linger(rt, round);
        turn.give(&mut pass, diary);
        wait_for(rt, steps, last + 3);
    }
    pass
}

// The processor time of this thread since it was so much.
fn used_since<R: CpuClock>(rt: &R, before: Option<Duration>) -> Duration {
    match (before, rt.thread_cpu_time().ok()) {
        (Some(before), Some(now)) => now.saturating_sub(before),
        _ => Duration::MAX,
    }
}

// Takes the value in each round while the other pass has it, and answers how much processor time a take took at most.
fn take_over<R: CpuClock + Wait>(
    rt: &R,
    turn: &Turn<Diary>,
    mut pass: Pass<Diary>,
    steps: &AtomicU64,
) -> (Pass<Diary>, Duration)
    requires turn { pass.turn ≡ turn.now.id }
    requires idle { pass.holding ≡ false }
    ensures { result.0 ≡ record pass { seen = result.0.seen; mine = result.0.mine } }
{
    let mut most = Duration::ZERO;
    for round in 0..ROUNDS {
        let last = u64::from(round) * 3;
        wait_for(rt, steps, last + 1);
        let before = rt.thread_cpu_time().ok();
        steps.store(last + 2, Ordering::SeqCst);
        let diary = turn.take(rt, &mut pass);
        most = most.max(used_since(rt, before));
        turn.give(&mut pass, diary);
        steps.store(last + 3, Ordering::SeqCst);
    }
    (pass, most)
}

// The job of pass 1: it hands the value over, and then writes.
fn lead<R: Clock + Wait>(
    rt: &R,
    turn: &Turn<Diary>,
    pass: Pass<Diary>,
    steps: &AtomicU64,
    count: u32,
) -> Pass<Diary>
    requires turn { pass.turn ≡ turn.now.id }
    requires number { pass.who ≡ 1 }
    requires idle { pass.holding ≡ false }
    ensures { result ≡ record pass { seen = result.seen; mine = result.mine } }
{
    write_notes(rt, turn, hand_over(rt, turn, pass, steps), 1, count)
}

// The job of pass 2: it takes the value over, and then writes.
fn follow<R: CpuClock + Wait>(
    rt: &R,
    turn: &Turn<Diary>,
    pass: Pass<Diary>,
    steps: &AtomicU64,
    count: u32,
) -> (Pass<Diary>, Duration)
    requires turn { pass.turn ≡ turn.now.id }
    requires number { pass.who ≡ 2 }
    requires idle { pass.holding ≡ false }
    ensures { result.0 ≡ record pass { seen = result.0.seen; mine = result.0.mine } }
{
    let (pass, used) = take_over(rt, turn, pass, steps);
    (write_notes(rt, turn, pass, 2, count), used)
}

// Two passes hand the value to each other, and then write beside each other, in two threads. It answers what they wrote, and how
// much processor time one took that waited for the value.
fn write_both<R: Clock + CpuClock + Threads + Wait + Sync>(
    rt: &R,
    alloc: Global,
    count: u32,
) -> Result<(Diary, Duration), Diary> {
    let diary = Diary {
        notes: Vec::new(alloc),
        pages: 7,
    };
    let (turn, mut first) = Turn::new(alloc, diary, 3)?;
    let one = turn.split(&mut first, 1);
    let two = turn.split(&mut first, 2);
    let steps = AtomicU64::new(0);
    let (one, (two, used)) = join(
        rt,
        || lead(rt, &turn, one, &steps, count),
        || follow(rt, &turn, two, &steps, count),
    );
    turn.join(&mut first, one);
    turn.join(&mut first, two);
    Ok((turn.close(first), used))
}

#[test]
fn two_threads_write_into_one_log_and_sleep_while_they_wait(rt: HostRuntime) {
    let Ok((diary, used)) = write_both(&rt, rt.alloc(), 2000) else {
        panic!(rt; "there was no memory")
    };
    assert!(rt; diary.entries() == 4000 && diary.pages == 7);
    assert!(rt; diary.has(1, 2000) && diary.has(2, 2000) && diary.has(0, 0));
    assert!(rt; used < Duration::from_millis(LITTLE));
}

#[test]
fn a_list_of_passes_joins(rt: HostRuntime) -> Result<(), Fail> {
    let diary = Diary {
        notes: Vec::new(rt.alloc()),
        pages: 0,
    };
    let mut passes = Vec::with_capacity(rt.alloc(), 2)?;
    let Ok((turn, mut first)) = Turn::new(rt.alloc(), diary, 3) else {
        panic!(rt; "there was no memory")
    };
    let one = turn.split(&mut first, 1);
    let two = turn.split(&mut first, 2);
    passes.push_reserved(write_notes(&rt, &turn, one, 1, 2));
    passes.push_reserved(write_notes(&rt, &turn, two, 2, 3));
    turn.join_all(&mut first, passes);
    first.recall();
    let diary = turn.close(first);
    assert!(rt; diary.entries() == 5);
    assert!(rt; diary.has(1, 2) && diary.has(2, 3));
    Ok(())
}
