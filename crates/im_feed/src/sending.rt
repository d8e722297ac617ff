//! The sender's job.
ghost use Rattle.std.specs.Prelude.{◌≡◌, ◌+◌, ◌-◌, ◌*◌, ◌<◌, ◌≤◌, ◌⊎◌, ◌^◌, ◌++◌, ◌∷◌, [], true};
ghost use Rattle.crossbeam_queue.specs.Passes.{ruled_capacity};
ghost use Rattle.im_history.specs.Commits.{scn};
ghost use Rattle.im_history.specs.Leaves.{leaves};
ghost use Rattle.im_plan.specs.Goes.{After};
ghost use Rattle.im_reach.specs.Rests.{Counted};
ghost use Rattle.im_reach.specs.Sides.{AreOthers, speaks};
ghost use Rattle.im_feed.specs.Lawful.{AreLawful};
ghost use Rattle.im_feed.specs.Passes.{IsSender, pushed};
ghost use Rattle.im_feed.specs.Sent.{AreFirst, HasCause, IfOver, IfSpent, IsWithinRise, WasFull, WereWaited, sent_of};
ghost use Rattle.im_feed.specs.inner.Sending.{IsOffered, IsRound, when_lacked, when_read, when_sent, when_waited};

use crate::queue::{Feed, FeedPass, push};
use im_core::Sent;
use im_history::{Member, UnitLike};
use im_reach::Reach;
use im_values::Steps;
use im_values::limits::SENDER;
use std::sync::Wait;
use std::sync::atomic::AtomicU64;
use std::sync::ledger::Ledger;
use std::time::Duration;

/// How a sender's job ended.
#[derive(Clone, Copy)]
pub enum Fed {
    /// All its turns were made.
    Spent {
        /// How many members were pushed.
        sent: u64,
        /// In how many turns memory was out.
        lacks: u64,
        /// In how many turns no member was there to be pushed, or no room in the feed.
        waits: u64,
    },
    /// Each member was pushed, and all sessions had left.
    Over {
        /// How many members there are.
        sent: u64,
    },
}

/// How many turns of a job are left, and what came of those that were made.
#[derive(Clone, Copy)]
pub struct Tally {
    pub left: u64,
    pub sent: u64,
    pub lacks: u64,
    pub waits: u64,
}

impl Tally {
    /// A member was read.
    fn note_read(&mut self)
        requires some { 1 ≤ self.old.left }
        ensures { self.new ≡ when_read self.old }
    {
        self.left -= 1;
    }

    /// It was pushed.
    fn note_sent(&mut self)
        requires some { 1 ≤ self.old.left }
        requires room { self.old.sent + 1 < 2 ^ 64 }
        ensures { self.new ≡ when_sent self.old }
    {
        self.left -= 1;
        self.sent += 1;
    }

    /// Memory was out.
    fn note_lack(&mut self)
        requires some { 1 ≤ self.old.left }
        requires room { self.old.lacks + 1 < 2 ^ 64 }
        ensures { self.new ≡ when_lacked self.old }
    {
        self.left -= 1;
        self.lacks += 1;
    }

    /// There was nothing to push, or no room for it.
    fn note_wait(&mut self)
        requires some { 1 ≤ self.old.left }
        requires room { self.old.waits + 1 < 2 ^ 64 }
        ensures { self.new ≡ when_waited self.old }
    {
        self.left -= 1;
        self.waits += 1;
    }
}

/// Sleeps for a millisecond, or less.
fn pause<R: Wait>(rt: &R) {
    AtomicU64::new(0).park_timeout(rt, 0, Duration::from_millis(1));
}

/// Offers a member to the feed until it is pushed or no turn is left. Where the feed was full it pauses.
fn offer<R: Wait>(rt: &R, feed: &Feed, pass: &mut FeedPass, member: Member, tally: &mut Tally)
    requires sender { IsSender feed.now pass.old }
    requires lawful { AreLawful (pushed pass.old ++ member ∷ []) }
    requires room { tally.old.left + tally.old.sent + tally.old.waits < 2 ^ 64 }
    ensures sender { IsSender feed.now pass.new }
    ensures offered { IsOffered (ruled_capacity feed.now) member tally.old tally.new (pushed pass.old) (pushed pass.new) }
{
    let mut hand = member;
    while tally.left > 0 {
        match push(rt, feed, pass, hand) {
            Ok(()) => {
                tally.note_sent();
                return;
            }
            Err(back) => {
                hand = back;
                tally.note_wait();
                pause(rt);
            }
        }
    }
    drop(hand);
}

/// One round of a sender: the next member is read and offered, or it is not there, or memory is out. Whether the job is over with it.
fn round<R: Wait, U: UnitLike, H: Reach<U>, L: Ledger>(
    rt: &R,
    reach: &mut H,
    feed: &Feed,
    pass: &mut FeedPass,
    sessions: u32,
    tally: &mut Tally,
    steps: &mut Steps<L>,
) -> bool
    requires speaks { speaks (H.known reach.old).side SENDER ≡ true }
    requires sender { IsSender feed.now pass.old }
    requires first { AreFirst tally.old.sent (pushed pass.old) (H.known reach.old).log }
    requires some { 1 ≤ tally.old.left }
    requires room { tally.old.left + tally.old.sent + tally.old.lacks + tally.old.waits < 2 ^ 64 }
    ensures sender { IsSender feed.now pass.new }
    ensures round { IsRound (ruled_capacity feed.now) sessions tally.old tally.new (pushed pass.old) (pushed pass.new)
        (H.known reach.old) (H.known reach.new) result }
{
    match reach.member(rt, SENDER, tally.sent + 1, steps) {
        Ok(Sent::Member(member)) => {
            tally.note_read();
            offer(rt, feed, pass, member, tally);
            false
        }
        Ok(Sent::None { left }) => {
            if left == sessions {
                return true;
            }
            tally.note_wait();
            pause(rt);
            false
        }
        Err(_) => {
            tally.note_lack();
            pause(rt);
            false
        }
    }
}

/// Does the sender's job: it reads the members of a store in order, from the first one on, and pushes each.
///
/// A turn is one reading or one push. Where there is nothing to push, no room for it or no memory, the turn is followed by a pause.
pub fn feed<R: Wait, U: UnitLike, H: Reach<U>, L: Ledger>(
    rt: &R,
    reach: &mut H,
    queue: &Feed,
    mut pass: FeedPass,
    turns: u64,
    sessions: u32,
    steps: &mut Steps<L>,
) -> (FeedPass, Fed)
    requires speaks { speaks (H.known reach.old).side SENDER ≡ true }
    requires sender { IsSender queue.now pass }
    requires nothing_pushed { pushed pass ≡ [] }
    ensures sender { IsSender queue.now result.0 }
    ensures pushed { AreFirst (sent_of result.1) (pushed result.0) (H.known reach.new).log }
    ensures over { IfOver result.1 (λ sent.
        (sent ≡ scn (H.known reach.new).log) × (leaves (H.known reach.new).log ≡ sessions)) }
    ensures spent { IfSpent result.1 (λ sent lacks waits. turns ≤ 2 * sent + lacks + waits + 1) }
    ensures waited { IfSpent result.1 (λ sent lacks waits. WereWaited (ruled_capacity queue.now) sessions sent lacks waits (pushed result.0)
        (H.known reach.old) (H.known reach.new)) }
    ensures lacks { IfSpent result.1 (λ sent lacks waits.
        IsWithinRise lacks (H.known reach.old).misses (H.known reach.new).misses) }
    ensures waits { IfSpent result.1 (λ sent lacks waits. HasCause (ruled_capacity queue.now) sessions sent waits (pushed result.0)
        (H.known reach.old) (H.known reach.new)) }
    ensures missed { IfSpent result.1 (λ sent lacks waits. WasFull (ruled_capacity queue.now) (pushed result.0)
        ⊎ IsWithinRise (lacks + waits) (H.known reach.old).misses (H.known reach.new).misses) }
    ensures few { IfSpent result.1 (λ sent lacks waits. 2 * sent + lacks + waits ≤ turns) }
    ensures known { Counted (H.known reach.old) (H.known reach.new) }
    ensures others { After (AreOthers (H.known reach.old).side) (H.known reach.old).log (H.known reach.new).log }
{
    let mut tally = Tally {
        left: turns,
        sent: 0,
        lacks: 0,
        waits: 0,
    };
    while tally.left > 0 {
        if round(rt, reach, queue, &mut pass, sessions, &mut tally, steps) {
            return (pass, Fed::Over { sent: tally.sent });
        }
    }
    let fed = Fed::Spent {
        sent: tally.sent,
        lacks: tally.lacks,
        waits: tally.waits,
    };
    (pass, fed)
}
