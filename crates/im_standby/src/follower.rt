ghost use Rattle.std.specs.Prelude.{◌≡◌, [], is_some, IfOk, IfSome, IsTrue, OnOk, OnErr, None};
ghost use Rattle.im_feed.specs.Lawful.{IsBeginning};
ghost use Rattle.im_feed.specs.Passes.{HasMet, IsStandby, popped, pushed};
ghost use Rattle.im_standby.specs.Following.{Follows, FollowsOn, HasStopped, IfEmpty, IsFollowing};
ghost use Rattle.im_standby.specs.Standing.{IsNext};
ghost use Rattle.im_standby.specs.inner.Applying.{HasTaken, HoldsBack};

use crate::standby::Standby;
use im_feed::{Feed, FeedPass, next};
use im_history::Member;
use im_values::NoMemory;
use std::alloc::Global;
use std::marker::Model;
use std::sync::Wait;

/// Why a follower stopped.
#[derive(Clone, Copy)]
pub enum Drained {
    /// The feed was empty.
    Empty,
    /// Memory was out: a member is in hand, and the next call applies it first.
    NoMemory,
}

/// A standby, and the member that was popped and is not applied yet, if there is one.
#[derive(Drop)]
pub struct Follower {
    standby: Standby,
    hand: Option<Member>,
}

impl Model for Follower {
    ghost use Rattle.im_standby.specs.Following.{Following};

    ghost Value = { Following };

    ghost view = { λ f. record { standby = f.standby; hand = f.hand } };
}

impl Follower {
    /// A follower that has popped nothing.
    pub fn new(alloc: Global) -> Result<Follower, NoMemory>
        ensures { IfOk result (λ follower. Follows follower []) }
    {
        let standby = Standby::new(alloc)?;
        Ok(Follower {
            standby,
            hand: None,
        })
    }

    /// The standby, as far as it has come.
    pub fn standby(&self) -> &Standby
        ensures { result.now ≡ self.now.standby }
    {
        &self.standby
    }

    /// Lets the images of so many row numbers from the first on be made anew, as [`Standby::draw`] does.
    pub fn draw(&mut self, table: u32, first: u64, count: u64, most: u64)
        ensures { self.new ≡ self.old }
    {
        self.standby.draw(table, first, count, most);
    }

    /// Pops members and applies them, until a pop finds the feed empty at one moment of it, or memory is out. The member in hand is
    /// applied first, so none is lost.
    ///
    /// Whatever the pass had popped before, it has popped that still, and more behind it.
    pub fn drain<R: Wait>(&mut self, rt: &R, queue: &Feed, pass: &mut FeedPass) -> Drained
        requires standby { IsStandby queue.now pass.old }
        requires follows { Follows self.old (popped pass.old) }
        ensures standby { IsStandby queue.now pass.new }
        ensures follows { Follows self.new (popped pass.new) }
        ensures stopped { HasStopped result self.new (popped pass.new) }
        ensures more { IsBeginning (popped pass.old) (popped pass.new) }
        ensures met { HasMet pass.old → HasMet pass.new }
        ensures pushed { pushed pass.new ≡ pushed pass.old }
        ensures all { IfEmpty result (HasMet pass.old → popped pass.new ≡ pushed pass.new) }
    {
        for _ in rt.forever() {
            if let Some(stopped) = self.turn(rt, queue, pass) {
                return stopped;
            }
        }
        unreachable!()
    }

    /// Applies the member in hand, and pops the next one.
    fn turn<R: Wait>(&mut self, rt: &R, queue: &Feed, pass: &mut FeedPass) -> Option<Drained>
        requires standby { IsStandby queue.now pass.old }
        requires follows { Follows self.old (popped pass.old) }
        ensures standby { IsStandby queue.now pass.new }
        ensures follows { Follows self.new (popped pass.new) }
        ensures stopped { IfSome result (λ stopped. HasStopped stopped self.new (popped pass.new)) }
        ensures more { IsBeginning (popped pass.old) (popped pass.new) }
        ensures met { HasMet pass.old → HasMet pass.new }
        ensures pushed { pushed pass.new ≡ pushed pass.old }
        ensures all { IfSome result (λ stopped. IfEmpty stopped (HasMet pass.old → popped pass.new ≡ pushed pass.new)) }
    {
        match self.apply_hand() {
            Ok(()) => self.pop(rt, queue, pass),
            Err(NoMemory) => Some(Drained::NoMemory),
        }
    }

    /// Pops the next member into the hand, which is free.
    fn pop<R: Wait>(&mut self, rt: &R, queue: &Feed, pass: &mut FeedPass) -> Option<Drained>
        requires free { self.old.hand ≡ None }
        requires standby { IsStandby queue.now pass.old }
        requires follows { Follows self.old (popped pass.old) }
        ensures standby { IsStandby queue.now pass.new }
        ensures follows { Follows self.new (popped pass.new) }
        ensures stopped { IfSome result (λ stopped. HasStopped stopped self.new (popped pass.new)) }
        ensures more { IsBeginning (popped pass.old) (popped pass.new) }
        ensures met { HasMet pass.old → HasMet pass.new }
        ensures pushed { pushed pass.new ≡ pushed pass.old }
        ensures all { IfSome result (λ stopped. IfEmpty stopped (HasMet pass.old → popped pass.new ≡ pushed pass.new)) }
    {
        match next(rt, queue, pass) {
            Some(member) => {
                self.hand = Some(member);
                None
            }
            None => Some(Drained::Empty),
        }
    }

    /// Applies the member in hand, if there is one. For want of memory it stays there.
    fn apply_hand(&mut self) -> Result<(), NoMemory>
        requires following { IsFollowing self.old }
        ensures follows { FollowsOn self.old self.new }
        ensures free { OnOk result (self.new.hand ≡ None) }
        ensures kept { OnErr result (IsTrue (is_some self.new.hand)) }
    {
        match self.hand.take() {
            Some(member) => self.apply(member),
            None => Ok(()),
        }
    }

    /// Applies a member, which is in hand again for want of memory.
    fn apply(&mut self, member: Member) -> Result<(), NoMemory>
        requires free { self.old.hand ≡ None }
        requires next { IsNext self.old.standby member }
        ensures ok { OnOk result (HasTaken self.old self.new member) }
        ensures err { OnErr result (HoldsBack self.old self.new member) }
    {
        match self.standby.apply(member) {
            Ok(()) => Ok(()),
            Err(back) => {
                self.hand = Some(back);
                Err(NoMemory)
            }
        }
    }
}
