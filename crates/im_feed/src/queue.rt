//! A feed and its two ends.
ghost use Rattle.std.specs.Prelude.{◌≡◌, ◌++◌, ◌∷◌, [], IfOk, IfErr, IfSome, IfNone, Ok, Err, MatchResult};
ghost use Rattle.crossbeam_queue.specs.Passes.{ruled_capacity};
ghost use Rattle.im_feed.specs.Lawful.{AreLawful, IsBeginning};
ghost use Rattle.im_feed.specs.Passes.{HasMet, IsSender, IsStandby, popped, pushed};
ghost use Rattle.im_feed.specs.Sent.{WasFull};

use crate::rule::{Ends, FeedView, InOrder, Popped, Pushed};
use crossbeam_queue::{Pass, RuledArrayQueue};
use im_history::Member;
use im_values::NoMemory;
use std::alloc::Global;
use std::sync::Wait;

/// How many members a feed holds at most.
pub const ROOM: usize = 64;

/// Members on their way from the sender to the standby. Both share it by reference.
pub type Feed = RuledArrayQueue<Member, FeedView, InOrder>;

/// What the sender or the standby knows of a feed. It has no bytes, and goes to the thread that pushes or pops.
pub type FeedPass = Pass<Member, FeedView>;

/// Makes a feed, the sender's pass and the standby's. It alone takes memory.
pub fn make_feed(alloc: Global) -> Result<(Feed, FeedPass, FeedPass), NoMemory>
    ensures room { IfOk result (λ made. ruled_capacity made.0 ≡ ROOM) }
    ensures sender { IfOk result (λ made. IsSender made.0 made.1) }
    ensures nothing_pushed { IfOk result (λ made. pushed made.1 ≡ []) }
    ensures standby { IfOk result (λ made. IsStandby made.0 made.2) }
    ensures nothing_popped { IfOk result (λ made. popped made.2 ≡ []) }
{
    let (feed, mut sender) = Feed::ruled(alloc, ROOM)?;
    let standby = feed.another::<Ends>(&mut sender);
    Ok((feed, sender, standby))
}

/// Pushes one more member, which comes back where the feed was full at one moment of the call.
pub(crate) fn push<R: Wait>(
    rt: &R,
    feed: &Feed,
    pass: &mut FeedPass,
    member: Member,
) -> Result<(), Member>
    requires sender { IsSender feed.now pass.old }
    requires lawful { AreLawful (pushed pass.old ++ member ∷ []) }
    ensures sender { IsSender feed.now pass.new }
    ensures pushed { MatchResult result (λ _. pushed pass.new ≡ pushed pass.old ++ member ∷ []) (λ back.
        (back ≡ member) × (pushed pass.new ≡ pushed pass.old) × WasFull (ruled_capacity feed.now) (pushed pass.old)) }
{
    feed.push_as::<Pushed, R>(rt, pass, member)
}

/// Pops the next member. `None` means that the feed was empty at one moment of the call: once the passes have met, all that was
/// pushed was popped then.
pub fn next<R: Wait>(rt: &R, feed: &Feed, pass: &mut FeedPass) -> Option<Member>
    requires standby { IsStandby feed.now pass.old }
    ensures standby { IsStandby feed.now pass.new }
    ensures some { IfSome result (λ member. popped pass.new ≡ popped pass.old ++ member ∷ []) }
    ensures none { IfNone result (popped pass.new ≡ popped pass.old) }
    ensures lawful { AreLawful (popped pass.new) }
    ensures met { HasMet pass.old → HasMet pass.new }
    ensures pushed { pushed pass.new ≡ pushed pass.old }
    ensures all { IfNone result (HasMet pass.old → popped pass.new ≡ pushed pass.new) }
{
    feed.pop_as::<Popped, R>(rt, pass)
}

/// Ends the sender's pass: the standby's then knows what was pushed too. It takes no memory.
pub fn meet(feed: &Feed, pass: &mut FeedPass, other: FeedPass)
    requires standby { IsStandby feed.now pass.old }
    requires sender { IsSender feed.now other }
    ensures standby { IsStandby feed.now pass.new }
    ensures met { HasMet pass.new }
    ensures popped { popped pass.new ≡ popped pass.old }
    ensures pushed { pushed pass.new ≡ pushed other }
    ensures begins { IsBeginning (popped pass.new) (pushed pass.new) }
{
    feed.absorb::<Ends>(pass, other);
    feed.learn_as::<Popped>(pass);
}
