//! The rule of a feed, and what each step of it tells.
ghost use Rattle.std.specs.Prelude.{◌≡◌, ◌++◌, ◌∷◌, [], true, false};

use crossbeam_queue::protocol::{Join, Lesson, Outcome, Protocol, Split};
use im_history::Member;
use std::collections::LinkedList;

/// What a pass may do and what it knows: what was pushed, where it pushes, and what was popped, where it pops. No value of it is made.
pub struct FeedView {
    pub pushes: bool,
    pub pops: bool,
    pub pushed: LinkedList<Member>,
    pub popped: LinkedList<Member>,
}

/// The members come out in the order in which they went in.
pub struct InOrder;

impl Protocol<Member, FeedView> for InOrder {
    ghost use Rattle.std.specs.Prelude.{true, []};
    ghost use Rattle.im_feed.specs.Passes.{feed_view};
    ghost use Rattle.im_feed.specs.inner.Rule.{IsInOrder};

    ghost holds = { IsInOrder };

    ghost first = { feed_view true true [] [] };
}

/// A pass of both ends is cut in two, and the standby's takes the sender's in.
pub struct Ends;

impl Split<FeedView> for Ends {
    ghost use Rattle.std.specs.Prelude.{true, false, []};
    ghost use Rattle.im_feed.specs.Passes.{feed_view};

    ghost left = { λ v. feed_view true false v.pushed [] };

    ghost right = { λ v. feed_view false true [] v.popped };
}

impl Join<FeedView> for Ends {
    ghost use Rattle.std.specs.Prelude.{true, false, []};
    ghost use Rattle.im_feed.specs.Passes.{feed_view};

    ghost both = { λ v w. feed_view true true w.pushed v.popped };

    ghost spent = { feed_view false false [] [] };
}

/// A member went in behind all others.
pub struct Pushed;

impl Outcome<Member, FeedView> for Pushed {
    ghost use Rattle.im_feed.specs.Passes.{feed_view};

    ghost then = { λ v x w. w ≡ feed_view v.pushes v.pops (v.pushed ++ x ∷ []) v.popped };
}

/// At a push: what the queue holds is the end of what was pushed.
impl Lesson<Member, FeedView> for Pushed {
    ghost use Rattle.im_feed.specs.inner.Rule.{IsEnd};

    ghost fact = { λ v items. IsEnd items v.pushed };
}

/// The first member came out, and it is lawful behind those before it.
pub struct Popped;

impl Outcome<Member, FeedView> for Popped {
    ghost use Rattle.im_feed.specs.Lawful.{AreLawful};
    ghost use Rattle.im_feed.specs.Passes.{feed_view};

    ghost then = { λ v x w. (w ≡ feed_view v.pushes v.pops v.pushed (v.popped ++ x ∷ [])) × AreLawful (v.popped ++ x ∷ []) };
}

/// At a pop: what was popped is lawful, and where the pass knows both lists the queue holds what is between them.
impl Lesson<Member, FeedView> for Popped {
    ghost use Rattle.im_feed.specs.Lawful.{AreLawful};

    ghost fact = { λ v items. AreLawful v.popped × (v.pushes ≡ true → v.pushed ≡ v.popped ++ items) };
}
