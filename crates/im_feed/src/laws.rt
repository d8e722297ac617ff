//! What follows of a feed whose passes have met.
ghost use Rattle.std.specs.Prelude.{◌≡◌, ◌++◌, ℕ, List, length};
ghost use Rattle.im_history.specs.declared.limits.Limits.{Limits};
ghost use Rattle.im_history.specs.declared.member.Member.{Member};
ghost use Rattle.im_history.specs.Commits.{members, scn};
ghost use Rattle.im_history.specs.History.{History};
ghost use Rattle.im_history.specs.Legal.{IsLawful};
ghost use Rattle.im_feed.specs.Lawful.{AreLawful, IsBeginning};
ghost use Rattle.im_feed.specs.Sent.{AreFirst};

/// A law, for contracts alone: what was popped begins the members of a lawful history. Where what was pushed are the first members of
/// a log, what was popped are the first members of it, and of each longer one; and all of them, where all were sent and all was popped.
pub fn what_was_popped_was_committed()
    ensures lawful { (popped : List Member) → AreLawful popped →
        (limits : Limits) × (log : History) × IsLawful limits log × AreFirst (length popped) popped log }
    ensures pushed { (popped pushed : List Member) → AreLawful pushed → IsBeginning popped pushed → AreLawful popped }
    ensures first { (sent : ℕ) (popped pushed : List Member) (log more : History) →
        AreFirst sent pushed log → IsBeginning popped pushed → AreFirst (length popped) popped (log ++ more) }
    ensures all { (sent : ℕ) (popped pushed : List Member) (log : History) →
        AreFirst sent pushed log → sent ≡ scn log → popped ≡ pushed → popped ≡ members log }
{}
