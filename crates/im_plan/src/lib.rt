//! A line of a script as a plan: turns, each of which reads the history at its own place and adds at most one entry
//! there, and then a result.
//!
//! One definition serves a script that is played line by line and sessions that run beside each other: `specs/Goes.antt`
//! says how a plan may go while others add entries between its turns, being out of memory included, and `specs/Alone.antt` is
//! the machine that it comes to where nobody does. [`a_line_alone_is_the_machine`] says that the two agree.
//!
//! Start with `specs/Plan.antt`.
#![tactic(auto)]

ghost use Rattle.std.specs.Prelude.{◌≡◌, ℕ, Bool, false};
ghost use Rattle.im_history.specs.History.{History};
ghost use Rattle.im_plan.specs.Alone.{IsMachine};
ghost use Rattle.im_plan.specs.Goes.{After, PlayedLine, Nobody, Others, Rest};
ghost use Rattle.im_plan.specs.Plan.{Plan};

/// A law, for contracts alone: where nobody comes between its turns, a line goes exactly as the machine plays it, whole
/// or cut where memory ran out.
pub fn a_line_alone_is_the_machine<R>()
    ensures { (who : ℕ) (amends : ℕ → Plan R) (old : History) (plan : Plan R) (result : R) (new : History) →
        PlayedLine Nobody who amends old plan result new → IsMachine who amends old plan result new }
{}

/// A law, for contracts alone: whatever numbers are a side's own, what is left of a line may also go where others came before
/// it, where others come behind it, and where fewer numbers are its own.
pub fn others_come_first_and_last<R>()
    ensures first { (mine : ℕ → Bool) (who : ℕ) (amends : ℕ → Plan R) (k : ℕ) (old at : History) (plan : Plan R) (result : R)
        (new : History) → After (Others mine) old at →
        Rest (Others mine) who amends k at plan result new → Rest (Others mine) who amends k old plan result new }
    ensures last { (mine : ℕ → Bool) (who : ℕ) (amends : ℕ → Plan R) (k : ℕ) (old : History) (plan : Plan R) (result : R)
        (at new : History) → Rest (Others mine) who amends k old plan result at → After (Others mine) at new →
        Rest (Others mine) who amends k old plan result new }
    ensures wider { (mine fewer : ℕ → Bool) → ((number : ℕ) → mine number ≡ false → fewer number ≡ false) →
        (who : ℕ) (amends : ℕ → Plan R) (k : ℕ) (old : History) (plan : Plan R) (result : R) (new : History) →
        Rest (Others mine) who amends k old plan result new → Rest (Others fewer) who amends k old plan result new }
{}
