ghost use Rattle.std.specs.Prelude.{◌≡◌, ℕ, Bool, List};
ghost use Rattle.im_history.specs.declared.limits.Limits.{Limits};
ghost use Rattle.im_history.specs.History.{History};
ghost use Rattle.im_plan.specs.Goes.{After, Others};
ghost use Rattle.im_worker.specs.Work.{AddsBuilds, Apart, IsIdleAt, IsOverAt, Round, Worked, builds_begun};

/// A law, for contracts alone: a worker adds nothing but beginnings and ends of builds; and what is said of its job by a history
/// holds of each that others went on to, its rounds, the places at which it was idle or over, and how many builds it began.
pub fn a_worker_is_judged_by_the_whole_history()
    ensures adds { (mine : ℕ → Bool) (limits : Limits) (who : ℕ) (rounds : List Round) (old new : History) →
        Worked (Others mine) limits who rounds old new → AddsBuilds mine who old new }
    ensures worked { (mine : ℕ → Bool) (limits : Limits) (who : ℕ) (rounds : List Round) (old at new : History) →
        Worked (Others mine) limits who rounds old at → After (Others mine) at new → Worked (Others mine) limits who rounds old new }
    ensures idle { (who place : ℕ) (old at new : History) → IsIdleAt who place old at → Apart who at new →
        IsIdleAt who place old new }
    ensures over { (who sessions place : ℕ) (old at new : History) → IsOverAt who sessions place old at → Apart who at new →
        IsOverAt who sessions place old new }
    ensures begun { (who : ℕ) (at new : History) → Apart who at new → builds_begun new who ≡ builds_begun at who }
{}
