ghost use Rattle.im_history.specs.History.{History};
ghost use Rattle.im_history.specs.Horizon.{NoneBelow, horizon};
ghost use Rattle.im_history.specs.Legal.{IsLegal};
ghost use Rattle.im_history.specs.declared.limits.Limits.{Limits};

/// A law, for contracts alone: in a legal history no session, no open cursor and no held build reads below the horizon. So a purge
/// takes nothing from them, and moves the horizon on or leaves it.
pub fn nobody_reads_below_the_horizon()
    ensures { (limits : Limits) (history : History) → IsLegal limits history → NoneBelow history (horizon history) }
{}
