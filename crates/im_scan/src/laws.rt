ghost use Rattle.std.specs.Prelude.{◌<◌, ◌^◌, ℕ};
ghost use Rattle.im_group.specs.Partials.{CanMerge, partial};
ghost use Rattle.im_history.specs.History.{History};
ghost use Rattle.im_history.specs.declared.view.View.{View};
ghost use Rattle.im_syntax.specs.declared.bound.Bound.{Bound};
ghost use Rattle.im_scan.specs.Merging.{GiveOneAnswer};
ghost use Rattle.im_scan.specs.Pinned.{seen_in, seen_to};

/// The parts of one scan give one answer, whatever came into the history between the pins of its extents, and each may be
/// merged into those before it.
pub fn parts_are_one_answer()
    ensures one { GiveOneAnswer }
    ensures mergeable { (bound : Bound) (history : History) (view : View) (extent : ℕ) → view.rows < 2 ^ 64 →
        CanMerge (partial bound (seen_to history view extent)) (partial bound (seen_in history view extent)) }
{}
