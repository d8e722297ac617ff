ghost use Rattle.std.specs.Prelude.{◌≡◌, ◌++◌, List, true};
ghost use Rattle.im_syntax.specs.declared.bound.Bound.{Bound};
ghost use Rattle.im_group.specs.Interleaved.{Interleaves};
ghost use Rattle.im_group.specs.Partials.{Numbered, partial};

/// What rows give to a query that is grouped does not depend on their order: of two lists either may come first, and the
/// rows of both may come one by one in turn.
pub fn groups_have_no_order()
    ensures swapped { (bound : Bound) (front back : List Numbered) → bound.grouped ≡ true →
        partial bound (front ++ back) ≡ partial bound (back ++ front) }
    ensures interleaved { (bound : Bound) (front back whole : List Numbered) → bound.grouped ≡ true → Interleaves front back whole →
        partial bound whole ≡ partial bound (front ++ back) }
{}
