ghost use Rattle.im_index.specs.Excludes.{ExcludedRowsAreNotKept};

/// A condition that the bounds of columns exclude keeps none of their rows. This is said here once, and nothing is done.
pub fn excluded_rows_are_not_kept()
    ensures { ExcludedRowsAreNotKept }
{}
