ghost use Rattle.im_standby.specs.Store.{GivesItsNumbers, HasItsColumns, HasItsRows, HasItsTables, HasNoRowBehind, IsReached, ShowsItsRows};

/// A standby that has applied the first members of a history shows what that history had committed at the SCN of their number.
///
/// Each row is the one that was committed there, the tables are those that there were then, and each has the columns and the
/// defaults that it had. Which entries came behind, and which sessions had changes pending, makes no difference.
pub fn a_standby_has_the_rows_of_the_store()
    ensures rows { HasItsRows }
    ensures reached { IsReached }
    ensures tables { HasItsTables }
    ensures columns { HasItsColumns }
    ensures shown { ShowsItsRows }
    ensures numbers { GivesItsNumbers }
    ensures behind { HasNoRowBehind }
{}
