ghost use Rattle.im_core.specs.Pins.{GiveOneScan, GiveTheSameRows, GivesTheCommittedRows};
ghost use Rattle.im_core.specs.Tasks.{MendsTheLentUnit};

/// Pins of one extent for one open cursor give the same rows at any two moments, whichever units they lend.
///
/// Between the two any session, and the background, may have made any calls: commits, those of the cursor's own session too,
/// and builds, switches and evictions; and the table may have got columns. One pin may lend a unit, the other a unit of another SCN,
/// of fewer columns, or none: what is fetched beside it makes both the rows that were committed at the cursor's SCN, as the cursor's
/// view shows them. So a scan takes the same rows of both, and whatever is made of these, as its part of an answer, is the same.
pub fn pins_of_a_cursor_are_one()
    ensures committed { GivesTheCommittedRows }
    ensures rows { GiveTheSameRows }
    ensures scan { GiveOneScan }
{}

/// The unit that a build is lent, with the rows that are fetched beside it in their places, has at each row number of its extent
/// the row that was committed at the build's SCN, with the columns that its table had there.
///
/// So the unit that is made of it anew is what the build's unit is to hold, and no other row of the extent need be read.
pub fn a_lent_unit_is_mended()
    ensures { MendsTheLentUnit }
{}
