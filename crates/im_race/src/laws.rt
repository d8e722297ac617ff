ghost use Rattle.im_race.specs.Jobs.{IsJudgedByTheWhole};
ghost use Rattle.im_race.specs.Telling.{RacesTellOfColumns};

/// A law, for contracts alone: what a session did in a race, as far as it knew the history when it left, holds of any history that
/// others went on to.
pub fn a_job_is_judged_by_the_whole_history()
    ensures { IsJudgedByTheWhole }
{}

/// A law, for contracts alone: where a session's line was refused in a race since a table got columns, its reply tells of the last of them,
/// which another number added after the line began.
pub fn a_race_tells_of_columns()
    ensures { RacesTellOfColumns }
{}
