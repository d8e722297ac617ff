ghost use Rattle.std.specs.Prelude.{◌≡◌, [], ◌∷◌};
ghost use Rattle.im_history.specs.Cursors.{own_cursors};
ghost use Rattle.im_statements.specs.Agreement.{KeepAgreement};
ghost use Rattle.im_statements.specs.Altered.{TellColumns, TellNoColumns};
ghost use Rattle.im_statements.specs.Rounds.{PlayTheSame, StayAmongOthers, StayEnough};
ghost use Rattle.im_statements.specs.Transaction.{KeepTransaction};

/// A law, for contracts alone: what a session keeps of its cursors agrees with its history after each line, whatever others do
/// meanwhile and wherever memory runs out; and its reply says whether a transaction of the session is open after it.
pub fn lines_keep_agreement()
    ensures cursors { KeepAgreement }
    ensures transaction { KeepTransaction }
{}

/// A law, for contracts alone: a line that is refused since its table got a column tells of the last column that the table had got by
/// then, and that one was added by another number after the line began, whatever others do meanwhile and wherever memory runs out. With
/// nobody else there no line is refused so.
pub fn lines_tell_of_columns()
    ensures tell { TellColumns }
    ensures alone { TellNoColumns }
{}

/// A law, for contracts alone: the cursors that statements open by themselves, by their numbers. Code and definitions cite them by
/// name.
pub fn own_cursors_are()
    ensures { own_cursors ≡ 0 ∷ [] }
{}

/// A law, for contracts alone: how many rounds a line of the background is played in does not matter. It comes to the same
/// result and the same history in any number of rounds that is enough for it, and so does every greater number, out of memory
/// or not; and what may come of a line in some rounds, whatever others do meanwhile, may come of it in more.
pub fn rounds_do_not_matter()
    ensures same { PlayTheSame }
    ensures enough { StayEnough }
    ensures others { StayAmongOthers }
{}
