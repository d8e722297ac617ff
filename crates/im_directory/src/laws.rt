ghost use Rattle.im_directory.specs.Agreement.{KeepsAgreement, ReadsHistory};
ghost use Rattle.im_directory.specs.Agrees.{Agrees};
ghost use Rattle.im_directory.specs.Slots.{Kept};
ghost use Rattle.im_history.specs.History.{History};
ghost use Rattle.im_history.specs.Units.{Content};

/// Whatever a unit's content is taken to be, a directory agrees with the history from the first entry on, whichever calls
/// are made, and each reading is then the history's.
pub fn agreement_is_kept<U>()
    ensures kept { (content : U → Content) → KeepsAgreement content }
    ensures read { (content : U → Content) (h : History) (kept : Kept U) → Agrees content h kept → ReadsHistory content h kept }
{}
