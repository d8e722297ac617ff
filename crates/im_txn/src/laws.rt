ghost use Rattle.im_history.specs.History.{History};
ghost use Rattle.im_txn.specs.Agreement.{CountsOwed, KeepsAgreement, ReadsHistory};
ghost use Rattle.im_txn.specs.Agrees.{Agrees};
ghost use Rattle.im_txn.specs.Standing.{Standing};
ghost use Rattle.std.specs.Prelude.{ℕ};

/// What is going on agrees with the history from the first entry on, whichever calls are made, and each reading is then
/// the history's.
pub fn agreement_is_kept()
    ensures kept { KeepsAgreement }
    ensures read { (h : History) (standing : Standing) → Agrees h standing → ReadsHistory h standing }
    ensures owed { (h : History) (old new : Standing) (who : ℕ) → Agrees h old → CountsOwed h old new who }
{}
