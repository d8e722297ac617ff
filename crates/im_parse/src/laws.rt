ghost use Rattle.std.specs.Prelude.{◌≡◌};
ghost use Rattle.im_syntax.specs.declared.statement.Stmt.{Stmt as AnyStmt};
ghost use Rattle.im_syntax.specs.Spelling.{spelling};
ghost use Rattle.im_syntax.specs.Rules.{IsStmt};

/// Two statements of one spelling are one.
pub fn one_spelling()
    ensures { (a b : AnyStmt) → IsStmt a → IsStmt b → spelling a ≡ spelling b → a ≡ b }
{}
