ghost use Rattle.std.specs.Prelude.{◌≡◌, ◌≢◌, ℕ, List};
ghost use Rattle.im_script.specs.declared.line.LineKind.{LineKind as AnyKind};
ghost use Rattle.im_script.specs.declared.line.LineKind.TheVariants as kind;
ghost use Rattle.im_script.specs.Forms as forms;
ghost use Rattle.im_script.specs.Lines as lines_are;

/// A line has one kind, where memory was there.
pub fn one_kind()
    ensures { (line : List ℕ) (a b : AnyKind) →
        lines_are.HasKind (forms.form_of line) line a → lines_are.HasKind (forms.form_of line) line b →
        a ≢ kind.NoMemory → b ≢ kind.NoMemory → a ≡ b }
{}
