ghost use Rattle.im_journal.specs.Stale.{FirstNotesSuffice, Note, first_notes, noted};
ghost use Rattle.std.specs.Prelude.{◌≡◌, [], ◌∷◌, ◌++◌, List};

/// A journal keeps the first note of each row number alone, and that changes no answer.
pub fn first_notes_suffice()
    ensures kept { (notes : List Note) (note : Note) → first_notes (notes ++ note ∷ []) ≡ noted (first_notes notes) note }
    ensures answers { (notes : List Note) → FirstNotesSuffice notes }
{}
