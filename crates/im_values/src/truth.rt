ghost use Rattle.std.specs.Prelude.{◌≡◌};
ghost use Rattle.im_values.specs.Truth as truth;

/// The truth of a condition, as SQL has it: a comparison with NULL is neither true nor false.
#[derive(Clone, Copy)]
pub enum Truth {
    Yes,
    No,
    Unknown,
}

impl Truth {
    /// AND: No where a side is No, else Unknown where a side is Unknown.
    pub fn and(self, other: Truth) -> Truth
        ensures { result ≡ truth.and self other }
    {
        match (self, other) {
            (Truth::No, _) | (_, Truth::No) => Truth::No,
            (Truth::Unknown, _) | (_, Truth::Unknown) => Truth::Unknown,
            (Truth::Yes, Truth::Yes) => Truth::Yes,
        }
    }

    /// OR: Yes where a side is Yes, else Unknown where a side is Unknown.
    pub fn or(self, other: Truth) -> Truth
        ensures { result ≡ truth.or self other }
    {
        match (self, other) {
            (Truth::Yes, _) | (_, Truth::Yes) => Truth::Yes,
            (Truth::Unknown, _) | (_, Truth::Unknown) => Truth::Unknown,
            (Truth::No, Truth::No) => Truth::No,
        }
    }

    /// NOT: swaps Yes and No, and leaves Unknown.
    pub fn negated(self) -> Truth
        ensures { result ≡ truth.negated self }
    {
        match self {
            Truth::Yes => Truth::No,
            Truth::No => Truth::Yes,
            Truth::Unknown => Truth::Unknown,
        }
    }
}
