// What a value has to tell of itself to be handed round.
ghost use Rattle.std.specs.Prelude.{◌≡◌, ℕ, List, length};

/// A value with a log: a list of entries, each made under a number, to which entries are only ever added.
pub trait Logged {
    /// An entry of the log.
    type Item;

    // The entries, oldest first. They are fewer than 2^64.
    ghost log: { Self → List Self.Item };

    // The number under which an entry was made.
    ghost who: { Self.Item → ℕ };

    // What stays as it is while the value is handed round, such as its limits.
    ghost fixed: { Self → List ℕ };

    /// The number of entries. It takes no memory.
    fn entries(&self) -> u64
        ensures { result ≡ length (log self.now) };
}
