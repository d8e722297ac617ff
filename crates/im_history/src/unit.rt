ghost use Rattle.std.specs.Prelude.{◌≡◌};
ghost use Rattle.im_history.specs.Contents.{count_present, unit_bytes};
ghost use Rattle.im_history.specs.Units.{Content};

/// A column unit, as the store knows it: the rows of one extent that were committed at an SCN, in columns.
pub trait UnitLike: Drop {
    /// What it holds.
    ghost content: { Self → Content };

    /// The SCN. It takes no memory.
    fn scn(&self) -> u64
        ensures { result ≡ (content self.now).scn };

    /// How many columns it has. It takes no memory.
    fn columns(&self) -> u32
        ensures { result ≡ (content self.now).columns };

    /// The bytes that it counts for: those of its columns, and a bit for each row number. It takes no memory.
    fn bytes(&self) -> u64
        ensures { result ≡ unit_bytes (content self.now) };

    /// The number of rows that are present. It takes no memory.
    fn present(&self) -> u64
        ensures { result ≡ count_present (content self.now).rows };
}
