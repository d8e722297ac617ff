ghost use Rattle.std.specs.Prelude.{◌≡◌};
ghost use Rattle.im_words.specs.Setting as spec;

/// An option: a name and a number that may be set.
#[derive(Clone, Copy, Debug, PartialEq, Eq)]
pub enum Setting {
    /// How many bytes column units may take together.
    Area,
    /// How many workers populate column units beside the sessions of a race.
    Workers,
    /// How many turns each worker has.
    Turns,
    /// How many rows a generated script inserts.
    Rows,
    /// What the values of a generated script are made of.
    Seed,
}

impl Setting {
    /// The name, without the two hyphens before it.
    pub fn name(self) -> &'static str
        ensures { result.now ≡ spec.name_of self }
    {
        match self {
            Setting::Area => "area",
            Setting::Workers => "workers",
            Setting::Turns => "turns",
            Setting::Rows => "rows",
            Setting::Seed => "seed",
        }
    }

    /// The least number that it may be set to.
    pub fn least(self) -> u64
        ensures { result ≡ spec.least_of self }
    {
        match self {
            Setting::Area | Setting::Seed => 0,
            Setting::Workers | Setting::Turns | Setting::Rows => 1,
        }
    }

    /// The greatest number that it may be set to.
    pub fn most(self) -> u64
        ensures { result ≡ spec.most_of self }
    {
        match self {
            Setting::Area => 1_073_741_824,
            Setting::Workers => 8,
            Setting::Turns => 1_000_000,
            Setting::Rows => 500_000,
            Setting::Seed => 4_294_967_295,
        }
    }

    /// The number where the words do not set it.
    pub fn usual(self) -> u64
        ensures { result ≡ spec.usual_of self }
    {
        match self {
            Setting::Area => 67_108_864,
            Setting::Workers => 1,
            Setting::Turns => 100_000,
            Setting::Rows => 5_000,
            Setting::Seed => 1,
        }
    }
}
