ghost use Rattle.std.specs.Prelude.{◌≡◌};
ghost use Rattle.im_words.specs.Asked as spec;

/// What the program does.
#[derive(Clone, Copy, Debug, PartialEq, Eq)]
pub enum Mode {
    /// It plays the script of its standard input.
    Run,
    /// It plays the lines behind the prelude of that script by sessions and workers beside each other, and shows what they did.
    Race,
    /// It plays a large script that it makes itself.
    Gen,
}

/// The names of the modes, one for each variant of [`Mode`]. `clap` refuses every other.
pub(crate) static NAMES: [&str; 3] = ["run", "race", "gen"];

impl Mode {
    /// The mode of a name among [`NAMES`]. Each further mode has an arm of its own above the last.
    pub(crate) fn called(name: &str) -> Mode
        ensures { result ≡ spec.mode_called name.now }
    {
        match name {
            "race" => Mode::Race,
            "gen" => Mode::Gen,
            // Among the names this is `run`.
            _ => Mode::Run,
        }
    }
}
