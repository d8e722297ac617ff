ghost use Rattle.std.specs.Prelude.{◌≡◌};

/// For which builds an extent may be chosen, and what holds it back.
#[derive(Clone, Copy)]
pub struct Marks {
    /// Whether it has a unit, has a living build, or waits.
    pub taken: bool,
    /// Whether its unit is to be built anew.
    pub due: bool,
    /// Whether its unit has a stale row, and a build may begin.
    pub stale: bool,
    /// Whether it waits for room in the area.
    pub waits: bool,
}
