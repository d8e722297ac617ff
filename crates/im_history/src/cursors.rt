ghost use Rattle.std.specs.Prelude.{◌≡◌};
ghost use Rattle.im_history.specs.Cursors as spec;

/// The cursor of a statement's own scan.
pub const OWN_CURSOR: u32 = 0;

/// Whether statements open the cursor of this number by themselves. Such cursors do not count among those that a session may have
/// open.
pub fn is_own(cursor: u32) -> bool
    ensures { result ≡ spec.is_own cursor }
{
    cursor == OWN_CURSOR
}
