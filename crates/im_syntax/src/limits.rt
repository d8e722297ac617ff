//! The limits of what is written. Those of what is stored are cited from `im_values`.

ghost use Rattle.std.specs.Prelude.{◌≡◌};

/// The most bytes that a column of texts may be declared for.
pub const MOST_TEXT_BYTES: u32 = 255;

/// Cursors are numbered from 1 to this.
pub const LAST_CURSOR: u32 = 999;

/// The most credits that one statement gives.
pub const MOST_CREDITS: u32 = 1_000_000;

/// Extents are numbered from 0 to this where they are written.
pub const LAST_EXTENT: u64 = 4_294_967_295;

/// SCNs are numbered from 0 to this where they are written.
pub const LAST_SCN: u64 = 9_223_372_036_854_775_807;

/// The limits by their numbers: what code and definitions cite by name is said here once, and nothing is done.
pub fn limits_are()
    ensures most_text_bytes { MOST_TEXT_BYTES ≡ 255 }
    ensures last_cursor { LAST_CURSOR ≡ 999 }
    ensures most_credits { MOST_CREDITS ≡ 1000000 }
    ensures last_extent { LAST_EXTENT ≡ 4294967295 }
    ensures last_scn { LAST_SCN ≡ 9223372036854775807 }
{}
