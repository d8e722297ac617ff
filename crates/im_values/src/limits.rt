//! The limits of the engine: each stands here once, and code, definitions and texts cite it from here.

ghost use Rattle.std.specs.Prelude.{◌≡◌};

/// The most tables.
pub const MOST_TABLES: usize = 64;

/// The most columns of a table.
pub const MOST_COLUMNS: usize = 16;

/// The most row numbers in a block, and the most blocks in an extent.
pub const MOST_IN_SHAPE: u32 = 64;

/// The sessions are numbered from 1 to this.
pub const SESSIONS: u32 = 16;

/// The most workers of a race. Their numbers follow those of the sessions.
pub const WORKERS: u32 = 8;

/// The number of whoever sends the commits of a store to a second one. It comes after those of the workers.
pub const SENDER: u32 = 1 + SESSIONS + WORKERS;

/// Whoever calls a store has a number below this: 0 is the background of a script, then come the sessions, the workers and the sender.
pub const NUMBERS: u32 = SENDER + 1;

/// The most cursors that a session has open, beside cursor 0 of its statements' own scans.
pub const MOST_CURSORS: u64 = 8;

/// The most changes of a transaction.
pub const MOST_CHANGES: u64 = 65_536;

/// The most that all changes ever written may weigh.
pub const MOST_WEIGHT: u64 = 536_870_912;

/// What a change weighs beside the row that it puts.
pub const CHANGE_WEIGHT: u64 = 64;

/// What a value of a row that is put weighs beside the bytes of its text.
pub const VALUE_WEIGHT: u64 = 32;

/// The most row numbers that a table can be given, since each is given by a change.
pub const MOST_ROWS: u64 = MOST_WEIGHT / CHANGE_WEIGHT;

/// The most levels of NOT and parentheses in a condition.
pub const MOST_LEVELS: u32 = 64;

/// The most bytes of a word.
pub const MOST_WORD_BYTES: usize = 128;

/// The most bytes of a line without its end.
pub const MOST_LINE_BYTES: usize = 1_048_576;

/// The most bytes of a script.
pub const MOST_SCRIPT_BYTES: usize = 16_777_216;

/// The limits by their numbers: what code and definitions cite by name is said here once, and nothing is done.
pub fn limits_are()
    ensures most_tables { MOST_TABLES ≡ 64 }
    ensures most_columns { MOST_COLUMNS ≡ 16 }
    ensures most_in_shape { MOST_IN_SHAPE ≡ 64 }
    ensures sessions { SESSIONS ≡ 16 }
    ensures workers { WORKERS ≡ 8 }
    ensures sender { SENDER ≡ 25 }
    ensures numbers { NUMBERS ≡ 26 }
    ensures most_cursors { MOST_CURSORS ≡ 8 }
    ensures most_changes { MOST_CHANGES ≡ 65536 }
    ensures most_weight { MOST_WEIGHT ≡ 536870912 }
    ensures change_weight { CHANGE_WEIGHT ≡ 64 }
    ensures value_weight { VALUE_WEIGHT ≡ 32 }
    ensures most_rows { MOST_ROWS ≡ 8388608 }
    ensures most_levels { MOST_LEVELS ≡ 64 }
    ensures most_word_bytes { MOST_WORD_BYTES ≡ 128 }
    ensures most_line_bytes { MOST_LINE_BYTES ≡ 1048576 }
    ensures most_script_bytes { MOST_SCRIPT_BYTES ≡ 16777216 }
{}
