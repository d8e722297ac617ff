use im_values::{Name, Priority};

/// The kind of a column as it is written: INTEGER is another word for NUMBER.
#[derive(Clone, Copy)]
pub enum KindWord {
    Number,
    Integer,
    /// A text of at most so many bytes, from 1 to `MOST_TEXT_BYTES`.
    Varchar2(u16),
}

/// A column of a table that is created, or one that a table gets.
#[derive(Drop)]
pub struct ColumnPart {
    pub name: Name,
    pub kind: KindWord,
}

/// An INMEMORY clause as it is written.
#[derive(Clone, Copy)]
pub struct MemoryPart {
    /// MEMCOMPRESS FOR QUERY LOW is written.
    pub compress: bool,
    /// What stands behind PRIORITY, where that is written.
    pub level: Option<Priority>,
}
