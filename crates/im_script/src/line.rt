use im_syntax::Stmt;

/// A line of a script.
#[derive(Drop)]
pub struct Line {
    /// From 1; every line counts.
    pub number: u64,
    /// The first byte that is not blank, from 1, or 0 where there is none.
    pub first: u64,
    /// The session that the prefix names, or 0 for the background.
    pub who: Option<u32>,
    pub kind: LineKind,
}

/// What a line is.
#[derive(Drop)]
pub enum LineKind {
    /// Blanks alone, or a comment.
    Skip,
    /// The line that ends a prelude.
    Race,
    /// A line longer than the limit, with its length.
    Long(u64),
    /// No statement: the byte at which the line leaves the language, from 1.
    Bad(u64),
    /// A statement of a session.
    Session(u32, Stmt),
    /// A statement of the background.
    Background(Stmt),
    /// There was no memory to read the line.
    NoMemory,
}
