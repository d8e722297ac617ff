/// The form of a line, before its statement is read.
#[derive(Clone, Copy)]
pub enum Form {
    Long,
    Skip,
    Race,
    /// A line without a prefix.
    Bare,
    /// A session, and how many bytes stand before its statement.
    Session(u32, usize),
    /// How many bytes stand before a statement of the background.
    Background(usize),
}
