use crate::keyword::Keyword;
use im_values::Name;

/// A sign of the language. `!=` is [`Sign::Ne`], as `<>` is.
#[derive(Clone, Copy)]
pub enum Sign {
    LeftParen,
    RightParen,
    Comma,
    Star,
    Eq,
    Lt,
    Le,
    Gt,
    Ge,
    Ne,
}

/// The smallest part of a line that has a meaning.
#[derive(Drop)]
pub enum Token {
    /// A word that the language keeps for itself.
    Keyword(Keyword),
    /// Any other word, in capitals: the name of a table or a column.
    Word(Name),
    /// A whole number of 64 bits.
    Int(i64),
    /// The bytes of a text, without its quotes.
    Text(Name),
    Sign(Sign),
}
