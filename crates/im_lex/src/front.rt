use im_syntax::Token;

/// What stands at the front of the bytes of a line.
#[derive(Drop)]
pub enum Front {
    /// Nothing more: the bytes are over, or a comment or the last `;` stands there.
    Stop,
    Blank,
    /// No token begins so, or the token is at fault.
    Bad,
    /// A token, and how many bytes it has behind its first one.
    Lexed(Token, usize),
}

/// What comes next in a text.
#[derive(Clone, Copy)]
pub enum Piece {
    /// Nothing: the text does not end.
    Over,
    /// The closing quote.
    End,
    /// A byte of the text, and how many bytes it takes.
    Byte(u8, usize),
}
