ghost use Rattle.std.specs.Prelude.{◌≡◌};
ghost use Rattle.im_parse.specs.inner.Marks.{keyword as of_keyword};
ghost use Rattle.im_parse.specs.inner.Statements as statements;

use im_syntax::{Keyword, Side, Token};

/// Whose statements a keyword begins.
fn side_of(keyword: Keyword) -> Option<Side>
    ensures { result ≡ statements.side_by (of_keyword keyword) }
{
    match keyword {
        Keyword::Select
        | Keyword::Explain
        | Keyword::Create
        | Keyword::Alter
        | Keyword::Insert
        | Keyword::Update
        | Keyword::Delete
        | Keyword::Set
        | Keyword::Commit
        | Keyword::Rollback
        | Keyword::Open
        | Keyword::Step
        | Keyword::Fetch
        | Keyword::Close => Some(Side::Session),
        Keyword::Run
        | Keyword::Begin
        | Keyword::Switch
        | Keyword::Cancel
        | Keyword::Trickle
        | Keyword::Evict
        | Keyword::Purge => Some(Side::Background),
        _ => None,
    }
}

/// Whether a token begins a statement of this side.
fn begins_side(token: &Token, side: Side) -> bool
    ensures { result ≡ statements.begins_side side token.now }
{
    match token {
        Token::Keyword(keyword) => side_of(*keyword) == Some(side),
        _ => false,
    }
}

/// Whether the tokens begin as statements of a side do.
pub fn begins(tokens: &[Token], side: Side) -> bool
    ensures { result ≡ statements.begins_of side tokens.now }
{
    match tokens {
        [first, ..] => begins_side(first, side),
        [] => false,
    }
}
