//! The bytes of a line to its tokens, or the first bad byte.
//!
//! What stands first in the bytes is said by cases, one for each row of the table of tokens
//! (`specs/Bytes.antt`): a word, a number, a text, a sign, a blank, a bad byte, or the end by a comment or the last `;`.
//! A token takes the most bytes that it can. The tokens of a line are a relation over that (`Lexes`, in
//! `specs/Lexing.antt`), and so is the first bad byte (`IsBadAt`). [`lex`] finds the tokens exactly where the line has some,
//! and else the first bad byte. Where a token stands is asked of bad lines alone, by [`place_of`].
//!
//! Start with `specs/Bytes.antt` and `specs/Lexing.antt`, then `lexing.rt`.
#![tactic(auto)]

mod bytes;
mod front;
mod fronts;
mod inserts;
mod lexing;
mod places;
mod straight;

pub use bytes::{begins_comment, behind, is_blank};
pub use inserts::insert;
pub use lexing::{LexFault, lex, place_of};
