//! The one list of tokens of each statement, written out.
//!
//! What the tokens of a statement are is `spelling`, in `im_syntax/specs/Spelling.antt`; [`spell`] computes it. Whoever has a
//! statement and wants its text, or wants to see that a reader and the spelling agree, calls it: the program itself only reads.
//!
//! Start with `statement.rt`; `spelled.rt` has what all parts share.
#![tactic(auto)]

mod condition;
mod query;
mod rows;
mod spelled;
mod statement;
mod table;

pub use statement::spell;
