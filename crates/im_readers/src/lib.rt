//! Readers of lists of tokens, for any kind of token, and the law of each way to put them together.
//!
//! A reader is a function from a list of tokens to a value and the tokens behind it, or to the number of tokens that are
//! left where reading stops (`specs/Reading.antt`). Larger readers are made of smaller ones: one behind another, a mark
//! before or behind, an optional part, a choice by the next token, a list. `Reads` (`specs/Grammar.antt`) says that a
//! reader reads a part of a grammar: what it answers is spelled so and good, each good value is read again from its
//! spelling, and where it stops no good value goes on. From `Reads` follow, for the whole of the tokens, that a value is
//! given exactly where they are its spelling, and that the place of an error is the longest prefix that begins one.
//!
//! The code here is the loop of lists, [`list`] and [`list_up_to`], over any [`Part`]. Start with `specs/Reading.antt`,
//! then `specs/Grammar.antt`, then `proofs/Parts.antt`.
#![tactic(auto)]

mod halt;
mod lists;
mod part;

pub use halt::Halt;
pub use lists::{list, list_up_to};
pub use part::Part;
