//! Tokens to statements, with the exact place of an error.
//!
//! [`parse`] gives a statement exactly where the tokens are its spelling. Else it answers how many tokens the longest
//! prefix has that begins some statement. [`parse_for`] promises the same of the statements of one side, a session's or
//! the background's. Neither contract knows how reading goes: they speak of `spelling` and `IsStmt` alone
//! (`specs/Parsing.antt`), and the readers are an inner matter. That each reader reads its part of the language is
//! proved by the laws of `im_readers`, in `proofs/`; that two statements of one spelling are one follows, and
//! [`one_spelling`] says so. NOT and parentheses nested too deep are refused at their token, with no more stack.
//!
//! Start with `parsing.rt` and `specs/Parsing.antt`, then `specs/inner/Statements.antt` and `proofs/StatementLaws.antt`.
#![tactic(auto)]

mod beginnings;
mod column_tests;
mod conditions;
mod laws;
mod marks;
mod parsing;
mod queries;
mod rows;
mod statements;
mod tables;
mod transactions;
mod values;

pub use laws::one_spelling;
pub use parsing::{ParseFault, parse, parse_for};
