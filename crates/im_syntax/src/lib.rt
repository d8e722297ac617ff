//! Tokens, statements, and the one spelling of each statement.
//!
//! A [`Stmt`] keeps each optional part as written or absent, so it has one list of tokens: `spelling`, in
//! `specs/Spelling.antt`, which `im_spell` computes. `IsStmt`, in `specs/Rules.antt`, says which values are statements:
//! what names, numbers and lists must be, and how deep a condition nests. Contracts see lists as lists and a
//! condition as a tree (`specs/Condition.antt`), so two of them are equal in a contract exactly where they are written
//! alike. One tree of conditions serves those that are written, a [`Cond`], and those whose names are resolved, a
//! [`Filter`], and so does one item: an [`ItemPart`] and an [`Item`]. The words that the language keeps for itself are the [`Keyword`]s; [`is_name`] tests what else a word may be.
//!
//! Start with `statement.rt`, then `specs/Rules.antt` and `specs/Spelling.antt`.
#![tactic(auto)]

mod bound;
mod choices;
mod condition;
mod even;
mod item;
mod keyword;
pub mod limits;
mod literal;
mod query;
mod statement;
mod table;
mod token;
mod tuples;
mod word;

pub use bound::{Bound, Key};
pub use choices::Choices;
pub use condition::{
    Cond, CondOf, Conj, ConjOf, Filter, FormOf, Term, TermForm, TermOf, Test, TestForm, Tests,
};
pub use even::EvenTuples;
pub use im_values::Priority as Level;
pub use item::{Function, Item, ItemOf, ItemPart};
pub use keyword::{Keyword, keywords_are};
pub use literal::Lit;
pub use query::{KeyPart, ListPart, Query, Way};
pub use statement::{Side, Stmt};
pub use table::{ColumnPart, KindWord, MemoryPart};
pub use token::{Sign, Token};
pub use tuples::{Tuples, TuplesForm};
pub use word::{is_name, is_word, is_word_byte};
