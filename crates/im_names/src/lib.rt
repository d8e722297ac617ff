//! Names to numbers: what a statement means among the tables of a look, or the first thing that is wrong with it.
//!
//! The model is one function on definitions, `resolution` (`specs/Statements.antt`): for a list of tables and a statement
//! it gives the statement with numbers for its names, or a fault. It lists the checks in their order: the table, the
//! names of columns in the order of the text, the lengths of tuples, the kinds and lengths of values, the grouping.
//! [`resolve`] answers exactly that, or that it is out of memory. What it answers fits the tables (`specs/Fitting.antt`):
//! a query may be asked of every row of its table and is grouped as SQL groups, and rows and values may stand in theirs.
//!
//! That a new table's name is free, that there is room for it, cursors and transactions are not looked at here.
//!
//! Start with `specs/Statements.antt`, then `statements.rt`.
#![tactic(auto)]

mod columns;
mod conditions;
mod definitions;
mod even;
mod fault;
mod literals;
mod queries;
mod resolved;
mod rows;
mod statements;
mod tables;
mod targets;

pub use fault::NameFault;
pub use resolved::Resolved;
pub use statements::resolve;
