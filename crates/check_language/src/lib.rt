//! What no clause and no script shows of the language: that a statement is spelled again where memory is there, lists with and
//! without a limit, and the text of scripts that are made; and at which byte a line that names an SCN or purges is wrong.
//!
//! Nothing here is for callers. Each file tests the crate that it is named after, but for `generated`, which tests the scripts
//! that `im_script` makes. Which lines are statements, which are wrong at which byte, and which fault of names is the first, is
//! shown by the scripts of `check_examples`.
#![tactic(auto)]

#[cfg(test)]
mod generated;
#[cfg(test)]
mod inserts;
#[cfg(test)]
mod readers;
#[cfg(test)]
mod script;
#[cfg(test)]
mod syntax;
