//! What no clause shows of the parts that a store is made of: that their calls succeed when memory is there, and at the second
//! try where it was not, what packed codes and dictionaries are, in which form a column is kept, that a unit gives back the rows
//! that it was made of, that one built anew is as one built of its rows, and that threads which hand on one value all end.
//!
//! Nothing here is for callers. Each file tests the crate that it is named after, by public calls alone, and `values` makes the
//! values of a table of cases.
#![tactic(auto)]

#[cfg(test)]
mod bits;
#[cfg(test)]
mod codes;
#[cfg(test)]
mod column;
#[cfg(test)]
mod journal;
#[cfg(test)]
mod turn;
#[cfg(test)]
mod unit;
#[cfg(test)]
mod values;
#[cfg(test)]
mod versions;
