//! Conditions on columns and on runs of rows, and tallies of what they choose, without making a row.
//!
//! A test asks each value of one column for the truth Yes, or, under a NOT, for the truth No ([`Wanted`]); so there is one mask
//! a test, and none for Unknown. [`mask_of`] asks a column in the form that it is kept in: codes by ranges of the dictionary,
//! or for IN by a flag for each of its values, runs once a run, and other values one by one; of a run of rows the values of the
//! column are gone over. [`select`] of columns and [`select_rows`] of a run put the masks of a whole condition together: AND
//! and OR join them, and behind a NOT they change places, so that no mask is turned round.
//!
//! [`tally_of`] of a column and [`tally_rows`] of a column of a run say what the values at the positions of a mask come to: how
//! many there are, their sum, the least and the greatest; [`counts_by_code`] says how many of the positions have each code of a
//! column, and [`tallies_by_code`] what the values of another column come to at those that have it. [`tally_where`] says what a
//! column comes to where a condition of that column alone is true: of codes in a range it makes no mask.
//!
//! Start with `specs/Asked.antt` and `asked.rt`, then `form.rt`, `rows.rt` and `selection.rt`; of tallies with `specs/Tallies.antt`.
#![tactic(auto)]

mod asked;
mod chosen;
mod code_numbers;
mod counts;
mod form;
mod found;
mod found_by_key;
mod gathered;
mod in_range;
mod keyed;
mod numbers;
mod ranged;
mod rows;
mod selection;
mod slab;
mod spans;
mod tally;

pub use asked::{Asked, Wanted, asks};
pub use counts::counts_by_code;
pub use form::mask_of;
pub use in_range::tally_where;
pub use keyed::tallies_by_code;
pub use rows::tally_rows;
pub use selection::{select, select_rows};
pub use tally::{Tally, tally_of};
