//! The answer of a query, from the parts that lists of rows give.
//!
//! A [`Partial`] is what some rows give to a query: the kept rows, or, where the query is grouped, what each group has
//! taken of its rows: their number, and one summary for each column that an aggregate goes over. Contracts see it as
//! `Parts`, in `specs/Partials.antt`: groups are a map from the values in the columns of GROUP BY, in SQL's order with
//! NULL last. Parts of rows that follow each other are merged into the part of them all, and [`Partial::finish`] makes the answer of it: one record for each row or group, in the order that
//! ORDER BY asks for. `answer`, in `specs/Answers.antt`, is that answer as a function of the list of all rows.
//!
//! The part of a grouped query does not depend on the order of its rows ([`groups_have_no_order`]), and may be made of its groups
//! or of their counts, without a row ([`Partial::of_groups`], [`Partial::of_counts`]).
//!
//! Start with `specs/Sums.antt`, `specs/Tallies.antt`, `specs/Partials.antt` and `specs/Answers.antt`, then `partial.rt`.
#![tactic(auto)]

mod asked;
mod asking;
mod cell;
mod chosen;
mod counted;
mod grouping;
mod hints;
mod made_groups;
mod near;
mod order_free;
mod partial;
mod places;
mod record;
mod records;
mod row_value;
mod same;
mod sums;
mod tallies;

pub use asked::Asked;
pub use asking::Asking;
pub use cell::Cell;
pub use counted::Counted;
pub use grouping::keeps;
pub use made_groups::Group;
pub use order_free::groups_have_no_order;
pub use partial::Partial;
pub use sums::Sums;
