//! Values, rows and schemas: what stands in a table, before there is a table.
//!
//! Contracts see a [`Name`] as its bytes, a [`Row`] as the list of its values and a [`Schema`] as the list of its
//! columns, so two of them are equal exactly where their lists are. [`order`] is SQL's order of values with NULL last,
//! and [`compare`] its three-valued comparison; both are computed from one definition, `specs/Order.antt`.
//! [`Steps`] counts readings for contracts alone.
//!
//! Start with `value.rt`, then `specs/Order.antt`, `specs/Truth.antt` and `specs/Fits.antt`.
#![tactic(auto)]

mod comparison;
mod content;
pub mod limits;
mod list;
mod name;
mod no_memory;
mod priority;
mod row;
mod rows;
mod schema;
mod steps;
mod truth;
mod value;
mod wide;

pub use comparison::{Cmp, compare, order};
pub use content::Content;
pub use list::List;
pub use name::Name;
pub use no_memory::NoMemory;
pub use priority::Priority;
pub use row::{Row, clone_row, copied, rows_of_block};
pub use rows::Rows;
pub use schema::{Column, Kind, Schema, fits};
pub use steps::Steps;
pub use truth::Truth;
pub use value::{Seen, Value};
pub use wide::{RowValues, WideRun, widen};
