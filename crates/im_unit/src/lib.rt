//! The column unit of an extent: the rows that were committed by an SCN, kept in columns to be scanned.
//!
//! Contracts see a [`ColumnUnit`] as `Content` of `im_history`: its SCN, its first row number, its number of columns and,
//! for each row number from the first on, the row or none. A unit is built once and never changed: which of its rows are
//! stale at a later SCN is kept beside it, in its journal.
//!
//! It keeps a bit for each row number, set where the row is present, and a column of the values of those rows for each column
//! of the table, in the form of the least bytes. The main promise is that [`ColumnUnit::build`] keeps exactly the rows that it
//! was given, so that a unit of the rows committed at its SCN answers each scan at that SCN as the versions would.
//!
//! [`ColumnUnit::rebuild`] makes a unit of an old one and the rows that were fetched since (`specs/Rebuilt.antt`). Columns that did
//! not change are shared, and dictionaries that still fit are kept. [`ColumnUnit::widened`] makes one with the columns that its table
//! got since (`specs/Widened.antt`).
//!
//! Start with `unit.rt`, then `specs/Holding.antt` and `specs/inner/Kept.antt`; for `rebuild` go on with `specs/Rebuilt.antt`,
//! `planning.rt` and `rebuilding.rt`.
#![tactic(auto)]

mod building;
mod planning;
mod presence;
mod reading;
mod rebuilding;
mod size;
mod unit;
mod widening;

pub use size::unit_bytes;
pub use unit::ColumnUnit;
