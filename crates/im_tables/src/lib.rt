//! Cells and flags by table and number, which grow unseen; and general laws that several crates need.
//!
//! Contracts see [`Cells`] as the cells of each table in a list by number, and read them through `cell_at` of
//! `specs/Table.antt`, which answers the empty value past the ends. So [`Cells::reserve`], which makes cells up to a
//! number, changes nothing that is read. A cell is found at once.
//!
//! [`Flags`] are cells of `true` and `false`, 64 in a word: the least number of a table whose flag is up, or down
//! (`IsLeast` of `specs/Flags.antt`), is found at once.
//!
//! `proofs/ForCallers.antt` has the laws of cells, `proofs/Lists.antt` the general ones.
//!
//! Start with `specs/Table.antt`, then `cell.rt` and `cells.rt`, then `specs/Flags.antt` and `flags.rt`.
#![tactic(auto)]

mod cell;
mod cells;
mod flag_line;
mod flags;
mod line;

pub use cell::Cell;
pub use cells::Cells;
pub use flags::Flags;
