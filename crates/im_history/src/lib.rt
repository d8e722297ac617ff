//! The history of a store: the list of all that happened to it, oldest first.
//!
//! Everything else is read from this list. `specs/History.antt` says how: a history is replayed from its oldest entry
//! on. The tables and given row numbers are in `specs/Tables.antt`, the columns that a table had at an SCN in
//! `specs/Columns.antt`, the pending changes and transactions of sessions in `specs/Transactions.antt`, the commits and
//! the SCN in `specs/Commits.antt`, the rows committed at an SCN and the rows that a statement sees in
//! `specs/Rows.antt`, what the last change to each row left in `specs/Last.antt`, the open cursors in
//! `specs/Cursors.antt`, the horizon below which no SCN may be asked for in `specs/Horizon.antt`, and which histories a
//! store may have in `specs/Legal.antt`. `proofs/Laws.antt` has the law of each for one more entry.
//!
//! Contracts see a [`History`] as its entries and its spare room. [`History::append`] adds one entry at the end.
//! Start with `entry.rt`.
#![tactic(auto)]

mod change;
mod changes;
mod cursors;
mod entry;
mod fetched;
mod horizon;
mod last;
mod limits;
mod look;
mod member;
mod own;
mod places;
mod refused;
mod shape;
mod shown;
mod stored;
mod task;
mod unit;
mod view;
mod who;

pub use change::Change;
pub use changes::{Changes, LentChange, LentPut};
pub use cursors::{OWN_CURSOR, is_own};
pub use entry::{Entry, Mode, What};
pub use fetched::{Fetched, Piece, lent_values};
pub use horizon::nobody_reads_below_the_horizon;
pub use im_values::Priority;
pub use last::LastRows;
pub use limits::Limits;
pub use look::{Catalog, Look, SharedTable, TableInfo};
pub use member::{AllChanges, Member};
pub use own::OwnChanges;
pub use refused::{Refused, Why};
pub use shape::Shape;
pub use shown::{LentRow, Lying, ShownRows, wide_values};
pub use stored::History;
pub use task::{Choice, Held, Task};
pub use unit::UnitLike;
pub use view::{Opening, View};
pub use who::{Who, callers_have_numbers};
