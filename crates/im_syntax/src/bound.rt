use crate::condition::Filter;
use crate::item::Item;
use im_values::List;

/// A key of ORDER BY.
#[derive(Clone, Copy)]
pub struct Key {
    pub item: Item,
    pub descending: bool,
}

/// A query whose names are numbers: of its table, and of the table's columns.
///
/// `groups` and `keys` are empty where the query has no GROUP BY or ORDER BY. `grouped` says that it has a GROUP BY, or
/// an aggregate among its items or keys.
#[derive(Drop)]
pub struct Bound {
    pub table: u32,
    /// The SCN that the query names. It is answered as of its session's snapshot where it names none.
    pub asked: Option<u64>,
    pub filter: Option<Filter>,
    pub items: List<Item>,
    pub groups: List<u32>,
    pub keys: List<Key>,
    pub grouped: bool,
}
