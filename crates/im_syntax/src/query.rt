use crate::condition::Cond;
use crate::item::ItemPart;
use im_values::{List, Name};

/// The direction of a key of ORDER BY as it is written. Unsaid means ascending.
#[derive(Clone, Copy)]
pub enum Way {
    Unsaid,
    Asc,
    Desc,
}

/// A key of ORDER BY.
#[derive(Drop)]
pub struct KeyPart {
    pub item: ItemPart,
    pub way: Way,
}

/// What a query answers: each column, or these items.
#[derive(Drop)]
pub enum ListPart {
    Star,
    Items(List<ItemPart>),
}

/// A query. `groups` and `keys` are empty where the clause is not written.
#[derive(Drop)]
pub struct Query {
    pub list: ListPart,
    pub table: Name,
    /// The SCN behind AS OF SCN: at most `LAST_SCN`.
    pub asked: Option<u64>,
    /// The condition behind WHERE.
    pub cond: Option<Cond>,
    /// The columns of GROUP BY.
    pub groups: List<Name>,
    /// The keys of ORDER BY, the first one first.
    pub keys: List<KeyPart>,
}
