ghost use Rattle.std.specs.Prelude.{◌≡◌};
ghost use Rattle.im_syntax.specs.Functions as functions;

use crate::keyword::Keyword;
use im_values::Name;

/// What an aggregate answers of the values of a column. Each passes over NULL.
#[derive(Clone, Copy)]
pub enum Function {
    Count,
    Sum,
    Min,
    Max,
}

/// One column of an answer, over columns `C`.
#[derive(Clone, Copy, Drop)]
pub enum ItemOf<C> {
    Column(C),
    /// `COUNT(*)`, which counts rows.
    CountAll,
    Aggregate(Function, C),
}

/// An item as it is written: over names of columns.
pub type ItemPart = ItemOf<Name>;

/// An item whose names are resolved: over numbers of columns.
pub type Item = ItemOf<u32>;

impl Function {
    /// The keyword that it is written by.
    pub fn keyword(self) -> Keyword
        ensures { result ≡ functions.keyword_of self }
    {
        match self {
            Function::Count => Keyword::Count,
            Function::Sum => Keyword::Sum,
            Function::Min => Keyword::Min,
            Function::Max => Keyword::Max,
        }
    }

    /// The function that is written by a keyword.
    pub fn of(keyword: Keyword) -> Option<Function>
        ensures { result ≡ functions.function_of keyword }
    {
        match keyword {
            Keyword::Count => Some(Function::Count),
            Keyword::Sum => Some(Function::Sum),
            Keyword::Min => Some(Function::Min),
            Keyword::Max => Some(Function::Max),
            _ => None,
        }
    }

    /// Whether it adds values up, and so goes over no texts.
    pub fn adds(self) -> bool
        ensures { result ≡ functions.adds self }
    {
        matches!(self, Function::Sum)
    }
}

impl<C> ItemOf<C> {
    /// Whether the item is an aggregate, and not a plain column.
    pub fn is_aggregate(&self) -> bool
        ensures { result ≡ functions.is_aggregate self.now }
    {
        !matches!(self, ItemOf::Column(_))
    }
}
