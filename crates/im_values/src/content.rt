use crate::name::Name;

/// What a value is: NULL, a whole number or a text.
///
/// The variants stand in SQL's order of values, NULL last, and that is their derived order. Contracts see a [`Value`](crate::Value) as
/// its content.
#[derive(PartialEq, Eq, PartialOrd, Ord, Hash, Drop)]
pub enum Content {
    Int(i64),
    Text(Name),
    Null,
}
