use im_values::Name;

/// A value as it is written. A text of length zero is written so, and means NULL.
#[derive(Drop)]
pub enum Lit {
    Null,
    Int(i64),
    Text(Name),
}
