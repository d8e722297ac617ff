/// A field of a record whose fields are not of one kind.
#[derive(Clone, Copy)]
pub enum Field<'a> {
    Word(&'a str),
    Number(u64),
    Credits(u128),
}
