use im_edge::Outside;

/// What a session plays its statements with.
#[derive(Drop)]
pub struct Context<'a, R, G> {
    /// What it has of the outside.
    pub outside: &'a Outside<'a, R, G>,
    /// The number of the session.
    pub who: u32,
}
