ghost use Rattle.std.specs.Prelude.{◌≡◌};
ghost use Rattle.im_shell.specs.Texts as spec;

use im_replies::Body;

/// Which replies are written: all of a script that is read, and the outcomes of one that is made.
#[derive(Clone, Copy)]
pub enum Shown {
    /// Every reply.
    All,
    /// Answers to queries, and what says that a line was refused.
    Outcomes,
}

impl Shown {
    /// Whether a reply is written.
    pub fn shows(self, body: &Body) -> bool
        ensures { result ≡ spec.is_shown self body.now }
    {
        match self {
            Shown::All => true,
            Shown::Outcomes => matches!(body, Body::Answer { .. } | Body::Error(_)),
        }
    }
}
