ghost use Rattle.std.specs.Prelude.{◌≡◌};
ghost use Rattle.im_statements.specs.Writes as spec;

use im_replies::Body;
use im_values::{List, Value};

/// What UPDATE or DELETE does to the rows that it keeps.
#[derive(Drop)]
pub enum Rewriting {
    /// Values are assigned to columns, in order.
    Updating(List<(u32, Value)>),
    /// The rows are taken away.
    Deleting,
}

impl Rewriting {
    /// What is answered once so many rows are written to. It takes no memory.
    pub fn written(&self, rows: u64) -> Body
        ensures { result ≡ spec.written self.now rows }
    {
        match self {
            Rewriting::Updating(_) => Body::Updated { rows },
            Rewriting::Deleting => Body::Deleted { rows },
        }
    }
}
