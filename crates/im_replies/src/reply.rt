ghost use Rattle.std.specs.Prelude.{◌≡◌, [], Some, None};
ghost use Rattle.im_replies.specs.declared.body.Body.TheVariants.{Error};

use crate::body::Body;
use crate::fault::Fault;
use crate::served::Served;
use im_values::List;
use std::alloc::Global;

/// The reply to a line.
#[derive(Drop)]
pub struct Reply {
    /// How many entries the history had when the reply was settled. None where that says nothing: for a line that was not
    /// played, for one of the background, and for out of memory.
    pub place: Option<u64>,
    /// One mark for each extent that was served, in the order of serving.
    pub marks: List<Served>,
    /// What is said.
    pub body: Body,
}

impl Reply {
    /// The reply that was settled at this place, of a line that no extent was served. It takes no memory.
    pub fn settled(alloc: Global, place: u64, body: Body) -> Reply
        ensures { result ≡ record { place = Some place; marks = []; body = body } }
    {
        Reply {
            place: Some(place),
            marks: List::of(Vec::new(alloc)),
            body,
        }
    }

    /// The reply of a line that is refused before anything is looked up. It takes no memory.
    pub fn refusal(alloc: Global, fault: Fault) -> Reply
        ensures { result ≡ record { place = None; marks = []; body = Error fault } }
    {
        Reply::plain(alloc, Body::Error(fault))
    }

    /// The reply that is settled at no place, of a line that no extent was served. It takes no memory.
    pub fn plain(alloc: Global, body: Body) -> Reply
        ensures { result ≡ record { place = None; marks = []; body = body } }
    {
        Reply {
            place: None,
            marks: List::of(Vec::new(alloc)),
            body,
        }
    }
}
