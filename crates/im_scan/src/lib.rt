//! The parts of a scan, extent by extent.
//!
//! A scan pins an extent, and [`part`] answers what its rows give to the query: from the column unit that was lent, from what
//! was fetched beside it, and from the session's own changes. Contracts say which row it takes at each row number
//! (`specs/Parts.antt`), and the main promise is that for every history these are exactly the rows that the view sees in the
//! extent, where the extent was pinned as `specs/Pinned.antt` says. [`parts_are_one_answer`] is the law that the parts of all
//! extents, merged, are the part of all rows that the view sees. [`face`] is what is read of the unit, and [`how`] what the
//! reply reports of it.
//!
//! What replies say is `im_replies`, and its types stand here too.
//!
//! Start with `parts.rt`, then `in_place.rt`, `kept.rt`, `beside.rt`, `by_columns.rt` and `walking.rt`.
#![tactic(auto)]

mod beside;
mod by_code;
mod by_columns;
mod every_row;
mod faces;
mod in_place;
mod in_range;
mod kept;
mod laws;
mod left;
mod overlaid;
mod own;
mod parts;
mod pieces;
mod pinned;
mod slots;
mod summed;
mod summed_run;
mod walking;

pub use faces::Face;
pub use im_replies::{Body, Built, Ending, Fault, How, Records, Reply, Served};
pub use laws::parts_are_one_answer;
pub use parts::part;
pub use pinned::{face, how};
