//! The statements of the background, played over a store that several may share.
//!
//! A statement goes by its plan (`im_statements`): each call of the store is one turn of it, and others may come between two
//! calls. The background holds the builds that BEGIN began, each with its unit ready, the oldest first; RUN begins and ends
//! builds until none is left.
//!
//! [`Background::command`] plays one statement: it goes by its plan, or runs out of memory on the way and is amended, and the
//! builds that are held agree with the history before and after (`specs/Background.antt`).
//!
//! [`Background::work`] is the job of a worker, which builds beside sessions until they have left (`specs/Work.antt`). What its clauses
//! say of the history that the worker knew holds of any that others went on to: [`a_worker_is_judged_by_the_whole_history`].
//!
//! Start with `background.rt`, then `building.rt`, which makes one unit ready, `running.rt` and `work.rt`.
#![tactic(auto)]

mod background;
mod building;
mod ending;
mod held;
mod laws;
mod replies;
mod rows;
mod running;
mod statements;
mod work;

pub use background::Background;
pub use laws::a_worker_is_judged_by_the_whole_history;
pub use work::Ended;
