use crate::replies::Replies;
use im_session::Session;
use im_store::Pass;
use im_unit::ColumnUnit;
use im_values::limits::SESSIONS;
use im_worker::Ended;

/// The number of the first worker.
pub const FIRST_WORKER: u32 = SESSIONS + 1;

/// Who does a job.
#[derive(Drop)]
pub enum Player {
    /// A session, which plays its lines and ends.
    Session(Session),
    /// A worker.
    Worker,
}

/// A job.
#[derive(Drop)]
pub struct Job {
    pub who: u32,
    pub pass: Pass<ColumnUnit>,
    pub player: Player,
}

/// What came of a job.
#[derive(Drop)]
pub enum JobOutcome {
    /// The replies to a session's lines, in order.
    Replies(Replies),
    /// How a worker ended.
    Ended(Ended),
    /// A session was out of memory, and did not leave.
    NoMemory,
}

/// A job that was done.
#[derive(Drop)]
pub struct Done {
    pub who: u32,
    pub pass: Pass<ColumnUnit>,
    pub outcome: JobOutcome,
}

/// A job that waits to be done, and then what came of it.
#[derive(Drop)]
pub struct Post {
    pub job: Option<Job>,
    pub done: Option<Done>,
}
