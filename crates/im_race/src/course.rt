// The jobs of a race, each done by a side of its own of the store.
ghost use Rattle.std.specs.Prelude.{◌≡◌, ◌<◌, ◌++◌, All, IfOk, IfSome, OnOk, filter_map, map, option_to_list, reverse};
ghost use Rattle.im_play.specs.Lines.{IsKnown};
ghost use Rattle.im_race.specs.inner.Doing.{AreDone, IsDone, IsReady, IsServed, waiting};
ghost use Rattle.im_script.specs.Lines.{NamesOneOf16};

use crate::job::{Done, Job, JobOutcome, Player, Post};
use crate::playing::{play_session, play_worker};
use im_edge::{Gate, Outside};
use im_script::Line;
use im_store::Store;
use im_unit::ColumnUnit;
use im_values::limits::NUMBERS;
use im_values::{NoMemory, Steps};
use std::alloc::Global;
use std::marker::Brand;
use std::sync::Wait;
use std::sync::ledger::{Blank, Ledger};
use std::thread;
use std::thread::Threads;

/// How a race is held.
#[derive(Clone, Copy)]
pub struct RaceOptions {
    /// How many bytes the column units may take together.
    pub area: u64,
    /// How many workers there are, from 0 to 8.
    pub workers: u32,
    /// How many turns each of them has.
    pub turns: u64,
}

impl RaceOptions {
    /// How often a session that is out of memory tries to leave: as often as a worker may look whether it has.
    fn tries(&self) -> u64 {
        if self.workers == 0 { 0 } else { self.turns }
    }
}

/// What is known of a race by all who take part.
#[derive(Clone, Copy)]
pub struct Course<'a> {
    pub options: RaceOptions,
    /// The lines behind the prelude.
    pub lines: &'a [Line],
    /// How many sessions have a job.
    pub sessions: u32,
}

/// Does a job, counting its steps.
fn play_counting<R: Threads + Wait + Sync, G: Gate, L: Ledger>(
    outside: &Outside<R, G>,
    store: &Store<ColumnUnit>,
    course: &Course<'_>,
    job: Job,
    blank: Blank,
) -> Done
    requires ready { IsReady course.now.options.area store.now.id job }
    requires known { All (λ line. IsKnown line.kind) course.now.lines.now }
    requires names { All NamesOneOf16 course.now.lines.now }
    requires name { blank.name ≡ L.name }
    requires parts { blank.parts ≡ L.parts }
    requires some { 0 < blank.parts }
    ensures { IsDone course.now.options.area course.now.options.turns course.now.sessions course.now.lines.now job result }
{
    let Job { who, pass, player } = job;
    let mut steps = Steps::<L>::new(outside.rt, blank);
    let mut side = store.shared(pass);
    let outcome = match player {
        Player::Session(session) => play_session(
            outside,
            &mut side,
            session,
            who,
            course.lines,
            course.options.tries(),
            &mut steps,
        ),
        Player::Worker => JobOutcome::Ended(play_worker(
            outside,
            &mut side,
            who,
            course.options.turns,
            course.sessions,
            &mut steps,
        )),
    };
    Done {
        who,
        pass: side.into_pass(),
        outcome,
    }
}

/// Does a job.
fn play<R: Threads + Wait + Sync, G: Gate>(
    outside: &Outside<R, G>,
    store: &Store<ColumnUnit>,
    course: &Course<'_>,
    job: Job,
) -> Done
    requires ready { IsReady course.now.options.area store.now.id job }
    requires known { All (λ line. IsKnown line.kind) course.now.lines.now }
    requires names { All NamesOneOf16 course.now.lines.now }
    ensures { IsDone course.now.options.area course.now.options.turns course.now.sessions course.now.lines.now job result }
{
    play_counting::<R, G, Brand>(outside, store, course, job, Blank::new(1))
}

/// Does the job that waits at a post.
fn play_at<R: Threads + Wait + Sync, G: Gate>(
    outside: &Outside<R, G>,
    store: &Store<ColumnUnit>,
    course: &Course<'_>,
    post: &mut Post,
)
    requires ready { IfSome post.old.job (IsReady course.now.options.area store.now.id) }
    requires known { All (λ line. IsKnown line.kind) course.now.lines.now }
    requires names { All NamesOneOf16 course.now.lines.now }
    ensures { IsServed course.now.options.area course.now.options.turns course.now.sessions course.now.lines.now post.old post.new }
{
    if let Some(job) = post.job.take() {
        post.done = Some(play(outside, store, course, job));
    }
}

/// A post for each job, the last one first.
fn posts_of(alloc: Global, mut jobs: Vec<Job>) -> Result<Vec<Post>, NoMemory>
    ensures { IfOk result (λ posts. posts.items ≡ map waiting (reverse jobs.items)) }
{
    jobs.reverse();
    let mut posts = Vec::new(alloc);
    for job in jobs {
        posts.push(Post {
            job: Some(job),
            done: None,
        })?;
    }
    Ok(posts)
}

/// Adds what came of the job at a post, if one was done.
fn take_done(all: &mut Vec<Done>, post: Post) -> Result<(), NoMemory>
    ensures { OnOk result (all.new.items ≡ all.old.items ++ option_to_list post.done) }
{
    let Post { job: _, done } = post;
    if let Some(done) = done {
        all.push(done)?;
    }
    Ok(())
}

/// What came of the jobs, that of the last post first.
fn done_at(alloc: Global, mut posts: Vec<Post>) -> Result<Vec<Done>, NoMemory>
    ensures { IfOk result (λ done. done.items ≡ filter_map (λ post. post.done) (reverse posts.items)) }
{
    posts.reverse();
    let mut all = Vec::new(alloc);
    for post in posts {
        take_done(&mut all, post)?;
    }
    Ok(all)
}

/// Does all jobs, each on a thread of its own where one can be made. What came of them stands in their order.
///
/// A job for which no thread can be made is done behind others that stand further on in the list of posts, by the thread that does
/// them. So the posts stand the other way round: no worker is done before a session that it waits for.
pub fn play_all<R: Threads + Wait + Sync, G: Gate + Sync>(
    outside: &Outside<R, G>,
    store: &Store<ColumnUnit>,
    course: &Course<'_>,
    jobs: Vec<Job>,
) -> Result<Vec<Done>, NoMemory>
    requires ready { All (IsReady course.now.options.area store.now.id) jobs.items }
    requires known { All (λ line. IsKnown line.kind) course.now.lines.now }
    requires names { All NamesOneOf16 course.now.lines.now }
    ensures { IfOk result (λ done. AreDone course.now.options.area course.now.options.turns course.now.sessions course.now.lines.now
        jobs.items done.items) }
{
    let mut posts = posts_of(outside.alloc, jobs)?;
    thread::for_each_mut(
        outside.rt,
        posts.as_mut_slice(),
        NUMBERS as usize,
        &|_: usize, post: &mut Post|
            requires ready { IfSome post.now.job (IsReady course.now.options.area store.now.id) }
            requires known { All (λ line. IsKnown line.kind) course.now.lines.now }
            requires names { All NamesOneOf16 course.now.lines.now }
            ensures { IsServed course.entry.now.options.area course.entry.now.options.turns course.entry.now.sessions
                course.entry.now.lines.now post.entry.now post.exit.now }
        { play_at(outside, store, course, post) },
    );
    done_at(outside.alloc, posts)
}
