// The jobs of a race, before they are done.
ghost use Rattle.std.specs.Prelude.{◌≡◌, ◌+◌, ◌<◌, ◌≤◌, [], ◌∷◌, ◌++◌, All, IfOk, OnOk, length, map};
ghost use Rattle.im_race.specs.inner.SettingUp as spec;

use crate::job::{FIRST_WORKER, Job, Player};
use crate::lines::has_job;
use im_script::Line;
use im_session::Session;
use im_store::{Pass, Store};
use im_unit::ColumnUnit;
use im_values::NoMemory;
use im_values::limits::{NUMBERS, SESSIONS, WORKERS};
use std::alloc::Global;

/// Adds the job of a session, where it speaks in one of these lines.
fn add_session(
    store: &Store<ColumnUnit>,
    first: &mut Pass<ColumnUnit>,
    jobs: &mut Vec<Job>,
    who: u32,
    session: Session,
    lines: &[Line],
) -> Result<(), NoMemory>
    requires store { first.old.turn ≡ store.now.id }
    requires first { first.old.who ≡ 0 }
    requires number { who < NUMBERS }
    requires given { All (λ number. number < who) first.old.gave }
    requires pass { first.old.gave ≡ map (λ job. job.who) jobs.old.items }
    ensures jobs { OnOk result (jobs.new.items ≡ jobs.old.items ++ spec.one_job first.old lines.now who session) }
    ensures pass { OnOk result (first.new ≡ record first.old { gave = map (λ job. job.who) jobs.new.items }) }
    ensures given { OnOk result (All (λ number. number < who + 1) first.new.gave) }
{
    if who == 0 || !has_job(who, lines) {
        return Ok(());
    }
    jobs.push(Job {
        who,
        pass: store.split(first, who),
        player: Player::Session(session),
    })?;
    Ok(())
}

/// The jobs of the sessions that speak in one of these lines.
pub fn session_jobs(
    alloc: Global,
    store: &Store<ColumnUnit>,
    first: &mut Pass<ColumnUnit>,
    sessions: Vec<Session>,
    lines: &[Line],
) -> Result<Vec<Job>, NoMemory>
    requires store { first.old.turn ≡ store.now.id }
    requires first { first.old.who ≡ 0 }
    requires none_given { first.old.gave ≡ [] }
    requires count { length sessions.items ≡ SESSIONS + 1 }
    ensures jobs { IfOk result (λ jobs. jobs.items ≡ spec.session_jobs first.old lines.now 0 sessions.items) }
    ensures pass { IfOk result (λ jobs. first.new ≡ record first.old { gave = map (λ job. job.who) jobs.items }) }
    ensures given { IfOk result (λ jobs. All (λ who. who < FIRST_WORKER) first.new.gave) }
{
    let mut jobs = Vec::new(alloc);
    let mut who = 0;
    for session in sessions {
        add_session(store, first, &mut jobs, who, session, lines)?;
        who += 1;
    }
    Ok(jobs)
}

/// Adds the job of a worker.
fn add_worker(
    store: &Store<ColumnUnit>,
    first: &mut Pass<ColumnUnit>,
    jobs: &mut Vec<Job>,
    who: u32,
) -> Result<(), NoMemory>
    requires store { first.old.turn ≡ store.now.id }
    requires first { first.old.who ≡ 0 }
    requires some { 1 ≤ who }
    requires number { who < NUMBERS }
    requires given { All (λ number. number < who) first.old.gave }
    requires pass { first.old.gave ≡ map (λ job. job.who) jobs.old.items }
    ensures jobs { OnOk result (jobs.new.items ≡ jobs.old.items ++ spec.worker_of first.old who ∷ []) }
    ensures pass { OnOk result (first.new ≡ record first.old { gave = map (λ job. job.who) jobs.new.items }) }
    ensures given { OnOk result (All (λ number. number < who + 1) first.new.gave) }
{
    jobs.push(Job {
        who,
        pass: store.split(first, who),
        player: Player::Worker,
    })?;
    Ok(())
}

/// Adds the jobs of so many workers.
pub fn add_workers(
    store: &Store<ColumnUnit>,
    first: &mut Pass<ColumnUnit>,
    jobs: &mut Vec<Job>,
    workers: u32,
) -> Result<(), NoMemory>
    requires store { first.old.turn ≡ store.now.id }
    requires first { first.old.who ≡ 0 }
    requires given { All (λ who. who < FIRST_WORKER) first.old.gave }
    requires workers { workers ≤ WORKERS }
    requires pass { first.old.gave ≡ map (λ job. job.who) jobs.old.items }
    ensures jobs { OnOk result (jobs.new.items ≡ jobs.old.items ++ spec.worker_jobs first.old FIRST_WORKER workers) }
    ensures pass { OnOk result (first.new ≡ record first.old { gave = map (λ job. job.who) jobs.new.items }) }
{
    for worker in 0..workers {
        add_worker(store, first, jobs, FIRST_WORKER + worker)?;
    }
    Ok(())
}
