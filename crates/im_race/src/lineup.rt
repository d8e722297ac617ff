// A race before its jobs are done.
ghost use Rattle.std.specs.Prelude.{◌≡◌, ◌+◌, ◌≤◌, IfOk, length};
ghost use Rattle.im_play.specs.Between.{AreSessions, AreThere};
ghost use Rattle.im_play.specs.Requests.{script_limits};
ghost use Rattle.im_race.specs.inner.SettingUp.{IsLineup};

use crate::course::RaceOptions;
use crate::job::Job;
use crate::jobs::{add_workers, session_jobs};
use im_reach::{Reach, Sole};
use im_script::Line;
use im_session::Session;
use im_store::{Pass, Store};
use im_unit::ColumnUnit;
use im_values::NoMemory;
use im_values::limits::{SESSIONS, WORKERS};
use std::alloc::Global;

/// A race that is set up.
pub struct Lineup {
    pub store: Store<ColumnUnit>,
    /// The pass that all others are joined to.
    pub first: Pass<ColumnUnit>,
    /// Those of the sessions by rising numbers, and then those of the workers.
    pub jobs: Vec<Job>,
    /// How many of them are a session's.
    pub sessions: u32,
}

/// Sets a race up, over a store that the prelude left.
pub fn set_up(
    alloc: Global,
    options: RaceOptions,
    store: Sole<ColumnUnit>,
    sessions: Vec<Session>,
    lines: &[Line],
) -> Result<Lineup, NoMemory>
    requires limits { (⟦<Sole<ColumnUnit> as Reach<ColumnUnit>>⟧.known store).limits ≡ script_limits options.area }
    requires workers { options.workers ≤ WORKERS }
    requires count { length sessions.items ≡ SESSIONS + 1 }
    requires agree { AreSessions 0 sessions.items (⟦<Sole<ColumnUnit> as Reach<ColumnUnit>>⟧.known store) }
    requires there { AreThere (⟦<Sole<ColumnUnit> as Reach<ColumnUnit>>⟧.known store).log }
    ensures { IfOk result (λ lineup. IsLineup options.area options.workers sessions.items
        (⟦<Sole<ColumnUnit> as Reach<ColumnUnit>>⟧.known store).log lines.now lineup) }
{
    let core = store.into_core();
    core.known();
    let Ok((store, mut first)) = Store::new(alloc, core) else {
        return Err(NoMemory);
    };
    let mut jobs = session_jobs(alloc, &store, &mut first, sessions, lines)?;
    let sessions = jobs.len() as u32;
    add_workers(&store, &mut first, &mut jobs, options.workers)?;
    Ok(Lineup {
        store,
        first,
        jobs,
        sessions,
    })
}
