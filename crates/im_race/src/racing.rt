ghost use Rattle.std.specs.Prelude.{◌≡◌, ◌+◌, ◌≤◌, [], false, All, IfOk, length, map};
ghost use Rattle.im_play.specs.Between.{AreSessions, AreThere};
ghost use Rattle.im_play.specs.Lines.{IsKnown};
ghost use Rattle.im_play.specs.Requests.{script_limits};
ghost use Rattle.im_race.specs.inner.Closing.{IsBeside, IsClosed};
ghost use Rattle.im_race.specs.Race.{IsRace, IsRaceOf};
ghost use Rattle.im_script.specs.Lines.{NamesOneOf16};
ghost use Rattle.im_store.specs.Sides.{who_of};
ghost use Rattle.im_turn.specs.Passes.{KnowsOwn};

use crate::course::{Course, RaceOptions, play_all};
use crate::lines::split_race;
use crate::lineup::{Lineup, set_up};
use crate::report::Report;
use crate::sorting::{answers, sort_outcomes};
use im_edge::{Gate, Outside};
use im_history::History;
use im_play::{Players, empty_store, play_lines};
use im_reach::{Reach, Sole};
use im_replies::Reply;
use im_script::{Line, lines};
use im_session::Session;
use im_store::{Pass, Store};
use im_unit::ColumnUnit;
use im_values::limits::{SESSIONS, WORKERS};
use im_values::{NoMemory, Steps};
use std::sync::Wait;
use std::sync::ledger::Ledger;
use std::thread::Threads;

/// Ends all passes, and hands out the history of the store.
fn close(
    store: Store<ColumnUnit>,
    mut first: Pass<ColumnUnit>,
    passes: Vec<Pass<ColumnUnit>>,
) -> History
    requires store { first.turn ≡ store.id }
    requires first { first.who ≡ 0 }
    requires idle { first.holding ≡ false }
    requires none_joined { first.olds ≡ [] }
    requires passes_store { All (λ pass. pass.turn ≡ store.id) passes.items }
    requires passes_idle { All (λ pass. pass.holding ≡ false) passes.items }
    requires numbers { map (λ pass. pass.who) passes.items ≡ first.gave }
    ensures { IsClosed first passes.items result.entries }
{
    store.join_all(&mut first, passes);
    let core = store.close(first);
    core.known();
    core.into_history()
}

/// Lets sessions and workers play beside each other over a store, and answers what they show.
fn play_beside<R: Threads + Wait + Sync, G: Gate + Sync>(
    outside: &Outside<R, G>,
    options: RaceOptions,
    store: Sole<ColumnUnit>,
    sessions: Vec<Session>,
    prelude: Vec<(u64, Reply)>,
    lines: &[Line],
) -> Result<Report, NoMemory>
    requires limits { (⟦<Sole<ColumnUnit> as Reach<ColumnUnit>>⟧.known store).limits ≡ script_limits options.area }
    requires workers { options.workers ≤ WORKERS }
    requires count { length sessions.items ≡ SESSIONS + 1 }
    requires agree { AreSessions 0 sessions.items (⟦<Sole<ColumnUnit> as Reach<ColumnUnit>>⟧.known store) }
    requires there { AreThere (⟦<Sole<ColumnUnit> as Reach<ColumnUnit>>⟧.known store).log }
    requires known { All (λ line. IsKnown line.kind) lines.now }
    requires names { All NamesOneOf16 lines.now }
    ensures beside { IfOk result (λ report. IsBeside options.area options.workers options.turns sessions.items
        (⟦<Sole<ColumnUnit> as Reach<ColumnUnit>>⟧.known store).log lines.now report) }
    ensures prelude { IfOk result (λ report. report.prelude ≡ prelude.items) }
{
    let Lineup {
        store,
        first,
        jobs,
        sessions,
    } = set_up(outside.alloc, options, store, sessions, lines)?;
    let course = Course {
        options,
        lines,
        sessions,
    };
    let done = play_all(outside, &store, &course, jobs)?;
    let mut outcomes = sort_outcomes(outside.alloc, done)?;
    let answers = answers(outside.alloc, lines, outcomes.replies.as_mut_slice())?;
    Ok(Report {
        prelude,
        history: close(store, first, outcomes.passes),
        ends: outcomes.ends,
        answers,
    })
}

/// Plays the lines of a script as a race.
fn race_lines<R: Threads + Wait + Sync, G: Gate + Sync, L: Ledger>(
    outside: &Outside<R, G>,
    options: RaceOptions,
    lines: &[Line],
    steps: &mut Steps<L>,
) -> Result<Report, NoMemory>
    requires workers { options.workers ≤ WORKERS }
    requires known { All (λ line. IsKnown line.kind) lines.now }
    requires names { All NamesOneOf16 lines.now }
    ensures { IfOk result (λ report. IsRace options.area options.workers options.turns lines.now report) }
{
    let (prelude, behind) = split_race(lines);
    let mut store = empty_store(outside.alloc, options.area)?;
    let mut players = Players::new(outside.alloc)?;
    let replies = play_lines(outside, &mut store, &mut players, prelude, steps)?;
    players.drop_held(outside.rt, &mut store);
    let Players {
        sessions,
        background,
    } = players;
    drop(background);
    play_beside(outside, options, store, sessions, replies, behind)
}

/// Plays a script as a race: the lines of its prelude one after the other, and then those behind it by their sessions, beside workers.
/// The sessions come first, by rising numbers, and then the workers; each of them plays over a side of its own of the store.
///
/// Where no line ends a prelude, all lines are the prelude's, and the workers are alone. It may wait: in the gate, and for the turn of
/// the store. An idle worker sleeps between its turns.
pub fn race<R: Threads + Wait + Sync, G: Gate + Sync, L: Ledger>(
    outside: &Outside<R, G>,
    options: RaceOptions,
    script: &[u8],
    steps: &mut Steps<L>,
) -> Result<Report, NoMemory>
    requires workers { options.workers ≤ WORKERS }
    ensures { IfOk result (λ report. IsRaceOf options.area options.workers options.turns script.now report) }
{
    let lines = lines(outside.alloc, script)?;
    let raced = race_lines(outside, options, lines.as_slice(), steps);
    drop(lines);
    raced
}
