ghost use Rattle.std.specs.Prelude.{◌≡◌, ◌≤◌, ◌⊎◌, IfOk, IfErr, OnOk, OnErr, IsErrOf};
ghost use Rattle.im_edge.specs.Faults.{Rose};
ghost use Rattle.im_edge.specs.Reading.{KeepsLimit};
ghost use Rattle.im_edge.specs.Source.{IsSpent};
ghost use Rattle.im_script.specs.Generated.{generated};
ghost use Rattle.im_shell.specs.Play.{IsRaced, IsTextOf, OfScript, Writes, WritesPart};
ghost use Rattle.im_words.specs.Asked.{IsInRange};

use crate::play::play_script;
use crate::report::write_report;
use crate::shown::Shown;
use crate::writing::Stop;
use im_edge::{Gate, Outside, ReadError, Sink, Source, read_all};
use im_race::{RaceOptions, race};
use im_script::generate;
use im_values::limits::{MOST_SCRIPT_BYTES, WORKERS};
use im_values::{NoMemory, Steps};
use im_words::{Asked, Mode};
use std::alloc::Global;
use std::sync::Wait;
use std::sync::ledger::Ledger;
use std::thread::Threads;

/// Makes the script that the words ask for.
fn made_script(alloc: Global, asked: Asked) -> Result<Vec<u8>, ReadError>
    requires ranges { IsInRange asked }
    ensures script { IfOk result (λ script. script.items ≡ generated asked.seed asked.rows) }
    ensures err { IfErr result (λ error. error ≡ ReadError.NoMemory) }
{
    match generate(alloc, asked.seed, asked.rows as u32) {
        Ok(script) => Ok(script),
        Err(NoMemory) => Err(ReadError::NoMemory),
    }
}

/// The script that the words ask for: a mode makes it, or reads the source to its end.
pub fn script_for<S: Source>(
    alloc: Global,
    asked: Asked,
    source: &mut S,
) -> Result<Vec<u8>, ReadError>
    requires ranges { IsInRange asked }
    ensures script { IfOk result (λ script. OfScript asked.mode asked (S.left source.old) (λ bytes. bytes ≡ script.items)) }
    ensures end { OnOk result (¬ (asked.mode ≡ Mode.Gen) → IsSpent (S.left source.new)) }
    ensures unread { asked.mode ≡ Mode.Gen → source.new ≡ source.old }
    ensures limit { KeepsLimit MOST_SCRIPT_BYTES result (S.left source.old) (S.left source.new) }
    ensures fault { IsErrOf result ReadError.Fault → Rose (S.faults source.old) (S.faults source.new) }
    ensures later { S.faults source.old ≤ S.faults source.new }
{
    match asked.mode {
        Mode::Gen => made_script(alloc, asked),
        Mode::Run | Mode::Race => read_all(alloc, source, MOST_SCRIPT_BYTES),
    }
}

/// Plays a script as a race, and writes its report.
fn race_script<R: Threads + Wait + Sync, G: Gate + Sync, K: Sink, L: Ledger>(
    outside: &Outside<R, G>,
    asked: Asked,
    script: &[u8],
    sink: &mut K,
    steps: &mut Steps<L>,
) -> Result<(), Stop>
    requires workers { asked.workers ≤ WORKERS }
    ensures ok { OnOk result (Writes (IsRaced asked.area asked.workers asked.turns script.now) (K.taken sink.old) (K.taken sink.new)) }
    ensures err { OnErr result ((sink.new ≡ sink.old)
        ⊎ WritesPart (IsRaced asked.area asked.workers asked.turns script.now) (K.taken sink.old) (K.taken sink.new)) }
    ensures cause { IsErrOf result Stop.WriteFault → Rose (K.faults sink.old) (K.faults sink.new) }
    ensures later { K.faults sink.old ≤ K.faults sink.new }
{
    let options = RaceOptions {
        area: asked.area,
        workers: asked.workers,
        turns: asked.turns,
    };
    let report = race(outside, options, script, steps)?;
    let written = write_report(outside.alloc, &report, sink, steps);
    drop(report);
    written
}

/// Plays a script as the words ask, and writes what comes of it.
pub fn play_for<R: Threads + Wait + Sync, G: Gate + Sync, K: Sink, L: Ledger>(
    outside: &Outside<R, G>,
    asked: Asked,
    script: &[u8],
    sink: &mut K,
    steps: &mut Steps<L>,
) -> Result<(), Stop>
    requires ranges { IsInRange asked }
    ensures ok { OnOk result (Writes (IsTextOf asked.mode asked script.now steps.old steps.new) (K.taken sink.old) (K.taken sink.new)) }
    ensures err { OnErr result (((asked.mode ≡ Mode.Race) × (sink.new ≡ sink.old))
        ⊎ WritesPart (IsTextOf asked.mode asked script.now steps.old steps.new) (K.taken sink.old) (K.taken sink.new)) }
    ensures cause { IsErrOf result Stop.WriteFault → Rose (K.faults sink.old) (K.faults sink.new) }
    ensures later { K.faults sink.old ≤ K.faults sink.new }
{
    let area = asked.area;
    match asked.mode {
        Mode::Run => play_script(outside, Shown::All, area, script, sink, steps),
        Mode::Gen => play_script(outside, Shown::Outcomes, area, script, sink, steps),
        Mode::Race => race_script(outside, asked, script, sink, steps),
    }
}
