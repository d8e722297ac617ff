ghost use Rattle.std.specs.Prelude.{◌≡◌, ◌≤◌, ◌⊎◌, ◌+◌};
ghost use Rattle.im_edge.specs.Faults.{Rose};
ghost use Rattle.im_edge.specs.Reading.{GaveAtMost, GaveCount};
ghost use Rattle.im_edge.specs.Source.{IsSpent};
ghost use Rattle.im_shell.specs.Play.{DoneFor, InPartFor, IsUncounted};
ghost use Rattle.im_words.specs.declared.asked.Asked.{Asked};
ghost use Rattle.im_words.specs.Command.{Refuses, Takes};
ghost use Rattle.im_words.specs.Good.{IsGood};

use crate::ends::{end_of_play, end_of_reading, end_of_words};
use crate::modes::{play_for, script_for};
use crate::status::Status;
use im_edge::{Gate, Outside, Sink, Source};
use im_values::Steps;
use im_values::limits::MOST_SCRIPT_BYTES;
use im_words::{Mode, Word, read_words};
use std::alloc::Global;
use std::sync::Wait;
use std::sync::ledger::Ledger;
use std::thread::Threads;

/// Runs the program: reads a script from the source to its end, plays it line by line or as a race, and writes the replies or
/// the report to the sink. Or it makes a large script, plays that, and reads nothing.
///
/// `words` are the program's name and those of its command (`im_words`). A line that runs out of memory has a reply that says
/// so, and the script goes on; [`Status::NoMemory`] is for the reading or making of the script, for a race that cannot be held,
/// and for a text that does not fit even once all before it is written.
pub fn run<R: Threads + Wait + Sync, S: Source, K: Sink, G: Gate + Sync, L: Ledger>(
    rt: &R,
    alloc: Global,
    words: &[Word],
    source: &mut S,
    sink: &mut K,
    gate: &G,
    steps: &mut Steps<L>,
) -> Status
    // Where memory ran out before the script was there, and in a race before its report was, the sink is as it was; then no row was
    // read but in a race.
    ensures done { result ≡ Status.Done → DoneFor words.now (S.left source.old) (K.taken sink.old) (K.taken sink.new) steps.old steps.new }
    ensures in_part { (result ≡ Status.WriteFault) ⊎ (result ≡ Status.NoMemory)
        → ((sink.new ≡ sink.old) × IsUncounted words.now steps.old steps.new)
        ⊎ InPartFor words.now (S.left source.old) (K.taken sink.old) (K.taken sink.new) steps.old steps.new }

    // A script that is made is not read, and any other is read to its end.
    ensures unread { (asked : Asked) → Takes words.now asked → asked.mode ≡ Mode.Gen → source.new ≡ source.old }
    ensures read_to_end { result ≡ Status.Done → (asked : Asked) → Takes words.now asked → ¬ (asked.mode ≡ Mode.Gen)
        → IsSpent (S.left source.new) }

    // The command's words are refused exactly where the reader of words refuses them, and good words never are.
    ensures usage { result ≡ Status.Usage → Refuses words.now }
    ensures refused { Refuses words.now → (result ≡ Status.Usage) ⊎ (result ≡ Status.NoMemory) }
    ensures good { (asked : Asked) → IsGood words.now asked → ¬ (result ≡ Status.Usage) }
    ensures untouched { result ≡ Status.Usage → (source.new ≡ source.old) × (sink.new ≡ sink.old) × (steps.new ≡ steps.old) }

    ensures read_fault { result ≡ Status.ReadFault → Rose (S.faults source.old) (S.faults source.new) }
    ensures write_fault { result ≡ Status.WriteFault → Rose (K.faults sink.old) (K.faults sink.new) }
    ensures too_long { result ≡ Status.ScriptTooLong → GaveCount (S.left source.old) (S.left source.new) (MOST_SCRIPT_BYTES + 1) }
    ensures not_too_long { ¬ (result ≡ Status.ScriptTooLong) → GaveAtMost (S.left source.old) (S.left source.new) MOST_SCRIPT_BYTES }
    ensures unwritten { (result ≡ Status.ReadFault) ⊎ (result ≡ Status.ScriptTooLong) → (sink.new ≡ sink.old) × (steps.new ≡ steps.old) }
    ensures reads_later { S.faults source.old ≤ S.faults source.new }
    ensures writes_later { K.faults sink.old ≤ K.faults sink.new }
{
    let asked = match read_words(alloc, words) {
        Ok(asked) => asked,
        Err(fault) => return end_of_words(fault),
    };
    let script = match script_for(alloc, asked, source) {
        Ok(script) => script,
        Err(error) => return end_of_reading(error),
    };
    let outside = Outside { alloc, rt, gate };
    end_of_play(play_for(&outside, asked, script.as_slice(), sink, steps))
}
