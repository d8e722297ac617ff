ghost use Rattle.std.specs.Prelude.{◌≡◌, ◌≤◌, [], ◌++◌, length, OnOk, OnErr, IsErrOf};
ghost use Rattle.im_edge.specs.Faults.{Rose};
ghost use Rattle.im_edge.specs.Writing.{Took};
ghost use Rattle.im_race.specs.Race.{FIRST_WORKER};
ghost use Rattle.im_shell.specs.declared.shown.Shown.TheVariants.{All};
ghost use Rattle.im_shell.specs.Reports.{answers_text, end_text, ends_text, entries_text, recorded_text, report_text};
ghost use Rattle.im_shell.specs.Texts.{text_of};
ghost use Rattle.im_shell.specs.inner.Sent.{SendsPart};
ghost use Rattle.im_shell.specs.inner.Writers.{IsSame, HasSent, HasSentPart};
ghost use Rattle.im_text.specs.Passages.{passage_text};

use crate::shown::Shown;
use crate::writing::{PIECE, Stop, Writer};
use im_edge::Sink;
use im_history::History;
use im_race::Report;
use im_replies::Reply;
use im_text::{Passage, Waiting};
use im_values::Steps;
use im_values::limits::{SESSIONS, WORKERS};
use im_worker::Ended;
use std::alloc::Global;
use std::sync::ledger::Ledger;

/// The number of the first worker.
const FIRST: u32 = SESSIONS + 1;

/// Puts the replies to the lines of a prelude.
fn put_replies<K: Sink>(replies: &[(u64, Reply)], writer: &mut Writer<'_, K>) -> Result<(), Stop>
    ensures same { IsSame writer.old writer.new }
    ensures ok { OnOk result (HasSent K.taken writer.old writer.new (writer.old.waiting.now ++ text_of All replies.now)) }
    ensures err { OnErr result (HasSentPart K.taken writer.old writer.new (writer.old.waiting.now ++ text_of All replies.now)) }
    ensures cause { IsErrOf result Stop.WriteFault → Rose (K.faults writer.old.sink.now) (K.faults writer.new.sink.now) }
    ensures later { K.faults writer.old.sink.now ≤ K.faults writer.new.sink.now }
{
    for (line, reply) in replies {
        writer.put_next(Passage::Reply(*line, &reply.body))?;
    }
    Ok(())
}

/// Puts the entries of a history, with their places.
fn put_entries<K: Sink, L: Ledger>(
    history: &History,
    writer: &mut Writer<'_, K>,
    steps: &mut Steps<L>,
) -> Result<(), Stop>
    ensures same { IsSame writer.old writer.new }
    ensures ok { OnOk result (HasSent K.taken writer.old writer.new (writer.old.waiting.now ++ entries_text 0 history.now.entries)) }
    ensures err { OnErr result (HasSentPart K.taken writer.old writer.new (writer.old.waiting.now ++ entries_text 0 history.now.entries)) }
    ensures cause { IsErrOf result Stop.WriteFault → Rose (K.faults writer.old.sink.now) (K.faults writer.new.sink.now) }
    ensures later { K.faults writer.old.sink.now ≤ K.faults writer.new.sink.now }
{
    let mut place = 0;
    while place < history.len() {
        let entry = history.entry(place, steps);
        writer.put_next(Passage::Entry(place, entry))?;
        place += 1;
    }
    Ok(())
}

/// Puts how many entries a history has, and then its entries.
fn put_history<K: Sink, L: Ledger>(
    history: &History,
    writer: &mut Writer<'_, K>,
    steps: &mut Steps<L>,
) -> Result<(), Stop>
    ensures same { IsSame writer.old writer.new }
    ensures ok { OnOk result (HasSent K.taken writer.old writer.new (writer.old.waiting.now ++ recorded_text history.now.entries)) }
    ensures err { OnErr result (HasSentPart K.taken writer.old writer.new (writer.old.waiting.now ++ recorded_text history.now.entries)) }
    ensures cause { IsErrOf result Stop.WriteFault → Rose (K.faults writer.old.sink.now) (K.faults writer.new.sink.now) }
    ensures later { K.faults writer.old.sink.now ≤ K.faults writer.new.sink.now }
{
    writer.put_next(Passage::History(history.len()))?;
    put_entries(history, writer, steps)
}

/// What is put of how the worker of this number ended.
fn end_passage(who: u32, ended: Ended) -> Passage<'static>
    ensures { passage_text result ≡ end_text who ended }
{
    match ended {
        Ended::Over { place } => Passage::Worker {
            who,
            over: true,
            lacks: 0,
            place: Some(place),
        },
        Ended::Spent { lacks, idle } => Passage::Worker {
            who,
            over: false,
            lacks,
            place: idle,
        },
    }
}

/// Puts how each worker ended.
fn put_ends<K: Sink>(ends: &[Ended], writer: &mut Writer<'_, K>) -> Result<(), Stop>
    requires few { length ends.now ≤ WORKERS }
    ensures same { IsSame writer.old writer.new }
    ensures ok { OnOk result (HasSent K.taken writer.old writer.new (writer.old.waiting.now ++ ends_text FIRST_WORKER ends.now)) }
    ensures err { OnErr result (HasSentPart K.taken writer.old writer.new (writer.old.waiting.now ++ ends_text FIRST_WORKER ends.now)) }
    ensures cause { IsErrOf result Stop.WriteFault → Rose (K.faults writer.old.sink.now) (K.faults writer.new.sink.now) }
    ensures later { K.faults writer.old.sink.now ≤ K.faults writer.new.sink.now }
{
    let mut who = FIRST;
    for ended in ends {
        writer.put_next(end_passage(who, *ended))?;
        who += 1;
    }
    Ok(())
}

/// Puts the lines behind a prelude.
fn put_answers<K: Sink>(answers: &[(u64, Reply)], writer: &mut Writer<'_, K>) -> Result<(), Stop>
    ensures same { IsSame writer.old writer.new }
    ensures ok { OnOk result (HasSent K.taken writer.old writer.new (writer.old.waiting.now ++ answers_text answers.now)) }
    ensures err { OnErr result (HasSentPart K.taken writer.old writer.new (writer.old.waiting.now ++ answers_text answers.now)) }
    ensures cause { IsErrOf result Stop.WriteFault → Rose (K.faults writer.old.sink.now) (K.faults writer.new.sink.now) }
    ensures later { K.faults writer.old.sink.now ≤ K.faults writer.new.sink.now }
{
    for (line, reply) in answers {
        writer.put_next(Passage::Line(*line, reply))?;
    }
    Ok(())
}

/// Puts the parts of a report, one behind the other.
fn put_report<K: Sink, L: Ledger>(
    report: &Report,
    writer: &mut Writer<'_, K>,
    steps: &mut Steps<L>,
) -> Result<(), Stop>
    requires few { length report.now.ends ≤ WORKERS }
    ensures same { IsSame writer.old writer.new }
    ensures ok { OnOk result (HasSent K.taken writer.old writer.new (writer.old.waiting.now ++ report_text report.now)) }
    ensures err { OnErr result (HasSentPart K.taken writer.old writer.new (writer.old.waiting.now ++ report_text report.now)) }
    ensures cause { IsErrOf result Stop.WriteFault → Rose (K.faults writer.old.sink.now) (K.faults writer.new.sink.now) }
    ensures later { K.faults writer.old.sink.now ≤ K.faults writer.new.sink.now }
{
    put_replies(report.prelude.as_slice(), writer)?;
    put_history(&report.history, writer, steps)?;
    put_ends(report.ends.as_slice(), writer)?;
    put_answers(report.answers.as_slice(), writer)
}

/// Puts the parts of a report, where nothing waits, and writes all of them.
fn send_report<K: Sink, L: Ledger>(
    report: &Report,
    writer: &mut Writer<'_, K>,
    steps: &mut Steps<L>,
) -> Result<(), Stop>
    requires few { length report.now.ends ≤ WORKERS }
    requires none_waits { writer.old.waiting.now ≡ [] }
    ensures same { IsSame writer.old writer.new }
    ensures ok { OnOk result (Took (K.taken writer.old.sink.now) (K.taken writer.new.sink.now) (report_text report.now)) }
    ensures err { OnErr result (HasSentPart K.taken writer.old writer.new (report_text report.now)) }
    ensures cause { IsErrOf result Stop.WriteFault → Rose (K.faults writer.old.sink.now) (K.faults writer.new.sink.now) }
    ensures later { K.faults writer.old.sink.now ≤ K.faults writer.new.sink.now }
{
    put_report(report, writer, steps)?;
    Ok(writer.flush()?)
}

/// Writes the report of a race.
pub fn write_report<K: Sink, L: Ledger>(
    alloc: Global,
    report: &Report,
    sink: &mut K,
    steps: &mut Steps<L>,
) -> Result<(), Stop>
    requires few { length report.now.ends ≤ WORKERS }
    ensures ok { OnOk result (Took (K.taken sink.old) (K.taken sink.new) (report_text report.now)) }
    ensures err { OnErr result (SendsPart (K.taken sink.old) (K.taken sink.new) (report_text report.now)) }
    ensures cause { IsErrOf result Stop.WriteFault → Rose (K.faults sink.old) (K.faults sink.new) }
    ensures later { K.faults sink.old ≤ K.faults sink.new }
{
    let mut waiting = Waiting::with_room(alloc, PIECE)?;
    let mut writer = Writer {
        alloc,
        sink,
        waiting: &mut waiting,
        shown: Shown::All,
    };
    send_report(report, &mut writer, steps)
}
