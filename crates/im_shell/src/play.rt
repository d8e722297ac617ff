ghost use Rattle.std.specs.Prelude.{◌≡◌, ◌≤◌, ◌+◌, [], ◌++◌, OnOk, OnErr, IsErrOf};
ghost use Rattle.im_edge.specs.Faults.{Rose};
ghost use Rattle.im_play.specs.Between.{IsBetween, machine_of, nothing_in, unused_background, unused_from};
ghost use Rattle.im_shell.specs.Play.{IsScriptPlayed, Writes, WritesPart};
ghost use Rattle.im_shell.specs.inner.Going.{text_put, PlaysBytes, PlaysNext, PlaysNextPart};
ghost use Rattle.im_shell.specs.inner.Writers.{IsSame, HasSent, HasSentPart};

use crate::shown::Shown;
use crate::writing::{PIECE, Stop, Writer};
use im_edge::{Gate, Outside, Sink};
use im_play::{Players, empty_store, play_line, read_line};
use im_reach::Reach;
use im_replies::Reply;
use im_script::first_line;
use im_text::{Passage, Waiting};
use im_unit::ColumnUnit;
use im_values::Steps;
use im_values::limits::SESSIONS;
use std::mem::forget;
use std::sync::Wait;
use std::sync::ledger::Ledger;
use std::thread::Threads;

/// Reads the next line, and plays it.
fn play_bytes<R: Threads + Wait + Sync, H: Reach<ColumnUnit>, G: Gate, L: Ledger>(
    outside: &Outside<R, G>,
    reach: &mut H,
    players: &mut Players,
    bytes: &[u8],
    number: u64,
    steps: &mut Steps<L>,
) -> Option<Reply>
    requires between { IsBetween (H.known reach.old) players.old.sessions.items players.old.background }
    ensures between { IsBetween (H.known reach.new) players.new.sessions.items players.new.background }
    ensures limits { (H.known reach.new).limits ≡ (H.known reach.old).limits }
    ensures plays { PlaysBytes (H.known reach.old).limits.area bytes.now number
        (machine_of (H.known reach.old) players.old.sessions.items players.old.background) result
        (machine_of (H.known reach.new) players.new.sessions.items players.new.background) steps.old steps.new }
{
    let line = read_line(outside.alloc, number, bytes);
    let reply = play_line(outside, reach, players, &line, steps);
    drop(line);
    reply
}

/// Puts the text of a reply, where there is one that is shown, behind what waits to be written.
fn put_reply<K: Sink>(
    number: u64,
    reply: &Option<Reply>,
    writer: &mut Writer<'_, K>,
) -> Result<(), Stop>
    ensures same { IsSame writer.old writer.new }
    ensures ok { OnOk result (HasSent K.taken writer.old writer.new
        (writer.old.waiting.now ++ text_put writer.old.shown number reply.now)) }
    ensures err { OnErr result (HasSentPart K.taken writer.old writer.new writer.old.waiting.now) }
    ensures cause { IsErrOf result Stop.WriteFault → Rose (K.faults writer.old.sink.now) (K.faults writer.new.sink.now) }
    ensures later { K.faults writer.old.sink.now ≤ K.faults writer.new.sink.now }
{
    match reply {
        Some(reply) if writer.shown.shows(&reply.body) => {
            writer.put(Passage::Reply(number, &reply.body))
        }
        _ => Ok(()),
    }
}

/// Plays the next line, and puts the text of its reply behind what waits to be written.
fn play_next<R: Threads + Wait + Sync, H: Reach<ColumnUnit>, G: Gate, K: Sink, L: Ledger>(
    outside: &Outside<R, G>,
    reach: &mut H,
    players: &mut Players,
    bytes: &[u8],
    number: u64,
    writer: &mut Writer<'_, K>,
    steps: &mut Steps<L>,
) -> Result<(), Stop>
    requires between { IsBetween (H.known reach.old) players.old.sessions.items players.old.background }
    ensures between { IsBetween (H.known reach.new) players.new.sessions.items players.new.background }
    ensures limits { (H.known reach.new).limits ≡ (H.known reach.old).limits }
    ensures same { IsSame writer.old writer.new }
    ensures ok { OnOk result (PlaysNext writer.old.shown (H.known reach.old).limits.area bytes.now number
        (machine_of (H.known reach.old) players.old.sessions.items players.old.background)
        (machine_of (H.known reach.new) players.new.sessions.items players.new.background)
        (K.taken writer.old.sink.now) (K.taken writer.new.sink.now) writer.old.waiting.now writer.new.waiting.now steps.old steps.new) }
    ensures err { OnErr result (PlaysNextPart (H.known reach.old).limits.area bytes.now number
        (machine_of (H.known reach.old) players.old.sessions.items players.old.background)
        (machine_of (H.known reach.new) players.new.sessions.items players.new.background)
        (K.taken writer.old.sink.now) (K.taken writer.new.sink.now) writer.old.waiting.now steps.old steps.new) }
    ensures cause { IsErrOf result Stop.WriteFault → Rose (K.faults writer.old.sink.now) (K.faults writer.new.sink.now) }
    ensures later { K.faults writer.old.sink.now ≤ K.faults writer.new.sink.now }
{
    let reply = play_bytes(outside, reach, players, bytes, number, steps);
    let put = put_reply(number, &reply, writer);
    drop(reply);
    put
}

/// Plays a script line by line, over a store in which nothing has happened and players that keep nothing, and writes the text
/// of its replies.
fn play_lines<R: Threads + Wait + Sync, H: Reach<ColumnUnit>, G: Gate, K: Sink, L: Ledger>(
    outside: &Outside<R, G>,
    reach: &mut H,
    players: &mut Players,
    script: &[u8],
    writer: &mut Writer<'_, K>,
    steps: &mut Steps<L>,
) -> Result<(), Stop>
    requires empty { H.known reach.old ≡ nothing_in (H.known reach.old).limits.area }
    requires unused { players.old.sessions.items ≡ unused_from 0 (SESSIONS + 1) }
    requires unused_background { players.old.background ≡ unused_background }
    requires none_waits { writer.old.waiting.now ≡ [] }
    ensures same { IsSame writer.old writer.new }
    ensures ok { OnOk result (Writes (IsScriptPlayed writer.old.shown (H.known reach.old).limits.area script.now steps.old steps.new)
        (K.taken writer.old.sink.now) (K.taken writer.new.sink.now)) }
    ensures err { OnErr result (WritesPart (IsScriptPlayed writer.old.shown (H.known reach.old).limits.area script.now steps.old steps.new)
        (K.taken writer.old.sink.now) (K.taken writer.new.sink.now)) }
    ensures cause { IsErrOf result Stop.WriteFault → Rose (K.faults writer.old.sink.now) (K.faults writer.new.sink.now) }
    ensures later { K.faults writer.old.sink.now ≤ K.faults writer.new.sink.now }
{
    let mut rest = script;
    let mut number = 1;
    while rest.len() > 0 {
        let (line, behind) = first_line(rest);
        play_next(outside, reach, players, line, number, writer, steps)?;
        writer.flush_piece()?;
        number += 1;
        rest = behind;
    }
    Ok(writer.flush()?)
}

/// Plays a script over a store in which nothing has happened, with sessions and a background of its own, and writes the text of
/// its replies that are shown.
fn play_over<R: Threads + Wait + Sync, H: Reach<ColumnUnit>, G: Gate, K: Sink, L: Ledger>(
    outside: &Outside<R, G>,
    reach: &mut H,
    shown: Shown,
    script: &[u8],
    sink: &mut K,
    steps: &mut Steps<L>,
) -> Result<(), Stop>
    requires empty { H.known reach.old ≡ nothing_in (H.known reach.old).limits.area }
    ensures ok { OnOk result (Writes (IsScriptPlayed shown (H.known reach.old).limits.area script.now steps.old steps.new)
        (K.taken sink.old) (K.taken sink.new)) }
    ensures err { OnErr result (WritesPart (IsScriptPlayed shown (H.known reach.old).limits.area script.now steps.old steps.new)
        (K.taken sink.old) (K.taken sink.new)) }
    ensures cause { IsErrOf result Stop.WriteFault → Rose (K.faults sink.old) (K.faults sink.new) }
    ensures later { K.faults sink.old ≤ K.faults sink.new }
{
    let mut waiting = Waiting::with_room(outside.alloc, PIECE)?;
    let mut players = Players::new(outside.alloc)?;
    let mut writer = Writer {
        alloc: outside.alloc,
        sink,
        waiting: &mut waiting,
        shown,
    };
    let played = play_lines(outside, reach, &mut players, script, &mut writer, steps);
    drop(players);
    played
}

/// Plays a script, over a store, sessions and a background of its own, and writes the text of its replies that are shown. The column units of
/// the store may take `area` bytes together. The store is not taken apart at the end: it goes with the process.
pub fn play_script<R: Threads + Wait + Sync, G: Gate, K: Sink, L: Ledger>(
    outside: &Outside<R, G>,
    shown: Shown,
    area: u64,
    script: &[u8],
    sink: &mut K,
    steps: &mut Steps<L>,
) -> Result<(), Stop>
    ensures ok { OnOk result (Writes (IsScriptPlayed shown area script.now steps.old steps.new) (K.taken sink.old) (K.taken sink.new)) }
    ensures err { OnErr result (WritesPart (IsScriptPlayed shown area script.now steps.old steps.new) (K.taken sink.old) (K.taken sink.new)) }
    ensures cause { IsErrOf result Stop.WriteFault → Rose (K.faults sink.old) (K.faults sink.new) }
    ensures later { K.faults sink.old ≤ K.faults sink.new }
{
    let mut store = empty_store(outside.alloc, area)?;
    let played = play_over(outside, &mut store, shown, script, sink, steps);
    forget(store);
    played
}
