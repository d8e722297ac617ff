// A session plays lines over a store that nobody else has.
ghost use Rattle.std.specs.Prelude.{◌≡◌};
ghost use Rattle.check_store.specs.Going.{WentOn};
ghost use Rattle.im_play.specs.Lines.{IsKnown};
ghost use Rattle.im_reach.specs.Sides.{sole};
ghost use Rattle.im_session.specs.Sessions.{Agrees};

use im_edge::{OpenGate, Outside};
use im_play::read_line;
use im_reach::Reach;
use im_replies::Reply;
use im_script::LineKind;
use im_session::Session;
use im_unit::ColumnUnit;
use im_values::Steps;
use std::mem::replace;
use std::sync::Wait;
use std::sync::ledger::Ledger;
use std::thread::Threads;

/// Plays a line, where it is one of a session.
pub fn play<R: Threads + Wait + Sync, H: Reach<ColumnUnit>, L: Ledger>(
    outside: &Outside<R, OpenGate>,
    store: &mut H,
    session: &mut Session,
    text: &str,
    steps: &mut Steps<L>,
) -> Option<Reply>
    requires session { session.old.who ≡ 1 }
    requires sole { (H.known store.old).side ≡ sole }
    requires agrees { Agrees session.old (H.known store.old) }
    ensures session { session.new.who ≡ 1 }
    ensures agrees { Agrees session.new (H.known store.new) }
    ensures went { WentOn 1 (H.known store.old) (H.known store.new) }
{
    let line = read_line(outside.alloc, 1, text.as_bytes());
    let reply = play_kind(outside, store, session, &line.kind, steps);
    drop(line);
    reply
}

/// The same of what a line has.
fn play_kind<R: Threads + Wait + Sync, H: Reach<ColumnUnit>, L: Ledger>(
    outside: &Outside<R, OpenGate>,
    store: &mut H,
    session: &mut Session,
    kind: &LineKind,
    steps: &mut Steps<L>,
) -> Option<Reply>
    requires known { IsKnown kind.now }
    requires session { session.old.who ≡ 1 }
    requires sole { (H.known store.old).side ≡ sole }
    requires agrees { Agrees session.old (H.known store.old) }
    ensures session { session.new.who ≡ 1 }
    ensures agrees { Agrees session.new (H.known store.new) }
    ensures went { WentOn 1 (H.known store.old) (H.known store.new) }
{
    match kind {
        LineKind::Session(_, statement) => {
            Some(session.execute(outside, store, statement, steps))
        }
        _ => None,
    }
}

/// Plays lines, and answers the last one.
pub fn play_each<R: Threads + Wait + Sync, H: Reach<ColumnUnit>, L: Ledger>(
    outside: &Outside<R, OpenGate>,
    store: &mut H,
    session: &mut Session,
    lines: &[&str],
    steps: &mut Steps<L>,
) -> Option<Reply>
    requires session { session.old.who ≡ 1 }
    requires sole { (H.known store.old).side ≡ sole }
    requires agrees { Agrees session.old (H.known store.old) }
    ensures session { session.new.who ≡ 1 }
    ensures agrees { Agrees session.new (H.known store.new) }
    ensures went { WentOn 1 (H.known store.old) (H.known store.new) }
{
    let mut last = None;
    for line in lines {
        drop(replace(&mut last, play(outside, store, session, line, steps)));
    }
    last
}
